//! The largest script's accesses: 16 clients with 4,096 commands each over 8 banks.
use crate::setting::Setting;
use std::alloc::{AllocError, Global};
use tl_bank::When;
use tl_map::Geometry;
use tl_text::{BankLine, Report};
use tl_types::BlockNo;

const NUMBERS: &str =
    "version = 2\nclients = 16\nbanks = 8\nblock_bytes = 8\nsets = 16\nways = 8\nregisters = 8\ncopies = 16\nmemory_blocks = 256\nturns = 10\ncommands = [";

/// The block of a client's command at an index: one of the client's own eight, each of another bank.
fn block_of(client: u8, index: u16) -> u32 {
    8 * u32::from(client) + u32::from(index % 8)
}

/// The byte that a client's command at an index stores. None where it loads one.
fn stored_at(index: u16) -> Option<u8> {
    if index % 16 < 8 {
        Some((index % 256) as u8)
    } else {
        None
    }
}

/// Writes the commands of a client.
fn push_commands(alloc: Global, text: &mut String, client: u8) -> Result<(), AllocError> {
    text.push_str("[")?;
    for index in 0..4096u16 {
        let address = u64::from(block_of(client, index)) * 8;
        let line = match stored_at(index) {
            Some(byte) => format!(in alloc; "\"store 0x{address:x} {byte:02x}\",")?,
            None => format!(in alloc; "\"load 0x{address:x} 1\",")?,
        };
        text.push_str(line.as_str())?;
    }
    text.push_str("],")
}

/// Writes the script.
fn push_script(alloc: Global, text: &mut String) -> Result<(), AllocError> {
    text.push_str(NUMBERS)?;
    for client in 0..16u8 {
        push_commands(alloc, text, client)?;
    }
    text.push_str("]\n")
}

/// The script with its banks at reset.
fn at_reset(alloc: Global) -> Option<Setting> {
    let mut text = String::new(alloc);
    push_script(alloc, &mut text).ok()?;
    Setting::of(alloc, text.as_str())
}

/// The place of a block's bank among the banks. `None` where there is no such block.
fn bank_of(geometry: Geometry, block: u32) -> Option<usize> {
    let block = BlockNo::new(block);
    if !geometry.has(block) {
        return None;
    }
    Some(geometry.place(block).bank.number() as usize)
}

/// A client gets its blocks at Tip.
fn take_blocks(geometry: Geometry, setting: &mut Setting, client: u8) -> Option<()> {
    for index in 0..8u16 {
        let block = block_of(client, index);
        setting.take(bank_of(geometry, block)?, u32::from(client), block)?;
    }
    Some(())
}

/// A client's command at an index is carried out: its stamp.
fn carry_out(geometry: Geometry, setting: &mut Setting, client: u8, index: u16) -> Option<u64> {
    let block = block_of(client, index);
    let bank = bank_of(geometry, block)?;
    let client = u32::from(client);
    let when = When {
        clock: u64::from(index),
        index: u32::from(index),
    };
    let address = block.wrapping_mul(8);
    match stored_at(index) {
        Some(byte) => setting.store(bank, client, address, byte, when),
        None => setting.load(bank, client, address, 1, when),
    }
}

/// Each client's command at an index is carried out.
fn carry_out_each(geometry: Geometry, setting: &mut Setting, index: u16) -> Option<()> {
    for client in 0..16u8 {
        carry_out(geometry, setting, client, index)?;
    }
    Some(())
}

/// Clients get their blocks, and all commands are carried out.
fn carry_out_all(setting: &mut Setting) -> Option<()> {
    let geometry = setting.geometry();
    for client in 0..16u8 {
        take_blocks(geometry, setting, client)?;
    }
    for index in 0..4096u16 {
        carry_out_each(geometry, setting, index)?;
    }
    Some(())
}

/// How many of these banks have 16 copies, all of them recorded.
fn full_banks(banks: &[BankLine]) -> usize {
    let mut full = 0usize;
    for line in banks {
        if line.held == 16 && line.recorded == 16 {
            full = full.saturating_add(1);
        }
    }
    full
}

/// How many clients a report has, how many banks, and how many of them have 16 copies, all of them recorded.
fn sizes(report: &Report) -> (usize, usize, usize) {
    let banks = report.banks.as_slice();
    (report.clients.len(), banks.len(), full_banks(banks))
}

/// What is concluded once all commands are carried out.
fn report(alloc: Global) -> Option<Report> {
    let mut setting = at_reset(alloc)?;
    carry_out_all(&mut setting)?;
    setting.report(alloc)
}

/// The sizes of that report.
fn concluded(alloc: Global) -> Option<(usize, usize, usize)> {
    let report = report(alloc)?;
    Some(sizes(&report))
}

#[test]
fn sixteen_clients_on_eight_banks(rt: HostRuntime) {
    assert_eq!(rt; concluded(rt.alloc()), Some((16, 8, 8)));
}
