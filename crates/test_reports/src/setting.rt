//! A script and its banks at reset, and calls made on them.
use arrayvec::ArrayVec;
use std::alloc::Global;
use std::marker::Model;
use tl_bank::{Bank, Refusal, Share, When};
use tl_map::Geometry;
use tl_protocol::Event;
use tl_runner_report::{RunError, conclude};
use tl_script::{Script, read_script};
use tl_text::Report;
use tl_types::{BankNo, BlockNo, CLIENTS, Channel, ClientId, Grow, Ticket};

/// A script, its banks, and the list of shares of each. Its model says nothing, so that a test of many calls has their
/// answers alone to carry along.
#[derive(Drop)]
pub(crate) struct Setting {
    script: Script,
    banks: Vec<Bank>,
    lists: Vec<Vec<Share>>,
}

impl Model for Setting {
    ghost Value = { Unit {0} };

    ghost view = { λ _. tt };
}

/// Shares as a list.
fn listed(alloc: Global, given: ArrayVec<Share, CLIENTS>) -> Option<Vec<Share>> {
    let mut shares = Vec::new(alloc);
    for share in given {
        shares.push(share).ok()?;
    }
    Some(shares)
}

/// A bank of the script at reset, and its shares. `None` where the script has no bank of this number.
fn fresh(alloc: Global, script: &Script, number: u32) -> Option<(Bank, Vec<Share>)> {
    let geometry = script.geometry();
    if number >= geometry.banks() {
        return None;
    }
    let image = script.image.as_slice();
    let (bank, given) = Bank::new(alloc, geometry, BankNo::new(number), image).ok()?;
    Some(bank).zip(listed(alloc, given))
}

/// A client asks for a block to write it, and home accepts.
fn ask(bank: &mut Bank, client: ClientId, block: BlockNo) -> Result<(), Refusal> {
    let ticket = bank.acquire(client, block, Grow::NtoT)?;
    bank.accept(ticket)
}

/// Home fetches a block and grants it.
fn fetch(bank: &mut Bank, block: BlockNo) -> Result<(), Refusal> {
    bank.advance(block)?;
    bank.serve_memory(block)?;
    bank.take_memory(block)?;
    bank.advance(block)?;
    Ok(())
}

/// A client takes the first Grant of the bank, and home the GrantAck.
fn take_grant(bank: &mut Bank, share: &mut Share, client: ClientId) -> Result<(), Refusal> {
    let grant = Ticket {
        bank: bank.number(),
        client,
        channel: Channel::D,
        serial: 0,
    };
    let ack = bank.take_grant(grant, share)?;
    bank.take_grant_ack(ack)
}

/// A client gets a block of a bank at Tip, as its first one there.
fn take_block(
    bank: &mut Bank,
    share: &mut Share,
    client: ClientId,
    block: BlockNo,
) -> Result<(), Refusal> {
    ask(bank, client, block)?;
    fetch(bank, block)?;
    take_grant(bank, share, client)
}

/// A client's share of a bank.
fn share_of(lists: &mut [Vec<Share>], number: usize, client: u32) -> Option<&mut Share> {
    let list = lists.get_mut(number)?;
    list.as_mut_slice().get_mut(client as usize)
}

/// The events of a bank's log.
fn events(bank: &Bank) -> &[Event] {
    bank.log()
}

/// An access, as stamp, client and index.
fn mark(event: &Event) -> Option<(u64, u32, u32)> {
    match event {
        Event::Load(access) | Event::Store(access) => {
            Some((access.stamp, access.client.number(), access.index))
        }
        _ => None,
    }
}

/// Whether the accesses among events are just these, in order.
fn are_marks(events: &[Event], marks: &[(u64, u32, u32)]) -> bool {
    let mut found = 0usize;
    for event in events {
        if let Some(mark) = mark(event) {
            if marks.get(found) != Some(&mark) {
                return false;
            }
            found = found.saturating_add(1);
        }
    }
    found == marks.len()
}

/// The calls.
impl Setting {
    /// The script of a text, with its banks at reset. `None` where it is refused, or a request for memory.
    pub(crate) fn of(alloc: Global, text: &str) -> Option<Setting> {
        let script = read_script(alloc, text.as_bytes()).ok()?;
        let mut setting = Setting {
            script,
            banks: Vec::new(alloc),
            lists: Vec::new(alloc),
        };
        setting.add_banks(alloc)?;
        Some(setting)
    }

    /// Adds the script's banks at reset, and a list of the shares of each. `None` where a request for memory was
    /// refused.
    fn add_banks(&mut self, alloc: Global) -> Option<()> {
        for number in 0..self.geometry().banks() {
            self.add_bank(alloc, number)?;
        }
        Some(())
    }

    /// Adds a bank of the script at reset, and a list of its shares. `None` where the script has no bank of this
    /// number, or a request for memory was refused.
    fn add_bank(&mut self, alloc: Global, number: u32) -> Option<()> {
        let (bank, list) = fresh(alloc, &self.script, number)?;
        let listed = self.lists.push(list).ok();
        let added = self.banks.push(bank).ok();
        listed.and(added)
    }

    /// The script's geometry.
    pub(crate) fn geometry(&self) -> Geometry {
        self.script.geometry()
    }

    /// A bank of the setting.
    fn bank(&mut self, number: usize) -> Option<&mut Bank> {
        self.banks.as_mut_slice().get_mut(number)
    }

    /// A client gets a block of a bank at Tip, as its first one there.
    pub(crate) fn take(&mut self, number: usize, client: u32, block: u32) -> Option<()> {
        let bank = self.banks.as_mut_slice().get_mut(number)?;
        let share = share_of(self.lists.as_mut_slice(), number, client)?;
        take_block(bank, share, ClientId::new(client), BlockNo::new(block)).ok()
    }

    /// A client stores a byte: the stamp.
    pub(crate) fn store(
        &mut self,
        number: usize,
        client: u32,
        address: u32,
        byte: u8,
        when: When,
    ) -> Option<u64> {
        let bank = self.bank(number)?;
        bank.store(ClientId::new(client), address, &[byte], when)
            .ok()
    }

    /// A client loads bytes: the stamp.
    pub(crate) fn load(
        &mut self,
        number: usize,
        client: u32,
        address: u32,
        len: usize,
        when: When,
    ) -> Option<u64> {
        let bank = self.bank(number)?;
        let loaded = bank.load(ClientId::new(client), address, len, when).ok()?;
        Some(loaded.stamp)
    }
}

/// What is concluded.
impl Setting {
    /// What is concluded for the script.
    fn conclude(&self, alloc: Global) -> Result<Report, RunError> {
        conclude(alloc, &self.script, &self.banks, &self.lists)
    }

    /// The report that is concluded. `None` where there is none.
    pub(crate) fn report(&self, alloc: Global) -> Option<Report> {
        self.conclude(alloc).ok()
    }

    /// How many clients and banks the report has that is concluded: nothing where a request for memory was refused.
    /// `None` where there is no report for another cause.
    pub(crate) fn sizes(&self, alloc: Global) -> Option<Option<(usize, usize)>> {
        match self.conclude(alloc) {
            Ok(report) => Some(Some((report.clients.len(), report.banks.len()))),
            Err(RunError::Memory) => Some(None),
            Err(_) => None,
        }
    }

    /// Whether nothing is concluded, since the script is not what the banks carried out.
    pub(crate) fn is_other(&self, alloc: Global) -> bool {
        matches!(&self.conclude(alloc), Err(RunError::NotOrdered))
    }

    /// Whether nothing is concluded, since these are not all shares.
    pub(crate) fn lacks_shares(&self, alloc: Global) -> bool {
        matches!(&self.conclude(alloc), Err(RunError::Shares))
    }

    /// Whether a bank's log has just these accesses, as stamp, client and index, in order.
    pub(crate) fn has_marks(&self, number: usize, marks: &[(u64, u32, u32)]) -> bool {
        match self.banks.as_slice().get(number) {
            Some(bank) => are_marks(events(bank), marks),
            None => false,
        }
    }
}

/// Shares in other places.
impl Setting {
    /// The lists of shares in reverse.
    pub(crate) fn reverse_lists(&mut self) {
        self.lists.reverse();
    }
}
