//! The tables of situations: how many they have, in which order, that each is reached, and by which run.
ghost use Rattle.std.specs.Prelude.{◌<◌};

use std::alloc::{AllocError, Global};
use std::fmt::Write;
use std::test::Fail;
use tl_rules::Event;
use tlcheck_record::EventLine;
use tlcheck_situations::{Situation, Table, TableError};

/// The digest of no text.
pub(crate) const EMPTY: u64 = 0xcbf2_9ce4_8422_2325;

/// The digest of a text that grows by some more: FNV-1a of 64 bits.
pub(crate) fn digest_on(digest: u64, text: &[u8]) -> u64 {
    let mut grown = digest;
    for byte in text {
        grown = (grown ^ u64::from(*byte)).wrapping_mul(0x0100_0000_01b3);
    }
    grown
}

/// A line for a situation, and one for each event of a run.
fn lines_of(alloc: Global, situation: &Situation, run: &[Event]) -> Result<String, AllocError> {
    let mut lines = String::new(alloc);
    writeln!(lines, "{situation}")?;
    for event in run {
        writeln!(lines, "{}", EventLine(event))?;
    }
    Ok(lines)
}

/// How many situations runs of so many clients reach, if each of the table's is reached; and the digest of all their
/// lines, each situation's with its run's, in the table's order.
fn reached(alloc: Global, clients: u32) -> Result<Option<(usize, u64)>, TableError>
    requires { 0 < clients }
{
    let table = Table::new(alloc, clients)?;
    let mut digest = EMPTY;
    for situation in table.situations() {
        let Some(run) = table.run_to(alloc, situation)? else {
            return Ok(None);
        };
        digest = digest_on(digest, lines_of(alloc, situation, &run)?.as_bytes());
    }
    Ok(Some((table.situations().len(), digest)))
}

/// The digests are those of commit c36bcf97, whose search was another: this test told them there, by `rt try --test`.
#[test]
fn each_situation_is_reached(rt: HostRuntime) -> Result<(), Fail> {
    assert_eq!(rt; reached(rt.alloc(), 1)?, Some((319, 0xa503_76e9_9a8c_d32e)));
    assert_eq!(rt;
        reached(rt.alloc(), 2)?,
        Some((1408, 0xfee1_0aee_9486_eb8f))
    );
    assert_eq!(rt;
        reached(rt.alloc(), 3)?,
        Some((2257, 0xba5c_bdcb_974d_f37f))
    );
    Ok(())
}
