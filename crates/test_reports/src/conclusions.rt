//! What is concluded from two banks: of fresh ones and of exchanged shares nothing; the stamps of their accesses; and a
//! report where a request for memory was refused before.
use crate::setting::Setting;
use std::alloc::Global;
use tl_bank::When;

const TWO_BANKS: &str =
    "version = 1\nclients = 1\nbanks = 2\nblock_bytes = 8\nsets = 1\nways = 2\nregisters = 2\ncopies = 2\nmemory_blocks = 4\nturns = 10\ncommands = [[\"store 0x0 01\", \"store 0x8 02\", \"load 0x0 1\", \"load 0x8 1\"]]\n";

/// When an access is made.
fn at(clock: u64, index: u32) -> When {
    When { clock, index }
}

/// Whether fresh banks are others, and whether shares in another order are missing.
fn are_refused(alloc: Global, setting: &mut Setting) -> [bool; 2] {
    let fresh = setting.is_other(alloc);
    setting.reverse_lists();
    [fresh, setting.lacks_shares(alloc)]
}

/// The same of the two banks of `TWO_BANKS`.
fn are_refused_of_two(alloc: Global) -> Option<[bool; 2]> {
    let mut setting = Setting::of(alloc, TWO_BANKS)?;
    Some(are_refused(alloc, &mut setting))
}

#[test]
fn fresh_banks_have_not_run(rt: HostRuntime) {
    assert_eq!(rt; are_refused_of_two(rt.alloc()), Some([true, true]));
}

/// The client of `TWO_BANKS` gets its blocks, and makes its accesses.
fn carry_out(setting: &mut Setting) -> Option<()> {
    setting.take(0, 0, 0)?;
    setting.take(1, 0, 1)?;
    let stamp = setting.store(0, 0, 0, 1, at(0, 0))?;
    let stamp = setting.store(1, 0, 8, 2, at(stamp, 1))?;
    let stamp = setting.load(0, 0, 0, 1, at(stamp, 2))?;
    let _stamp = setting.load(1, 0, 8, 1, at(stamp, 3))?;
    Some(())
}

/// The two banks of `TWO_BANKS` with its accesses.
fn two_banks(alloc: Global) -> Option<Setting> {
    let mut setting = Setting::of(alloc, TWO_BANKS)?;
    carry_out(&mut setting)?;
    Some(setting)
}

/// Whether the accesses of each of the two banks are as they were made, each with its stamp.
fn have_stamps(alloc: Global) -> Option<[bool; 2]> {
    let setting = two_banks(alloc)?;
    Some([
        setting.has_marks(0, &[(1, 0, 0), (3, 0, 2)]),
        setting.has_marks(1, &[(2, 0, 1), (4, 0, 3)]),
    ])
}

#[test]
fn stamps_rise_over_two_banks(rt: HostRuntime) {
    assert_eq!(rt; have_stamps(rt.alloc()), Some([true, true]));
}

/// How many clients and banks the first report has that finds memory, of two of one setting.
fn sizes_of(alloc: Global, setting: &Setting) -> Option<(usize, usize)> {
    let (first, second) = setting.sizes(alloc).zip(setting.sizes(alloc))?;
    first.or(second)
}

/// The same of two banks.
fn sizes_of_two(alloc: Global) -> Option<(usize, usize)> {
    let setting = two_banks(alloc)?;
    sizes_of(alloc, &setting)
}

// Where one request for memory is refused, the conclusion that made it says so, and the next one is the whole report.
#[test]
fn memory_is_refused_once(rt: HostRuntime) {
    assert_eq!(rt; sizes_of_two(rt.alloc()), Some((1, 2)));
}
