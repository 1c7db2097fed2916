//! A judge beside a bench: entries in numbers, and a verdict at once.
use std::alloc::Global;
use tl_types::BLOCK_BYTES;
use tlcheck_embed::{BenchEntry, JudgeNumbers, JudgeRoom, Verdict, opened, see};

/// An entry with nothing shown.
fn entry(event: u32, client: u32, place: u32, param: u32) -> BenchEntry {
    BenchEntry {
        event,
        client,
        place,
        param,
        shown: 0,
        channel: 0,
        opcode: 0,
        shown_param: 0,
        len: 0,
        bytes: [0; BLOCK_BYTES],
    }
}

/// A Grant of block 1 to client 0 that shows a message with these numbers and eight bytes of 0.
fn grant(channel: u32, opcode: u32, param: u32) -> BenchEntry {
    BenchEntry {
        shown: 1,
        channel,
        opcode,
        shown_param: param,
        len: 8,
        ..entry(10, 0, 1, 0)
    }
}

/// Two clients and two blocks of eight bytes, at reset; closed where a number is another.
fn judge(alloc: Global, clients: u32, image: &[u8]) -> JudgeRoom {
    let numbers = JudgeNumbers {
        clients,
        block_bytes: 8,
        memory_blocks: 2,
        order: 0,
    };
    opened(alloc, &numbers, image)
}

/// What is told of an entry: the status, the rule, the client's permission and whether home has the block.
fn told(verdict: &Verdict) -> (u32, u32, u32, u32) {
    (
        verdict.status,
        verdict.rule,
        verdict.perm,
        verdict.is_at_home,
    )
}

/// Home gets block 1 for client 0, which is yet to be granted; what the last of these entries is told.
fn fetched(room: &mut JudgeRoom) -> (u32, u32, u32, u32) {
    see(room, &entry(2, 0, 1, 1));
    see(room, &entry(7, 0, 1, 0));
    see(room, &entry(12, 0, 1, 0));
    see(room, &entry(13, 0, 1, 0));
    told(&see(room, &entry(14, 0, 1, 0)))
}

#[test]
fn a_lawful_record_is_told_with_its_state(rt: HostRuntime) {
    let mut room = judge(rt.alloc(), 2, &[7]);
    let first = fetched(&mut room);
    let granted = told(&see(&mut room, &grant(3, 5, 0)));
    let taken = told(&see(&mut room, &entry(5, 0, 1, 0)));
    let ended = told(&see(&mut room, &entry(11, 0, 1, 0)));
    assert_eq!(rt;
        (first, granted, taken, ended),
        ((0, 0, 0, 1), (0, 0, 0, 1), (0, 0, 2, 1), (0, 0, 2, 1))
    );
}

#[test]
fn a_fault_is_told_again(rt: HostRuntime) {
    let mut room = judge(rt.alloc(), 2, &[]);
    fetched(&mut room);
    let other = see(&mut room, &grant(3, 5, 1));
    let again = see(&mut room, &entry(99, 0, 0, 0));
    assert_eq!(rt;
        (told(&other), other.opcode, other.param),
        ((31, 39, 0, 1), 5, 0)
    );
    assert_eq!(rt;
        (told(&again), again.opcode, again.param),
        ((31, 39, 0, 1), 5, 0)
    );
}

#[test]
fn what_is_no_entry_changes_nothing(rt: HostRuntime) {
    let mut room = judge(rt.alloc(), 2, &[]);
    let none = told(&see(&mut room, &entry(18, 0, 0, 0)));
    let param = told(&see(&mut room, &entry(2, 0, 1, 3)));
    let on_the_memory = told(&see(&mut room, &grant(0, 4, 0)));
    let first = fetched(&mut room);
    assert_eq!(rt;
        (none, param, on_the_memory, first),
        ((17, 0, 0, 0), (17, 0, 0, 0), (17, 0, 0, 0), (0, 0, 0, 1))
    );
}

#[test]
fn a_closed_judge_says_why(rt: HostRuntime) {
    let mut of_none = judge(rt.alloc(), 0, &[]);
    let mut over_a_long_image = judge(rt.alloc(), 2, &[0; 17]);
    let mut shut = judge(rt.alloc(), 2, &[]);
    let shuts = told(&see(&mut shut, &entry(255, 0, 0, 0)));
    let numbers = see(&mut of_none, &entry(4, 0, 0, 0)).why;
    let image = see(&mut over_a_long_image, &entry(4, 0, 0, 0)).why;
    let by_its_caller = see(&mut shut, &entry(4, 0, 0, 0));
    assert_eq!(rt; (shuts, numbers, image), ((0, 0, 0, 0), 20, 10));
    assert_eq!(rt; (by_its_caller.status, by_its_caller.why), (18, 18));
}
