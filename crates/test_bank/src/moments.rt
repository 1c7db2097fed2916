//! What a bank shows amid a race: who may write, what each client holds and home records, and that something is under
//! way. Expected answers are worked out from the rules.
use crate::steps::{Call, Did, Step, first_in_tables};
use std::alloc::Global;
use std::test::Fail;
use tl_bank::Refusal;
use tl_map::GeometryNumbers;
use tl_types::{Channel, Grow, Perm, Prune};

/// Two clients with two copies each, one bank and four blocks of eight bytes.
const NUMBERS: GeometryNumbers = GeometryNumbers {
    version: 1,
    clients: 2,
    banks: 1,
    block_bytes: 8,
    sets: 1,
    ways: 2,
    registers: 2,
    copies: 2,
    memory_blocks: 4,
};

/// Client 0 has written block 0, all that it asked for is done.
const WRITTEN: &[Step] = &[
    Step::Call(
        Call::Acquire(0, 0, Grow::NtoT),
        Ok(Some((0, 0, Channel::A, 0))),
    ),
    Step::Call(Call::Take((0, 0, Channel::A, 0)), Ok(None)),
    Step::Advance(0, Ok(Did::Get)),
    Step::Call(Call::ServeMemory(0), Ok(None)),
    Step::Call(Call::TakeMemory(0), Ok(None)),
    Step::Advance(0, Ok(Did::Grant((0, 0, Channel::D, 0)))),
    Step::Call(
        Call::Take((0, 0, Channel::D, 0)),
        Ok(Some((0, 0, Channel::E, 0))),
    ),
    Step::Call(Call::Take((0, 0, Channel::E, 0)), Ok(None)),
    Step::Call(Call::Store(0, 0, &[0xaa]), Ok(None)),
    Step::Writer(0, Some(0)),
    Step::Peek(0, 0, Some(0xaa)),
    Step::Peek(1, 0, None),
    Step::Copies(1, 1),
    Step::IsQuiet(true),
];

/// Then client 1 asks to read: its Grant is under way.
const READ_BY_ANOTHER: &[Step] = &[
    Step::Call(
        Call::Acquire(1, 0, Grow::NtoB),
        Ok(Some((0, 1, Channel::A, 0))),
    ),
    Step::Call(Call::Take((0, 1, Channel::A, 0)), Ok(None)),
    Step::Advance(0, Ok(Did::Probe((0, 0, Channel::B, 0)))),
    Step::Call(
        Call::Take((0, 0, Channel::B, 0)),
        Ok(Some((0, 0, Channel::C, 0))),
    ),
    Step::Call(Call::Take((0, 0, Channel::C, 0)), Ok(None)),
    Step::Advance(0, Ok(Did::Grant((0, 1, Channel::D, 0)))),
    Step::Directory(1, 0, Perm::Branch),
    Step::Perm(1, 0, Perm::None),
    Step::Writer(0, None),
    Step::Peek(0, 0, Some(0xaa)),
    Step::Copies(1, 2),
    Step::IsQuiet(false),
];

/// Instead a Release crosses the Probe of an Acquire by client 1: nobody has a copy, and home records one until it
/// takes the Release.
const RELEASE_CROSSES: &[Step] = &[
    Step::Call(
        Call::Acquire(1, 0, Grow::NtoT),
        Ok(Some((0, 1, Channel::A, 0))),
    ),
    Step::Call(Call::Take((0, 1, Channel::A, 0)), Ok(None)),
    Step::Call(
        Call::Release(0, 0, Prune::TtoN, 0),
        Ok(Some((0, 0, Channel::C, 0))),
    ),
    Step::Copies(0, 1),
    Step::Writer(0, None),
    Step::Peek(0, 0, None),
    Step::Advance(0, Ok(Did::Probe((0, 0, Channel::B, 0)))),
    Step::Call(
        Call::Take((0, 0, Channel::B, 0)),
        Err(Refusal::ReleasePending),
    ),
    Step::Call(
        Call::Take((0, 0, Channel::C, 0)),
        Ok(Some((0, 0, Channel::D, 1))),
    ),
    Step::Directory(0, 0, Perm::None),
    Step::Copies(0, 0),
    Step::IsQuiet(false),
];

/// The place of the first step that does not go after client 0 has written, if there is one: in which table, and where.
fn first_after_it_was_written(
    alloc: Global,
    steps: &[Step],
) -> Result<Option<(usize, usize)>, Fail> {
    first_in_tables(alloc, NUMBERS, &[WRITTEN, steps])
}

#[test]
fn a_reader_beside_the_last_writer(rt: HostRuntime) -> Result<(), Fail> {
    let failed = first_after_it_was_written(rt.alloc(), READ_BY_ANOTHER)?;
    assert_eq!(rt; failed, None);
    Ok(())
}

#[test]
fn a_release_that_crosses_a_probe(rt: HostRuntime) -> Result<(), Fail> {
    let failed = first_after_it_was_written(rt.alloc(), RELEASE_CROSSES)?;
    assert_eq!(rt; failed, None);
    Ok(())
}
