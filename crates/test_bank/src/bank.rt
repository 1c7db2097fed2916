//! What no clause says: that a bank is made with ample memory and answers a small script as the rules say, and that
//! each refusal comes that the calls of clients alone can reach. Expected answers are worked out from the rules.
use crate::steps::{Call, Step, first_that_fails};
use std::test::Fail;
use tl_bank::Refusal;
use tl_map::GeometryNumbers;
use tl_types::{Awaited, Channel, Grow, Perm, Prune};

/// Two clients with two copies each, one bank and four blocks of eight bytes.
const NUMBERS: GeometryNumbers = GeometryNumbers {
    version: 1,
    clients: 2,
    banks: 1,
    block_bytes: 8,
    sets: 1,
    ways: 2,
    registers: 2,
    copies: 2,
    memory_blocks: 4,
};

/// The shares of two clients that have no copy of bank 0.
const UNUSED: Step = Step::Shares(&[(0, 0, 0), (1, 0, 0)]);

/// What a new bank shows.
const STARTS: &[Step] = &[
    Step::Events(0),
    Step::Image(&[1, 2, 3]),
    Step::Perm(1, 3, Perm::None),
    Step::CopiesOf(0, Some(0)),
    Step::CopiesOf(2, None),
    UNUSED,
];

#[test]
fn a_bank_starts_with_nothing(rt: HostRuntime) -> Result<(), Fail> {
    let failed = first_that_fails(rt.alloc(), NUMBERS, 0, &[1, 2, 3], STARTS)?;
    assert_eq!(rt; failed, None);
    Ok(())
}

/// Acquires that are refused, and three that are sent.
const ACQUIRES: &[Step] = &[
    Step::Room(2),
    Step::Call(Call::Acquire(2, 0, Grow::NtoB), Err(Refusal::OutOfRange)),
    Step::Call(Call::Acquire(0, 4, Grow::NtoB), Err(Refusal::OutOfRange)),
    Step::Call(Call::Acquire(0, 0, Grow::BtoT), Err(Refusal::WrongFrom)),
    Step::Call(
        Call::Acquire(0, 0, Grow::NtoT),
        Ok(Some((0, 0, Channel::A, 0))),
    ),
    Step::Call(Call::Acquire(0, 0, Grow::NtoT), Err(Refusal::Waiting)),
    Step::Call(
        Call::Acquire(0, 1, Grow::NtoB),
        Ok(Some((0, 0, Channel::A, 1))),
    ),
    Step::Call(Call::Acquire(0, 2, Grow::NtoB), Err(Refusal::CopiesFull)),
    Step::Call(
        Call::Acquire(1, 2, Grow::NtoB),
        Ok(Some((0, 1, Channel::A, 0))),
    ),
    Step::Events(3),
    Step::Perm(0, 0, Perm::None),
];

#[test]
fn acquires_are_asked_once_and_fill_the_table(rt: HostRuntime) -> Result<(), Fail> {
    let failed = first_that_fails(rt.alloc(), NUMBERS, 0, &[], ACQUIRES)?;
    assert_eq!(rt; failed, None);
    Ok(())
}

/// Accesses that are refused.
const ACCESSES: &[Step] = &[
    Step::Call(Call::Load(0, 0, 1), Err(Refusal::NoPermission)),
    Step::Call(Call::Load(0, 24, 8), Err(Refusal::NoPermission)),
    Step::Call(Call::Load(2, 0, 1), Err(Refusal::OutOfRange)),
    Step::Call(Call::Load(0, 0, 0), Err(Refusal::OutOfRange)),
    Step::Call(Call::Load(0, 0, 9), Err(Refusal::OutOfRange)),
    Step::Call(Call::Load(0, 7, 2), Err(Refusal::OutOfRange)),
    Step::Call(Call::Load(0, 32, 1), Err(Refusal::OutOfRange)),
    Step::Call(Call::Store(0, 0, &[1]), Err(Refusal::NoPermission)),
    Step::Call(Call::Store(0, 0, &[]), Err(Refusal::OutOfRange)),
    Step::Events(0),
];

#[test]
fn accesses_without_a_copy_are_refused(rt: HostRuntime) -> Result<(), Fail> {
    let failed = first_that_fails(rt.alloc(), NUMBERS, 0, &[9], ACCESSES)?;
    assert_eq!(rt; failed, None);
    Ok(())
}

/// Blocks and tickets of bank 1 and of another. With two banks the bank of a block is the exclusive or of its bits:
/// blocks 1 and 2 are of bank 1.
const OF_TWO_BANKS: &[Step] = &[
    Step::Call(Call::Acquire(0, 0, Grow::NtoB), Err(Refusal::WrongBank)),
    Step::Call(
        Call::Acquire(0, 1, Grow::NtoB),
        Ok(Some((1, 0, Channel::A, 0))),
    ),
    Step::Call(
        Call::Acquire(0, 2, Grow::NtoB),
        Ok(Some((1, 0, Channel::A, 1))),
    ),
    Step::Call(Call::Acquire(0, 3, Grow::NtoB), Err(Refusal::WrongBank)),
    Step::Call(Call::Load(0, 0, 1), Err(Refusal::WrongBank)),
    Step::Call(
        Call::TakeReleaseAck((0, 0, Channel::D, 0)),
        Err(Refusal::WrongBank),
    ),
];

#[test]
fn another_bank_refuses_blocks_and_tickets(rt: HostRuntime) -> Result<(), Fail> {
    let two_banks = GeometryNumbers {
        banks: 2,
        ..NUMBERS
    };
    let failed = first_that_fails(rt.alloc(), two_banks, 1, &[], OF_TWO_BANKS)?;
    assert_eq!(rt; failed, None);
    Ok(())
}

/// Tickets that are refused, each for the first thing that is wrong with it.
const TICKETS: &[Step] = &[
    Step::Call(
        Call::TakeReleaseAck((0, 2, Channel::D, 0)),
        Err(Refusal::OutOfRange),
    ),
    Step::Call(
        Call::TakeReleaseAck((1, 0, Channel::D, 0)),
        Err(Refusal::WrongBank),
    ),
    Step::Call(
        Call::TakeReleaseAck((0, 0, Channel::A, 0)),
        Err(Refusal::NotHead),
    ),
    Step::Call(
        Call::TakeReleaseAck((0, 0, Channel::D, 0)),
        Err(Refusal::NothingThere),
    ),
    Step::Call(
        Call::AnswerProbe((0, 1, Channel::B, 0), 0),
        Err(Refusal::OutOfRange),
    ),
    Step::Call(
        Call::AnswerProbe((1, 0, Channel::B, 0), 0),
        Err(Refusal::WrongBank),
    ),
    Step::Call(
        Call::AnswerProbe((0, 0, Channel::D, 0), 0),
        Err(Refusal::NotHead),
    ),
    Step::Call(
        Call::AnswerProbe((0, 0, Channel::B, 0), 0),
        Err(Refusal::NothingThere),
    ),
    UNUSED,
    Step::Events(0),
];

#[test]
fn tickets_are_looked_at_in_order(rt: HostRuntime) -> Result<(), Fail> {
    let failed = first_that_fails(rt.alloc(), NUMBERS, 0, &[], TICKETS)?;
    assert_eq!(rt; failed, None);
    Ok(())
}

/// Shares that are refused, and one that is not.
const SHARES: &[Step] = &[
    Step::Call(
        Call::TakeGrant((0, 0, Channel::D, 0), 0),
        Err(Refusal::NothingThere),
    ),
    Step::Call(
        Call::TakeGrant((0, 0, Channel::D, 0), 1),
        Err(Refusal::OutOfRange),
    ),
    Step::Call(
        Call::Release(0, 0, Prune::TtoN, 1),
        Err(Refusal::OutOfRange),
    ),
    Step::Call(Call::Release(0, 0, Prune::TtoN, 0), Err(Refusal::WrongFrom)),
    Step::Call(
        Call::Acquire(0, 0, Grow::NtoB),
        Ok(Some((0, 0, Channel::A, 0))),
    ),
    Step::Call(Call::Release(0, 0, Prune::BtoN, 0), Err(Refusal::Waiting)),
    UNUSED,
    Step::Events(1),
];

#[test]
fn shares_are_looked_at_in_order(rt: HostRuntime) -> Result<(), Fail> {
    let failed = first_that_fails(rt.alloc(), NUMBERS, 0, &[], SHARES)?;
    assert_eq!(rt; failed, None);
    Ok(())
}

/// A share that is not there is refused.
const NO_SHARE: &[Step] = &[
    Step::Forget(0),
    Step::Call(
        Call::TakeGrant((0, 0, Channel::D, 0), 0),
        Err(Refusal::OutOfRange),
    ),
    Step::Call(
        Call::Release(0, 0, Prune::TtoN, 0),
        Err(Refusal::OutOfRange),
    ),
];

#[test]
fn a_default_share_is_refused(rt: HostRuntime) -> Result<(), Fail> {
    let failed = first_that_fails(rt.alloc(), NUMBERS, 0, &[], NO_SHARE)?;
    assert_eq!(rt; failed, None);
    Ok(())
}

/// What was forgotten is counted, and its room is free; the bank goes on where it was.
const FORGETS: &[Step] = &[
    Step::Fetch(0, 0, Grow::NtoT),
    Step::Call(Call::Store(0, 0, &[7]), Ok(None)),
    Step::Events(9),
    Step::ForgetLog,
    Step::Events(9),
    Step::Kept(0),
    Step::Perm(0, 0, Perm::Tip),
    Step::Call(Call::Load(0, 0, 1), Ok(None)),
    Step::Events(10),
    Step::Kept(1),
    Step::ForgetLog,
    Step::ForgetLog,
    Step::GiveUp(0, 0),
    Step::Kept(3),
    Step::Perm(0, 0, Perm::None),
];

#[test]
fn a_bank_goes_on_after_it_forgot(rt: HostRuntime) -> Result<(), Fail> {
    let failed = first_that_fails(rt.alloc(), NUMBERS, 0, &[], FORGETS)?;
    assert_eq!(rt; failed, None);
    Ok(())
}

/// What the bank shows of a copy that comes, is written and goes, and of one that is asked for.
const COPIES: &[Step] = &[
    Step::Copy(0, 0, Some((Perm::None, None, false))),
    Step::WaitsFor(0, 0, Some(Awaited::Nothing)),
    Step::Copy(2, 0, None),
    Step::Copy(0, 4, None),
    Step::WaitsFor(2, 0, None),
    Step::WaitsFor(0, 4, None),
    Step::Fetch(0, 0, Grow::NtoT),
    Step::Copy(0, 0, Some((Perm::Tip, Some(5), false))),
    Step::Call(Call::Store(0, 0, &[7]), Ok(None)),
    Step::Copy(0, 0, Some((Perm::Tip, Some(7), true))),
    Step::Ask(0, 1),
    Step::WaitsFor(0, 1, Some(Awaited::ForGrant)),
    Step::Call(
        Call::Release(0, 0, Prune::TtoB, 0),
        Ok(Some((0, 0, Channel::C, 0))),
    ),
    Step::Copy(0, 0, Some((Perm::Branch, Some(7), false))),
    Step::WaitsFor(0, 0, Some(Awaited::ForReleaseAck)),
];

#[test]
fn a_bank_shows_copies_and_what_is_waited_for(rt: HostRuntime) -> Result<(), Fail> {
    let failed = first_that_fails(rt.alloc(), NUMBERS, 0, &[5], COPIES)?;
    assert_eq!(rt; failed, None);
    Ok(())
}
