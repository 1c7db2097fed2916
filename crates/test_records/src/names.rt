//! The names of refusals in a chart beside those of a bank's.

use std::alloc::{AllocError, Global};
use std::test::Fail;
use tl_bank_spec::Refusal;
use tlchart_draw::refusal_name;

const ALL: &[Refusal] = &[
    Refusal::NoPermission,
    Refusal::Waiting,
    Refusal::WrongFrom,
    Refusal::NothingThere,
    Refusal::NotHead,
    Refusal::ReleasePending,
    Refusal::NoRegister,
    Refusal::BlockBusy,
    Refusal::NotYet,
    Refusal::OutOfRange,
    Refusal::WrongBank,
    Refusal::CopiesFull,
    Refusal::LinkFull,
    Refusal::Memory,
    Refusal::ClockFull,
];

/// The first refusal that has another name in a chart.
fn first_other(alloc: Global) -> Result<Option<Refusal>, AllocError> {
    for refusal in ALL {
        let name = format!(in alloc; "{refusal:?}")?;
        if name.as_str() != refusal_name(refusal.number()) {
            return Ok(Some(*refusal));
        }
    }
    Ok(None)
}

#[test]
fn each_refusal_has_its_name(rt: HostRuntime) -> Result<(), Fail> {
    assert_eq!(rt; first_other(rt.alloc())?, None);
    Ok(())
}
