//! The words of a message that was seen to be sent.
ghost use Rattle.std.specs.Prelude.{◌≡◌};
ghost use Rattle.tl_script_words.specs.Words.{texts};
ghost use Rattle.tlcheck_record.specs.Cause.{Gives};
ghost use Rattle.tlcheck_record.specs.Shown.{bare_kind, data_kind, dirty_of, grant_cap_of, plain_kind, probe_cap_of, report_of, shown_of};

use crate::cause::{Cause, LineError};
use crate::words::{read_block_bytes, read_grow, read_prune};
use tl_types::{DirtyPrune, GrantCap, Kind, ProbeCap, ProbeReport};
use tlcheck_rules::Shown;

/// What a Probe asks for.
#[tactic(auto, unfolding(crate::specs::Shown::probe_cap_of))]
pub(crate) fn parse_probe_cap(text: &str) -> Result<ProbeCap, Cause>
    ensures { result ≡ probe_cap_of text.now }
{
    match text {
        "toB" => Ok(ProbeCap::ToB),
        "toN" => Ok(ProbeCap::ToN),
        _ => Err(Cause::Param),
    }
}

#[tactic(auto, unfolding(crate::specs::Shown::grant_cap_of))]
fn parse_grant_cap(text: &str) -> Result<GrantCap, Cause>
    ensures { result ≡ grant_cap_of text.now }
{
    match text {
        "toT" => Ok(GrantCap::ToT),
        "toB" => Ok(GrantCap::ToB),
        _ => Err(Cause::Param),
    }
}

#[tactic(auto, unfolding(crate::specs::Shown::dirty_of))]
fn parse_dirty(text: &str) -> Result<DirtyPrune, Cause>
    ensures { result ≡ dirty_of text.now }
{
    match text {
        "TtoB" => Ok(DirtyPrune::TtoB),
        "TtoN" => Ok(DirtyPrune::TtoN),
        _ => Err(Cause::Param),
    }
}

#[tactic(auto, unfolding(crate::specs::Shown::report_of))]
fn parse_report(text: &str) -> Result<ProbeReport, Cause>
    ensures { result ≡ report_of text.now }
{
    match text {
        "TtoB" => Ok(ProbeReport::TtoB),
        "TtoN" => Ok(ProbeReport::TtoN),
        "BtoB" => Ok(ProbeReport::BtoB),
        "BtoN" => Ok(ProbeReport::BtoN),
        "NtoN" => Ok(ProbeReport::NtoN),
        _ => Err(Cause::Param),
    }
}

#[tactic(auto, unfolding(crate::specs::Shown::bare_kind))]
fn bare_kind(name: &str) -> Result<Kind, Cause>
    ensures { result ≡ bare_kind name.now }
{
    match name {
        "ReleaseAck" => Ok(Kind::ReleaseAck),
        "GrantAck" => Ok(Kind::GrantAck),
        _ => Err(Cause::Shown),
    }
}

#[tactic(auto, unfolding(crate::specs::Shown::plain_kind))]
fn plain_kind(name: &str, param: &str) -> Result<Kind, LineError>
    ensures { Gives (λ x. x) result (plain_kind name.now param.now) }
{
    match name {
        "AcquireBlock" => Ok(Kind::AcquireBlock(read_grow(param)?)),
        "ProbeBlock" => Ok(Kind::ProbeBlock(parse_probe_cap(param)?)),
        "ProbeAck" => Ok(Kind::ProbeAck(parse_report(param)?)),
        "Release" => Ok(Kind::Release(read_prune(param)?)),
        "Grant" => Ok(Kind::Grant(parse_grant_cap(param)?)),
        _ => Err(LineError::Wrong(Cause::Shown)),
    }
}

#[tactic(auto, unfolding(crate::specs::Shown::data_kind))]
fn data_kind(name: &str, param: &str) -> Result<Kind, Cause>
    ensures { result ≡ data_kind name.now param.now }
{
    match name {
        "ProbeAckData" => Ok(Kind::ProbeAckData(parse_dirty(param)?)),
        "ReleaseData" => Ok(Kind::ReleaseData(parse_dirty(param)?)),
        "GrantData" => Ok(Kind::GrantData(parse_grant_cap(param)?)),
        _ => Err(Cause::Shown),
    }
}

/// What the rest of a line shows: nothing, or a message.
#[tactic(auto, unfolding(crate::specs::Shown::shown_of))]
pub(crate) fn parse_shown(words: &[&str]) -> Result<Option<Shown>, LineError>
    ensures { Gives (λ x. x) result (shown_of (texts words.now)) }
{
    match words {
        [] => Ok(None),
        [name] => Ok(Some(Shown {
            kind: bare_kind(name)?,
            bytes: None,
        })),
        [name, param] => Ok(Some(Shown {
            kind: plain_kind(name, param)?,
            bytes: None,
        })),
        [name, param, rest @ ..] => match rest {
            [bytes] => {
                let kind = data_kind(name, param)?;
                Ok(Some(Shown {
                    kind,
                    bytes: Some(read_block_bytes(bytes)?),
                }))
            }
            _ => Err(LineError::Wrong(Cause::MoreWords)),
        },
    }
}
