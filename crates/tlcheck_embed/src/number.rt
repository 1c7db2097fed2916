//! The numbers of rules, differences and permissions.
ghost use Rattle.std.specs.Prelude.{◌≡◌};
ghost use Rattle.tlcheck_embed.specs.Told.{difference_number, perm_number, rule_number};

use tl_types::Perm;
use tlcheck_rules::{Difference, Rule};

/// The number of a rule.
pub(crate) fn rule_number(rule: Rule) -> u32
    ensures { result ≡ rule_number rule }
{
    match rule {
        Rule::BlockIsThere => 1,
        Rule::ClientIsThere => 2,
        Rule::AccessFits => 3,
        Rule::CopyIsReadable => 4,
        Rule::LoadHasItsBytes => 5,
        Rule::CopyIsWritable => 6,
        Rule::NoAcquireUnanswered => 7,
        Rule::NoReleaseBesideAcquire => 8,
        Rule::StartsFromItsCopy => 9,
        Rule::ProbeWaits => 10,
        Rule::NoReleaseUnanswered => 11,
        Rule::GrantIsFirst => 12,
        Rule::ReleaseAckIsFirst => 13,
        Rule::AcquireWaits => 14,
        Rule::ServesNoAcquire => 15,
        Rule::RecordIsAbove => 16,
        Rule::ClientHasNoProbe => 17,
        Rule::NoGrantIsPending => 18,
        Rule::OneGrantIsPending => 19,
        Rule::MessageIsOnC => 20,
        Rule::ServesThisClient => 21,
        Rule::OthersLeaveRoom => 22,
        Rule::HomeHasTheBlock => 23,
        Rule::NoProbeIsPending => 24,
        Rule::NothingIsPending => 25,
        Rule::GrantAckWaits => 26,
        Rule::ServesAnAcquire => 27,
        Rule::HomeLacksTheBlock => 28,
        Rule::NothingIsOutward => 29,
        Rule::RequestIsOutward => 30,
        Rule::DataIsOutward => 31,
        Rule::PutAckIsOutward => 32,
        Rule::CopyIsClean => 33,
        Rule::CopyIsDirty => 34,
        Rule::NobodyIsRecorded => 35,
    }
}

/// The number of a way to differ.
pub(crate) fn difference_number(difference: &Difference) -> u32
    ensures { result ≡ difference_number difference.now }
{
    match difference {
        Difference::NothingIsSent => 37,
        Difference::OtherMessage(_) => 38,
        Difference::OtherParam(_) => 39,
        Difference::DataIsMissing(_) => 40,
        Difference::DataIsExtra(_) => 41,
        Difference::OtherBytes(_, _) => 42,
    }
}

/// The number of a permission.
pub fn perm_number(perm: Perm) -> u32
    ensures { result ≡ perm_number perm }
{
    match perm {
        Perm::None => 0,
        Perm::Branch => 1,
        Perm::Tip => 2,
    }
}
