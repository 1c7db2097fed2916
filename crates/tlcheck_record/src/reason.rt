//! Why an entry is not permitted, in words.
ghost use Rattle.std.specs.Prelude.{◌≡◌, Some};
ghost use Rattle.tlcheck_record.specs.Reason.{breaks_text, bytes_text, difference_source, difference_text, param_source, place_of, place_text, reason_text, rule_place, rule_sentence, rule_source, sentence_of, source_of, source_text};

use std::fmt;
use tl_script_words::Hex;
use tl_types::{BlockBytes, DirtyPrune, GrantCap, Kind, ProbeReport};
use tlcheck_rules::{Breach, Difference, Rule};

/// Who asks for a rule: the table of RECORD.md, "Whose rule it is".
#[derive(Clone, Copy, Debug, PartialEq, Eq)]
pub enum Source {
    /// The TileLink specification, 1.8: else data is lost or a permission broken.
    TileLink,
    /// This project, where the specification leaves a choice open, and for its own format.
    Own,
    /// This project, of a clean copy that is dropped unseen; but the specification where dirty bytes are lost, or more
    /// is given up than there is or kept than asked.
    OwnOfDrops,
    /// This project, of a sole reader that is granted Branch; but the specification where Tip was asked for.
    OwnOfReaders,
}

/// The section of the documents that has a rule.
#[derive(Clone, Copy, Debug, PartialEq, Eq)]
pub enum Place {
    /// PROTOCOL.md, "Permissions".
    Permissions,
    /// PROTOCOL.md, "Rules".
    Rules,
    /// PROTOCOL.md, "Events, state and runs".
    Events,
    /// PROTOCOL.md, "Channels of all blocks, and serials".
    Channels,
    /// RECORD.md, "Verdict".
    Verdict,
}

fn rule_sentence(rule: Rule) -> &'static str
    ensures { result.now ≡ rule_sentence rule }
{
    match rule {
        Rule::BlockIsThere => "the block is one of the memory",
        Rule::ClientIsThere => "the client is one of the clients",
        Rule::AccessFits => "an access is of 1 to 8 bytes in one block",
        Rule::CopyIsReadable => "a load needs a copy at Branch or Tip",
        Rule::LoadHasItsBytes => "a load gets the bytes of its copy",
        Rule::CopyIsWritable => "a store needs a copy at Tip",
        Rule::NoAcquireUnanswered => "no Acquire is sent between an Acquire and its Grant",
        Rule::NoReleaseBesideAcquire => "no Release is sent between an Acquire and its Grant",
        Rule::StartsFromItsCopy =>
            "what is asked for or given up starts from the permission of the copy",
        Rule::ProbeWaits => "an answer to a Probe needs a Probe on B",
        Rule::NoReleaseUnanswered =>
            "no ProbeAck, Acquire or Release is sent between a Release and its ReleaseAck",
        Rule::GrantIsFirst => "a Grant is taken where one is first on D",
        Rule::ReleaseAckIsFirst => "a ReleaseAck is taken where one is first on D",
        Rule::AcquireWaits => "an Acquire is accepted where one is on A",
        Rule::ServesNoAcquire => "home serves no other Acquire of the block",
        Rule::RecordIsAbove => "a Probe asks for less than home records",
        Rule::ClientHasNoProbe => "no earlier Probe of the block is unanswered at the client",
        Rule::NoGrantIsPending => "no Grant of the block is pending",
        Rule::OneGrantIsPending => "one Grant of the block is pending at a time",
        Rule::MessageIsOnC => "home takes a message of C where one waits",
        Rule::ServesThisClient => "a Grant answers the Acquire that home serves",
        Rule::OthersLeaveRoom =>
            "beside a Grant toT every other record is None, and beside a Grant toB none is Tip",
        Rule::HomeHasTheBlock => "home has a copy of the block",
        Rule::NoProbeIsPending => "no Probe of the block is unanswered",
        Rule::NothingIsPending =>
            "home gives up only a block of which no Probe and no Grant is pending",
        Rule::GrantAckWaits => "a GrantAck is taken where one is on E",
        Rule::ServesAnAcquire => "home serves an Acquire of the block",
        Rule::HomeLacksTheBlock => "home has no copy of the block",
        Rule::NothingIsOutward => "nothing passes between home and the memory for the block",
        Rule::RequestIsOutward => "the memory answers a Get or a PutFullData that is on its way",
        Rule::DataIsOutward => "home takes data where the answer to a Get is on its way",
        Rule::PutAckIsOutward =>
            "home takes an acknowledgement where that of a PutFullData is on its way",
        Rule::CopyIsClean => "a copy that is dropped is clean",
        Rule::CopyIsDirty => "a copy that is written back is dirty",
        Rule::NobodyIsRecorded => "home gives up only a block of which nobody has a copy",
    }
}

fn rule_source(rule: Rule) -> Source
    ensures { result ≡ rule_source rule }
{
    match rule {
        Rule::BlockIsThere
        | Rule::ClientIsThere
        | Rule::AccessFits
        | Rule::NoReleaseBesideAcquire
        | Rule::ServesNoAcquire
        | Rule::RecordIsAbove
        | Rule::OneGrantIsPending
        | Rule::HomeHasTheBlock
        | Rule::ServesAnAcquire
        | Rule::HomeLacksTheBlock
        | Rule::NothingIsPending
        | Rule::NothingIsOutward
        | Rule::CopyIsDirty
        | Rule::NobodyIsRecorded => Source::Own,
        Rule::CopyIsReadable
        | Rule::LoadHasItsBytes
        | Rule::CopyIsWritable
        | Rule::NoAcquireUnanswered
        | Rule::ProbeWaits
        | Rule::NoReleaseUnanswered
        | Rule::GrantIsFirst
        | Rule::ReleaseAckIsFirst
        | Rule::AcquireWaits
        | Rule::ClientHasNoProbe
        | Rule::NoGrantIsPending
        | Rule::MessageIsOnC
        | Rule::ServesThisClient
        | Rule::OthersLeaveRoom
        | Rule::NoProbeIsPending
        | Rule::GrantAckWaits
        | Rule::RequestIsOutward
        | Rule::DataIsOutward
        | Rule::PutAckIsOutward
        | Rule::CopyIsClean => Source::TileLink,
        Rule::StartsFromItsCopy => Source::OwnOfDrops,
    }
}

/// Of a message that names another permission than this kind, which is sent.
fn param_source(sent: Kind) -> Source
    ensures { result ≡ param_source sent }
{
    match sent {
        Kind::ProbeAck(ProbeReport::NtoN)
        | Kind::ProbeAckData(DirtyPrune::TtoN)
        | Kind::ReleaseData(DirtyPrune::TtoN)
        | Kind::Grant(GrantCap::ToB)
        | Kind::GrantData(GrantCap::ToB) => Source::TileLink,
        Kind::ProbeAck(_) | Kind::ProbeAckData(_) | Kind::Release(_) | Kind::ReleaseData(_) => {
            Source::OwnOfDrops
        }
        Kind::Grant(GrantCap::ToT) | Kind::GrantData(GrantCap::ToT) => Source::OwnOfReaders,
        Kind::PutFullData
        | Kind::Get
        | Kind::AcquireBlock(_)
        | Kind::ProbeBlock(_)
        | Kind::AccessAck
        | Kind::AccessAckData
        | Kind::ReleaseAck
        | Kind::GrantAck => Source::Own,
    }
}

fn difference_source(difference: &Difference) -> Source
    ensures { result ≡ difference_source difference.now }
{
    match difference {
        Difference::OtherParam(sent) => param_source(*sent),
        Difference::DataIsMissing(_) | Difference::OtherBytes(_, _) => Source::TileLink,
        Difference::NothingIsSent | Difference::OtherMessage(_) | Difference::DataIsExtra(_) => {
            Source::Own
        }
    }
}

fn rule_place(rule: Rule) -> Place
    ensures { result ≡ rule_place rule }
{
    match rule {
        Rule::CopyIsReadable | Rule::CopyIsWritable => Place::Permissions,
        Rule::NoAcquireUnanswered
        | Rule::NoReleaseBesideAcquire
        | Rule::NoReleaseUnanswered
        | Rule::ServesNoAcquire
        | Rule::ClientHasNoProbe
        | Rule::NoGrantIsPending
        | Rule::OneGrantIsPending
        | Rule::NoProbeIsPending
        | Rule::NothingIsPending
        | Rule::CopyIsClean
        | Rule::CopyIsDirty
        | Rule::NobodyIsRecorded => Place::Rules,
        Rule::BlockIsThere
        | Rule::ClientIsThere
        | Rule::AccessFits
        | Rule::LoadHasItsBytes
        | Rule::StartsFromItsCopy
        | Rule::ProbeWaits
        | Rule::GrantIsFirst
        | Rule::ReleaseAckIsFirst
        | Rule::AcquireWaits
        | Rule::RecordIsAbove
        | Rule::MessageIsOnC
        | Rule::ServesThisClient
        | Rule::OthersLeaveRoom
        | Rule::HomeHasTheBlock
        | Rule::GrantAckWaits
        | Rule::ServesAnAcquire
        | Rule::HomeLacksTheBlock
        | Rule::NothingIsOutward
        | Rule::RequestIsOutward
        | Rule::DataIsOutward
        | Rule::PutAckIsOutward => Place::Events,
    }
}

// The bytes that an event sends, and those that are shown.
#[derive(Clone, Copy)]
struct BytesText<'a> {
    sent: &'a BlockBytes,
    shown: &'a BlockBytes,
}

impl fmt::Display for BytesText<'_> {
    ghost output = { λ x. Some (bytes_text x.sent.now x.shown.now) };

    fn fmt<W: fmt::Write>(&self, f: &mut fmt::Formatter<W>) -> fmt::Result {
        let sent = Hex(self.sent.as_slice());
        let shown = Hex(self.shown.as_slice());
        write!(f, "it sends the bytes {sent}, and {shown} are shown")
    }
}

// How what is shown differs from what an event sends.
#[derive(Clone, Copy)]
struct DifferenceText<'a>(&'a Difference);

impl fmt::Display for DifferenceText<'_> {
    ghost output = { λ x. Some (difference_text x.0.now) };

    fn fmt<W: fmt::Write>(&self, f: &mut fmt::Formatter<W>) -> fmt::Result {
        match self.0 {
            Difference::NothingIsSent => f.write_str("it sends no message"),
            Difference::OtherMessage(kind) => write!(f, "it sends another message, {kind}"),
            Difference::OtherParam(kind) => write!(f, "it sends another parameter, {kind}"),
            Difference::DataIsMissing(kind) => write!(f, "it sends {kind}, whose data is missing"),
            Difference::DataIsExtra(kind) => write!(f, "it sends {kind}, which has no data"),
            Difference::OtherBytes(sent, shown) => write!(f, "{}", BytesText { sent, shown }),
        }
    }
}

// What an entry does not keep, in one sentence.
#[derive(Clone, Copy)]
struct Sentence<'a>(&'a Breach);

impl fmt::Display for Sentence<'_> {
    ghost output = { λ x. Some (sentence_of x.0.now) };

    fn fmt<W: fmt::Write>(&self, f: &mut fmt::Formatter<W>) -> fmt::Result {
        match self.0 {
            Breach::NotPermitted(rule) => f.write_str(rule_sentence(*rule)),
            Breach::OutOfOrder => {
                f.write_str("a message is taken where it is the first of its channel")
            }
            Breach::NotAsShown(difference) => write!(
                f,
                "what is shown is what the event sends: {}",
                DifferenceText(difference)
            ),
        }
    }
}

/// What an entry breaks. It prints as a sentence, who asks for it, and where it stands.
#[derive(Clone, Copy, Debug)]
pub struct Reason<'a>(pub &'a Breach);

impl Reason<'_> {
    /// Who asks for it: TileLink, or this project.
    pub fn source(self) -> Source
        ensures { result ≡ source_of self.entry.0.now }
    {
        match self.0 {
            Breach::NotPermitted(rule) => rule_source(*rule),
            Breach::OutOfOrder => Source::Own,
            Breach::NotAsShown(difference) => difference_source(difference),
        }
    }

    /// Where it is written.
    pub fn place(self) -> Place
        ensures { result ≡ place_of self.entry.0.now }
    {
        match self.0 {
            Breach::NotPermitted(rule) => rule_place(*rule),
            Breach::OutOfOrder => Place::Channels,
            Breach::NotAsShown(_) => Place::Verdict,
        }
    }
}

/// What an entry breaks, in few words: what is shown otherwise, who asks for it and where it stands is left out.
#[derive(Clone, Copy, Debug)]
pub struct Breaks<'a>(pub &'a Breach);

impl fmt::Display for Breaks<'_> {
    ghost output = { λ x. Some (breaks_text x.0.now) };

    fn fmt<W: fmt::Write>(&self, f: &mut fmt::Formatter<W>) -> fmt::Result {
        match self.0 {
            Breach::NotPermitted(rule) => write!(f, "breaks: {}", rule_sentence(*rule)),
            Breach::OutOfOrder => {
                f.write_str("breaks: a message is taken where it is the first of its channel")
            }
            Breach::NotAsShown(_) => {
                f.write_str("breaks: what is shown is what the event sends")
            }
        }
    }
}

impl fmt::Display for Source {
    ghost output = { λ x. Some (source_text x) };

    fn fmt<W: fmt::Write>(&self, f: &mut fmt::Formatter<W>) -> fmt::Result {
        match self {
            Source::TileLink => f.write_str("TileLink 1.8"),
            Source::Own => f.write_str("this project's profile"),
            Source::OwnOfDrops => f.write_str(
                "this project's profile; TileLink 1.8 where dirty bytes are lost, \
                 or more is given up than there is or kept than asked",
            ),
            Source::OwnOfReaders => {
                f.write_str("this project's profile; TileLink 1.8 where Tip was asked for")
            }
        }
    }
}

impl fmt::Display for Place {
    ghost output = { λ x. Some (place_text x) };

    fn fmt<W: fmt::Write>(&self, f: &mut fmt::Formatter<W>) -> fmt::Result {
        match self {
            Place::Permissions => f.write_str("docs/PROTOCOL.md, Permissions"),
            Place::Rules => f.write_str("docs/PROTOCOL.md, Rules"),
            Place::Events => f.write_str("docs/PROTOCOL.md, Events, state and runs"),
            Place::Channels => f.write_str("docs/PROTOCOL.md, Channels of all blocks, and serials"),
            Place::Verdict => f.write_str("docs/RECORD.md, Verdict"),
        }
    }
}

impl fmt::Display for Reason<'_> {
    ghost output = { λ x. Some (reason_text x.0.now) };

    fn fmt<W: fmt::Write>(&self, f: &mut fmt::Formatter<W>) -> fmt::Result {
        write!(
            f,
            "{} ({}), {}",
            Sentence(self.0),
            self.source(),
            self.place()
        )
    }
}
