//! Why a line of a record cannot be read, of either format.
ghost use Rattle.std.specs.Prelude.{◌≡◌, Some};
ghost use Rattle.tlcheck_record.specs.declared.cause.LineError.TheVariants as its;
ghost use Rattle.tlcheck_record.specs.Cause.{head, is_outside, named, of_text, sentence};

use crate::message_name::MessageName;
use std::alloc::{AllocError, AllocFailed};
use std::fmt;
use tl_script_words::ParseError;

/// Why a line cannot be read. It prints as its sentence.
#[derive(Clone, Copy, Debug, PartialEq, Eq)]
pub enum Cause {
    LineEnd,
    Mark,
    Text,
    Geometry,
    Order,
    Title,
    Shape,
    Range,
    NoImage,
    LongImage,
    Sources,
    Premise,
    Unwatched,
    Words,
    MoreWords,
    Verb,
    Param,
    Shown,
    Number,
    Link,
    Channel,
    Key,
    Twice,
    Bytes,
    Client,
    Backwards,
    Code,
    /// TileLink has this message with this parameter, and this project has not.
    Profile(MessageName, u32),
    /// This message is none of the line's link.
    OffLink(MessageName),
    Extra,
    Missing,
    Size,
    Denied,
    Corrupt,
    Mask,
    Unaligned,
    Outside,
    Data,
    Source,
    SourceInUse,
    NoRequest,
    SinkInUse,
    NoGrant,
    Access,
}

impl Cause {
    /// Whether the line is TileLink's and lies outside this project's profile.
    pub fn is_outside(self) -> bool
        ensures { result ≡ is_outside self }
    {
        matches!(
            self,
            Cause::Profile(_, _)
                | Cause::OffLink(_)
                | Cause::Size
                | Cause::Denied
                | Cause::Corrupt
                | Cause::Mask
        )
    }
}

fn head(cause: &Cause) -> &'static str
    ensures { result.now ≡ head cause.now }
{
    match cause {
        Cause::LineEnd => "the line ends with CR LF, not with a line feed alone",
        Cause::Mark => "the line begins with a byte order mark",
        Cause::Text => "the line is not UTF-8",
        Cause::Geometry => "the first line is not `clients N block_bytes N memory_blocks N`",
        Cause::Order => "the order is not `each_block`",
        Cause::Title => "the first line is not `jvwire 1`",
        Cause::Shape => "the line is no shape",
        Cause::Range => "a number of the shape is out of range",
        Cause::NoImage => "the image has no bytes",
        Cause::LongImage => "the image is longer than the memory",
        Cause::Sources => "the line gives no client its sources",
        Cause::Premise => "the line says nothing that is known of how the record was seen",
        Cause::Unwatched => "the header says that nobody watched there",
        Cause::Words => "the line has too few words",
        Cause::MoreWords => "the line has too many words, or two spaces in a row",
        Cause::Verb => "the first word is no event",
        Cause::Param => "the parameter is none of the message",
        Cause::Shown => "what is shown is no message of a client's link",
        Cause::Number => "a number or an address is not written as one",
        Cause::Link => "the link is none of `m`, `c0`, `c1` and so on",
        Cause::Channel => "the third word is no channel, no `load` and no `store`",
        Cause::Key => "a field has no key that is known",
        Cause::Twice => "a field stands twice",
        Cause::Bytes => "the bytes are not written as bytes, or are too many",
        Cause::Client => "there is no such client",
        Cause::Backwards => "the cycle is before that of an earlier line",
        Cause::Code => "no message of TileLink has these codes",
        Cause::Profile(_, _) => "the message is outside the profile: ",
        Cause::OffLink(_) => "the message is outside the profile of this link: ",
        Cause::Extra => "a field is not one of the channel",
        Cause::Missing => "a field is missing",
        Cause::Size => "the message is not of one block, and so outside the profile",
        Cause::Denied => "the message is denied, and so outside the profile",
        Cause::Corrupt => "the message is corrupt, and so outside the profile",
        Cause::Mask => "the message has a mask, and so is outside the profile",
        Cause::Unaligned => "the address is not that of a block",
        Cause::Outside => "the address is outside the memory",
        Cause::Data => "the message has other than its number of bytes",
        Cause::Source => "the source is not one of the client's",
        Cause::SourceInUse => "an earlier request with this source is not answered",
        Cause::NoRequest => "no request with this source is open",
        Cause::SinkInUse => "an earlier Grant with this sink is not acknowledged",
        Cause::NoGrant => "no Grant with this sink is open",
        Cause::Access => "an access is of 1 to 8 bytes in one block",
    }
}

// The message that a cause names, where it names one.
#[derive(Clone, Copy)]
struct Named<'a>(&'a Cause);

impl fmt::Display for Named<'_> {
    ghost output = { λ x. Some (named x.0.now) };

    fn fmt<W: fmt::Write>(&self, f: &mut fmt::Formatter<W>) -> fmt::Result {
        match self.0 {
            Cause::Profile(name, param) => write!(f, "{name} with param={param}"),
            Cause::OffLink(name) => write!(f, "{name}"),
            _ => Ok(()),
        }
    }
}

impl fmt::Display for Cause {
    ghost output = { λ c. Some (sentence c) };

    fn fmt<W: fmt::Write>(&self, f: &mut fmt::Formatter<W>) -> fmt::Result {
        write!(f, "{}{}", head(self), Named(self))
    }
}

/// Why a line is not taken.
#[derive(Clone, Copy, Debug, PartialEq, Eq)]
pub enum LineError {
    /// This is wrong with it.
    Wrong(Cause),
    /// A request for memory was refused.
    Memory,
}

impl From<Cause> for LineError {
    ghost from_gives = { λ cause e. e ≡ its.Wrong cause };

    fn from(cause: Cause) -> LineError {
        LineError::Wrong(cause)
    }
}

impl From<AllocError> for LineError {
    ghost from_gives = { λ _ e. e ≡ its.Memory };

    fn from(_error: AllocError) -> LineError {
        LineError::Memory
    }
}

impl<T: Drop> From<AllocFailed<T>> for LineError {
    ghost from_gives = { λ _ e. e ≡ its.Memory };

    fn from(_error: AllocFailed<T>) -> LineError {
        LineError::Memory
    }
}

impl From<ParseError> for LineError {
    ghost from_gives = { λ error e. e ≡ of_text error };

    // Bytes are all that is read with memory, so what is malformed is bytes.
    fn from(error: ParseError) -> LineError {
        match error {
            ParseError::Malformed => LineError::Wrong(Cause::Bytes),
            ParseError::Memory => LineError::Memory,
        }
    }
}
