//! An entry as the line that stands for it.
ghost use Rattle.std.specs.Prelude.{◌≡◌, ◌++◌, Some, None, Ok};
ghost use Rattle.tl_protocol.specs.declared.event.Event.{Event};
ghost use Rattle.tlcheck_rules.specs.declared.entry.Entry.{Entry};
ghost use Rattle.tlcheck_record.specs.Carries.{event_words, words_text};
ghost use Rattle.tlcheck_record.specs.Entry.{entry_of};
ghost use Rattle.tlcheck_record.specs.Written.{HasLine, MayShow, access_text, entry_text, event_text, plain_entry, plain_event, shown_text};

use std::fmt;
use tl_rules::{Access, Event};
use tl_script_words::{Address, Carried, Hex};
use tl_types::{BlockNo, ClientId, Grow, ProbeCap, Prune};
use tlcheck_rules::{Entry, Shown};

// A client, an address and bytes.
#[derive(Clone, Copy)]
struct AccessWords<'a>(&'a Access);

impl fmt::Display for AccessWords<'_> {
    ghost output = { λ x. Some (access_text x.0.now) };

    fn fmt<W: fmt::Write>(&self, f: &mut fmt::Formatter<W>) -> fmt::Result {
        let access = self.0;
        write!(
            f,
            "{} {} {}",
            access.client,
            Address(access.address),
            Hex(access.bytes.as_slice())
        )
    }
}

/// The verb of an event, with a space after it.
fn verb(event: &Event) -> &'static str
    ensures { event_text event.now ≡ result.now ++ event_words event.now }
{
    match event {
        Event::Load(_) => "load ",
        Event::Store(_) => "store ",
        Event::SendAcquire(_, _, _) => "acquire ",
        Event::SendRelease(_, _, _) => "release ",
        Event::AnswerProbe(_, _) => "answer_probe ",
        Event::TakeGrant(_, _) => "take_grant ",
        Event::TakeReleaseAck(_, _) => "take_release_ack ",
        Event::AcceptAcquire(_, _) => "accept ",
        Event::SendProbe(_, _, _) => "probe ",
        Event::TakeC(_, _) => "take_c ",
        Event::SendGrant(_, _) => "grant ",
        Event::TakeGrantAck(_, _) => "take_grant_ack ",
        Event::SendGet(_) => "get ",
        Event::Serve(_) => "serve ",
        Event::TakeData(_) => "take_data ",
        Event::Drop(_) => "drop ",
        Event::SendPut(_) => "put ",
        Event::TakePutAck(_) => "take_put_ack ",
    }
}

// What an event carries after its verb.
#[derive(Clone, Copy)]
enum Words<'a> {
    OfAccess(&'a Access),
    OfClient(ClientId, BlockNo),
    OfAcquire(ClientId, BlockNo, Grow),
    OfRelease(ClientId, BlockNo, Prune),
    OfProbe(ClientId, BlockNo, ProbeCap),
    OfBlock(BlockNo),
}

/// What an event's line has after the verb.
fn words_after(event: &Event) -> Words<'_>
    ensures { words_text result ≡ event_words event.now }
{
    match event {
        Event::Load(access) | Event::Store(access) => Words::OfAccess(access),
        Event::SendAcquire(c, block, grow) => Words::OfAcquire(*c, *block, *grow),
        Event::SendRelease(c, block, prune) => Words::OfRelease(*c, *block, *prune),
        Event::SendProbe(c, block, cap) => Words::OfProbe(*c, *block, *cap),
        Event::AnswerProbe(c, block)
        | Event::TakeGrant(c, block)
        | Event::TakeReleaseAck(c, block)
        | Event::AcceptAcquire(c, block)
        | Event::TakeC(c, block)
        | Event::SendGrant(c, block)
        | Event::TakeGrantAck(c, block) => Words::OfClient(*c, *block),
        Event::SendGet(block)
        | Event::Serve(block)
        | Event::TakeData(block)
        | Event::Drop(block)
        | Event::SendPut(block)
        | Event::TakePutAck(block) => Words::OfBlock(*block),
    }
}

impl fmt::Display for Words<'_> {
    ghost output = { λ x. Some (words_text x) };

    fn fmt<W: fmt::Write>(&self, f: &mut fmt::Formatter<W>) -> fmt::Result {
        match *self {
            Words::OfAccess(access) => write!(f, "{}", AccessWords(access)),
            Words::OfClient(c, block) => write!(f, "{c} {block}"),
            Words::OfAcquire(c, block, grow) => write!(f, "{c} {block} {grow}"),
            Words::OfRelease(c, block, prune) => write!(f, "{c} {block} {prune}"),
            Words::OfProbe(c, block, cap) => write!(f, "{c} {block} {cap}"),
            Words::OfBlock(block) => write!(f, "{block}"),
        }
    }
}

/// An event as the line of a record, without the line feed: its verb, and what it carries. It prints nothing that the
/// event shows.
#[derive(Clone, Copy)]
pub struct EventLine<'a>(pub &'a Event);

impl fmt::Display for EventLine<'_> {
    ghost output = { λ x. Some (event_text x.0.now) };

    fn fmt<W: fmt::Write>(&self, f: &mut fmt::Formatter<W>) -> fmt::Result {
        write!(f, "{}{}", verb(self.0), words_after(self.0))
    }
}

// What is shown, with a space before it, or nothing.
#[derive(Clone, Copy)]
struct ShownWords<'a>(&'a Option<Shown>);

impl fmt::Display for ShownWords<'_> {
    ghost output = { λ x. Some (shown_text x.0.now) };

    fn fmt<W: fmt::Write>(&self, f: &mut fmt::Formatter<W>) -> fmt::Result {
        match self.0 {
            Some(shown) => write!(f, " {}{}", shown.kind, Carried(shown.bytes.as_ref())),
            None => Ok(()),
        }
    }
}

/// An entry as the line of a record, without the line feed: its event, and what it shows.
#[derive(Clone, Copy)]
pub struct EntryLine<'a>(pub &'a Entry);

impl fmt::Display for EntryLine<'_> {
    ghost output = { λ x. Some (entry_text x.0.now) };

    fn fmt<W: fmt::Write>(&self, f: &mut fmt::Formatter<W>) -> fmt::Result {
        write!(
            f,
            "{}{}",
            EventLine(&self.0.event),
            ShownWords(&self.0.shown)
        )
    }
}

/// A line that an entry prints as is read as that entry, where the format has a line for it: its numbers are of 32
/// bits, its access is of 1 to 8 bytes, and what it shows is a message between home and a client. The stamp and the
/// index of an access are not written.
pub fn lines_are_read_back()
    ensures entry { (entry : Entry) → HasLine entry.event → MayShow entry.event entry.shown
        → entry_of (entry_text entry) ≡ Ok (plain_entry entry) }
    ensures event { (event : Event) → HasLine event
        → entry_of (event_text event) ≡ Ok (record { event = plain_event event; shown = None }) }
{}
