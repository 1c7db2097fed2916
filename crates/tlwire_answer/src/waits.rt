//! What the header expects of the exchanges of a record, and what is told of them.
ghost use Rattle.std.specs.Prelude.{◌≡◌, ◌++◌, Some, IfOk, OnOk, string_bytes};
ghost use Rattle.std.specs.List.{flat_map};
ghost use Rattle.tl_script_words.specs.Words.{texts};
ghost use Rattle.tlwire_exchanges.specs.Opened.{exchanges_of};
ghost use Rattle.tlwire_exchanges.specs.Times.{cycle_at, open_for};
ghost use Rattle.tlwire_answer.specs.Lines.{number_at};
ghost use Rattle.tlwire_answer.specs.Waits.{answer_line, answer_number, cycles_text, head_text, left_count, left_text, line_text, longest_text, not_quiet, open_text, response_text, since_text, tail_text, too_long, unmet_by, unmet_of, unmet_text, wait_text, waits_text};

use crate::ending::{number_at, number_in, text_at};
use std::alloc::{AllocError, Global};
use std::fmt;
use tlwire_exchanges::{
    Opened, Response, cycle_at, exchanges_of, first_longer, first_open, longest_closed,
};
use tlwire_record::Messages;

/// What the header expects of the exchanges, and a record does not keep.
#[derive(Clone, Copy, PartialEq, Eq)]
pub enum Unmet {
    /// `patience NUM`: this exchange is open for more cycles.
    TooLong(Opened),
    /// `ends quiet`: this exchange is open at the end.
    NotQuiet(Opened),
}

/// The first exchange that is open for more cycles than the header's patience, of all.
fn too_long(messages: &Messages, exchanges: &[Opened]) -> Option<Opened>
    requires { exchanges.now ≡ exchanges_of messages.now.seen }
    ensures { result ≡ too_long messages.now messages.now.setting.expects.patience }
{
    match messages.setting().expects().patience {
        Some(most) => first_longer(messages.cycles(), messages.end(), most, exchanges),
        None => None,
    }
}

/// The first exchange that is open at the end, of all, where the header expects none.
fn not_quiet(messages: &Messages, exchanges: &[Opened]) -> Option<Opened>
    requires { exchanges.now ≡ exchanges_of messages.now.seen }
    ensures { result ≡ not_quiet messages.now }
{
    if messages.setting().expects().quiet {
        first_open(exchanges)
    } else {
        None
    }
}

/// What is not kept: of a patience before of the end.
fn unmet_by(long: Option<Opened>, quiet: Option<Opened>) -> Option<Unmet>
    ensures { result ≡ unmet_by long quiet }
{
    match (long, quiet) {
        (Some(opened), _) => Some(Unmet::TooLong(opened)),
        (None, Some(opened)) => Some(Unmet::NotQuiet(opened)),
        (None, None) => None,
    }
}

/// What the header expects of the exchanges of a record, and the record does not keep, if anything. Err is a refused
/// request for memory.
fn unmet_in(alloc: Global, messages: &Messages) -> Result<Option<Unmet>, AllocError>
    ensures { IfOk result (λ unmet. unmet ≡ unmet_of messages.now) }
{
    let exchanges = exchanges_of(alloc, messages.seen())?;
    let long = too_long(messages, &exchanges);
    let quiet = not_quiet(messages, &exchanges);
    Ok(unmet_by(long, quiet))
}

/// The same; the exchanges are not looked at where the header expects nothing of them.
pub(crate) fn unmet_of(alloc: Global, messages: &Messages) -> Result<Option<Unmet>, AllocError>
    ensures { IfOk result (λ unmet. unmet ≡ unmet_of messages.now) }
{
    let expects = messages.setting().expects();
    match (expects.patience, expects.quiet) {
        (None, false) => Ok(None),
        _ => unmet_in(alloc, messages),
    }
}

/// As what an exchange is told.
#[derive(Clone, Copy, PartialEq, Eq)]
pub(crate) enum Told {
    /// As one that is open at the end.
    Open,
    /// As the longest wait of those that were answered.
    Longest,
    /// As one that is open for longer than the header's patience.
    TooLong,
    /// As one that is open where the header expects none.
    NotQuiet,
}

impl fmt::Display for Told {
    ghost output = { λ t. Some (head_text t) };

    fn fmt<W: fmt::Write>(&self, f: &mut fmt::Formatter<W>) -> fmt::Result {
        match self {
            Told::Open => f.write_str("open at the end"),
            Told::Longest => f.write_str("longest wait"),
            Told::TooLong => f.write_str("too long"),
            Told::NotQuiet => f.write_str("not quiet"),
        }
    }
}

// The name of a response.
#[derive(Clone, Copy)]
struct ResponseText(Response);

impl fmt::Display for ResponseText {
    ghost output = { λ x. Some (response_text x.0) };

    fn fmt<W: fmt::Write>(&self, f: &mut fmt::Formatter<W>) -> fmt::Result {
        match self.0 {
            Response::Grant => f.write_str("Grant"),
            Response::GrantAck => f.write_str("GrantAck"),
            Response::ProbeAck => f.write_str("ProbeAck"),
            Response::ReleaseAck => f.write_str("ReleaseAck"),
            Response::AccessAckData => f.write_str("AccessAckData"),
            Response::AccessAck => f.write_str("AccessAck"),
        }
    }
}

// The number of the line that opens an exchange.
#[derive(Clone, Copy)]
struct LineText {
    told: Told,
    number: u64,
}

impl fmt::Display for LineText {
    ghost output = { λ x. Some (line_text x.told x.number) };

    fn fmt<W: fmt::Write>(&self, f: &mut fmt::Formatter<W>) -> fmt::Result {
        write!(f, "{}: line {}", self.told, self.number)
    }
}

// So many cycles.
#[derive(Clone, Copy)]
struct CyclesText(u32);

impl fmt::Display for CyclesText {
    ghost output = { λ x. Some (cycles_text x.0) };

    fn fmt<W: fmt::Write>(&self, f: &mut fmt::Formatter<W>) -> fmt::Result {
        if self.0 == 1 {
            f.write_str("1 cycle")
        } else {
            write!(f, "{} cycles", self.0)
        }
    }
}

// Since when it is open, and for how many cycles.
#[derive(Clone, Copy)]
struct SinceText {
    since: u32,
    cycles: u32,
}

impl fmt::Display for SinceText {
    ghost output = { λ x. Some (since_text x.since x.cycles) };

    fn fmt<W: fmt::Write>(&self, f: &mut fmt::Formatter<W>) -> fmt::Result {
        write!(
            f,
            ", since cycle {}, for {}",
            self.since,
            CyclesText(self.cycles)
        )
    }
}

// The number of the line of its answer, or that there is none.
#[derive(Clone, Copy)]
struct AnswerLine {
    response: Response,
    number: Option<u64>,
}

impl fmt::Display for AnswerLine {
    ghost output = { λ x. Some (answer_line x.response x.number) };

    fn fmt<W: fmt::Write>(&self, f: &mut fmt::Formatter<W>) -> fmt::Result {
        let response = ResponseText(self.response);
        match self.number {
            None => write!(f, ", without its {response}: "),
            Some(number) => write!(f, ", until its {response} in line {number}: "),
        }
    }
}

/// The number of the line of an answer.
fn answer_number(numbers: &[u64], answer: Option<usize>) -> Option<u64>
    ensures { result ≡ answer_number numbers.now answer }
{
    match answer {
        Some(place) => Some(number_in(numbers, place)),
        None => None,
    }
}

/// The line of an exchange, since when it is open, and for how long.
fn wait_head(
    alloc: Global,
    told: Told,
    messages: &Messages,
    opened: Opened,
) -> Result<String, AllocError>
    ensures { IfOk result
        (λ text. string_bytes text ≡ line_text told (number_at messages.now.lines opened.place)
        ++ since_text (cycle_at messages.now.cycles opened.place) (open_for messages.now.cycles messages.now.cycle opened)) }
{
    let cycles = messages.cycles();
    let line = LineText {
        told,
        number: number_at(messages, opened.place),
    };
    let since = SinceText {
        since: cycle_at(cycles, opened.place),
        cycles: opened.open_for(cycles, messages.end()),
    };
    format!(in alloc; "{line}{since}")
}

/// The answer of an exchange.
fn wait_tail(alloc: Global, messages: &Messages, opened: Opened) -> Result<String, AllocError>
    ensures { IfOk result
        (λ text. string_bytes text ≡ answer_line opened.exchange.response (answer_number messages.now.lines opened.answer)) }
{
    let answer = AnswerLine {
        response: opened.exchange.response,
        number: answer_number(messages.lines(), opened.answer),
    };
    format!(in alloc; "{answer}")
}

/// An exchange: its line, since when it is open and for how long, its answer, and the line as it stands.
fn wait_text(
    alloc: Global,
    told: Told,
    lines: &[&[u8]],
    messages: &Messages,
    opened: Opened,
) -> Result<Vec<u8>, AllocError>
    ensures { IfOk result (λ text. text.items ≡ wait_text told (texts lines.now) messages.now opened) }
{
    let head = wait_head(alloc, told, messages, opened)?;
    let tail = wait_tail(alloc, messages, opened)?;
    let mut text = head.into_bytes();
    text.extend_from_slice(tail.as_bytes())?;
    text.extend_from_slice(text_at(lines, number_at(messages, opened.place)))?;
    text.extend_from_slice(b"\n")?;
    Ok(text)
}

/// Adds an exchange.
fn push_wait(
    alloc: Global,
    text: &mut Vec<u8>,
    told: Told,
    lines: &[&[u8]],
    messages: &Messages,
    opened: Opened,
) -> Result<(), AllocError>
    ensures { OnOk result (text.new.items ≡ text.old.items ++ wait_text told (texts lines.now) messages.now opened) }
{
    let wait = wait_text(alloc, told, lines, messages, opened)?;
    text.extend_from_slice(&wait)
}

/// Adds an exchange, where it is open at the end.
fn push_open(
    alloc: Global,
    text: &mut Vec<u8>,
    lines: &[&[u8]],
    messages: &Messages,
    opened: Opened,
) -> Result<(), AllocError>
    ensures { OnOk result (text.new.items ≡ text.old.items ++ open_text (texts lines.now) messages.now opened) }
{
    if opened.is_open() {
        push_wait(alloc, text, Told::Open, lines, messages, opened)
    } else {
        Ok(())
    }
}

/// Adds each exchange that is open at the end.
fn push_all_open(
    alloc: Global,
    text: &mut Vec<u8>,
    lines: &[&[u8]],
    messages: &Messages,
    exchanges: &[Opened],
) -> Result<(), AllocError>
    ensures { OnOk result
        (text.new.items ≡ text.old.items ++ flat_map (open_text (texts lines.now) messages.now) exchanges.now) }
{
    for opened in exchanges {
        push_open(alloc, text, lines, messages, *opened)?;
    }
    Ok(())
}

/// Adds the longest wait of those that were answered.
fn push_longest(
    alloc: Global,
    text: &mut Vec<u8>,
    lines: &[&[u8]],
    messages: &Messages,
    longest: Option<Opened>,
) -> Result<(), AllocError>
    ensures { OnOk result (text.new.items ≡ text.old.items ++ longest_text (texts lines.now) messages.now longest) }
{
    match longest {
        Some(opened) => push_wait(alloc, text, Told::Longest, lines, messages, opened),
        None => Ok(()),
    }
}

/// A text with each exchange that is open at the end, in the order of their lines, and the longest wait of the others.
fn with_waits(
    alloc: Global,
    mut text: Vec<u8>,
    lines: &[&[u8]],
    messages: &Messages,
) -> Result<Vec<u8>, AllocError>
    ensures { IfOk result (λ after. after.items ≡ text.items ++ waits_text (texts lines.now) messages.now) }
{
    let exchanges = exchanges_of(alloc, messages.seen())?;
    push_all_open(alloc, &mut text, lines, messages, &exchanges)?;
    let longest = longest_closed(messages.cycles(), messages.end(), &exchanges);
    push_longest(alloc, &mut text, lines, messages, longest)?;
    Ok(text)
}

// How many lines are left out.
#[derive(Clone, Copy)]
struct LeftCount(usize);

impl fmt::Display for LeftCount {
    ghost output = { λ x. Some (left_count x.0) };

    fn fmt<W: fmt::Write>(&self, f: &mut fmt::Formatter<W>) -> fmt::Result {
        if self.0 == 0 {
            Ok(())
        } else {
            write!(f, "lines left out: {}\n", self.0)
        }
    }
}

/// A text with how many lines are left out, where some are.
pub(crate) fn with_left(
    alloc: Global,
    mut text: Vec<u8>,
    messages: &Messages,
) -> Result<Vec<u8>, AllocError>
    ensures { IfOk result (λ after. after.items ≡ text.items ++ left_text messages.now) }
{
    let count = LeftCount(messages.left_lines().len());
    let line = format!(in alloc; "{count}")?;
    text.extend_from_slice(line.as_bytes())?;
    Ok(text)
}

/// A text with what stands behind an answer: how many lines are left out, and the exchanges.
pub(crate) fn with_tail(
    alloc: Global,
    text: Vec<u8>,
    lines: &[&[u8]],
    messages: &Messages,
) -> Result<Vec<u8>, AllocError>
    ensures { IfOk result (λ after. after.items ≡ text.items ++ tail_text (texts lines.now) messages.now) }
{
    let text = with_left(alloc, text, messages)?;
    with_waits(alloc, text, lines, messages)
}

/// The exchange that is not as the header expects.
pub(crate) fn unmet_text(
    alloc: Global,
    lines: &[&[u8]],
    messages: &Messages,
    unmet: Unmet,
) -> Result<Vec<u8>, AllocError>
    ensures { IfOk result (λ text. text.items ≡ unmet_text (texts lines.now) messages.now unmet) }
{
    match unmet {
        Unmet::TooLong(opened) => wait_text(alloc, Told::TooLong, lines, messages, opened),
        Unmet::NotQuiet(opened) => wait_text(alloc, Told::NotQuiet, lines, messages, opened),
    }
}
