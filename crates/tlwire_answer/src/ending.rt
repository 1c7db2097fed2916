//! What an answer ends with, and how it is told.
ghost use Rattle.std.specs.Prelude.{◌≡◌, ◌++◌, Some, IfOk, OnOk, slice_get, string_bytes};
ghost use Rattle.std.specs.List.{flat_map};
ghost use Rattle.tl_streams.specs.Written.{AppendsBeginning};
ghost use Rattle.tl_script_words.specs.Words.{texts};
ghost use Rattle.tlwire_answer.specs.Ending.{answer_text, ending_of_read, ending_of_words, explained_text, fault_line, fault_text, hindrance_text, impossible_text, limit_line, limit_text, not_decided_text, order_text, other_order_text, rule_line, ruled_out_text, sets_text, side_text, stop_line, stuck_line, block_line, run_of, status_of, summary_line, summary_text, undecided_text, view_line};
ghost use Rattle.tlwire_answer.specs.Lines.{lent_line, number_at, text_at};
ghost use Rattle.tlwire_search.specs.Premises.{has_drops};

use crate::advice::AdvisedLine;
use crate::order::Order;
use crate::run::RunText;
use crate::verdict::{Undecided, Verdict};
use crate::waits::{unmet_text, with_left, with_tail};
use std::alloc::{AllocError, Global};
use std::fmt;
use std::fmt::Write as WriteText;
use std::io::Write;
use tl_rules::Event;
use tl_streams::{ProgramFault, ReadError, WordsError, tell};
use tl_types::{BlockNo, ClientId};
use tlcheck_record::{Cause, Held, Reason as Reasoned, Waits};
use tlcheck_rules::Breach;
use tlwire_closed::{Hindrance, Reason, Side, Stop, Stuck};
use tlwire_pins::{View, Wrong};
use tlwire_record::Messages;
use tlwire_search::Limit;

/// What is written of a run that was found.
#[derive(Clone, Copy, PartialEq, Eq)]
pub enum Form {
    /// That it was found, and how many events it has.
    Summary,
    /// The run, as a record of events.
    Run,
}

/// What an answer ends with. It prints as the text of a fault.
#[derive(Drop)]
pub enum Ending {
    /// The words of the command line are not an option and one file.
    Usage,
    /// What was said of what was seen.
    Answered(Messages, Verdict),
    /// On this line, from 1 on, this is wrong.
    Wrong(u64, Cause),
    /// There is no shape, or neither image nor message.
    Empty,
    /// A request for memory was refused.
    Memory,
    /// The file could not be read to its end, or the answer not written.
    File,
}

impl fmt::Display for Ending {
    ghost output = { λ e. Some (fault_text e) };

    fn fmt<W: fmt::Write>(&self, f: &mut fmt::Formatter<W>) -> fmt::Result {
        match self {
            Ending::Usage => write!(f, "{}", ProgramFault::Usage),
            Ending::Answered(_, _) => Ok(()),
            Ending::Wrong(line, cause) => {
                if cause.is_outside() {
                    write!(f, "error 52 line {line}: {cause}")
                } else {
                    write!(f, "error 50 line {line}: {cause}")
                }
            }
            Ending::Empty => f.write_str("error 51 empty"),
            Ending::Memory => write!(f, "{}", ProgramFault::Memory),
            Ending::File => write!(f, "{}", ProgramFault::File),
        }
    }
}

impl From<WordsError> for Ending {
    ghost from_gives = { λ error ending. ending ≡ ending_of_words error };

    fn from(error: WordsError) -> Ending {
        match error {
            WordsError::Usage => Ending::Usage,
            WordsError::Memory => Ending::Memory,
        }
    }
}

impl From<ReadError> for Ending {
    ghost from_gives = { λ error ending. ending ≡ ending_of_read error };

    fn from(error: ReadError) -> Ending {
        match error {
            ReadError::Memory => Ending::Memory,
            ReadError::File => Ending::File,
        }
    }
}

impl Ending {
    /// The status of it: 0, 1 and 6 are answers, the others faults.
    pub fn status(&self) -> u8
        ensures { result ≡ status_of self.now }
    {
        match self {
            Ending::Answered(_, Verdict::Explained(_)) => 0,
            Ending::Answered(_, Verdict::Impossible(_)) => 1,
            Ending::Answered(_, Verdict::RuledOut(_)) => 1,
            Ending::Answered(_, Verdict::Unmet(_)) => 1,
            Ending::Answered(_, Verdict::NotDecided(_, _, _)) => 6,
            Ending::Answered(_, Verdict::OtherOrder(_, _)) => 6,
            Ending::Usage => 2,
            Ending::Wrong(_, _) | Ending::Empty => 3,
            Ending::Memory => 4,
            Ending::File => 5,
        }
    }
}

/// The number of the line of a thing seen, among those of all.
pub(crate) fn number_in(numbers: &[u64], place: usize) -> u64
    ensures { result ≡ number_at numbers.now place }
{
    match numbers.get(place) {
        Some(number) => *number,
        None => 0,
    }
}

/// The number of the line of a thing seen.
pub(crate) fn number_at(messages: &Messages, place: usize) -> u64
    ensures { result ≡ number_at messages.now.lines place }
{
    number_in(messages.lines(), place)
}

fn line_at<'a>(lines: &[&'a [u8]], place: usize) -> &'a [u8]
    ensures { result.now ≡ lent_line (slice_get lines.now place) }
{
    match lines.get(place) {
        Some(line) => line,
        None => b"",
    }
}

/// The line with a number, from 1 on.
#[tactic(auto, using(crate::proofs::Texts::lent_at))]
pub(crate) fn text_at<'a>(lines: &[&'a [u8]], number: u64) -> &'a [u8]
    ensures { result.now ≡ text_at (texts lines.now) number }
{
    if number == 0 {
        b""
    } else {
        line_at(lines, (number - 1) as usize)
    }
}

// How much was seen, and how many events explain it.
#[derive(Clone, Copy)]
struct SummaryLine {
    seen: usize,
    events: usize,
}

impl fmt::Display for SummaryLine {
    ghost output = { λ x. Some (summary_text x.seen x.events) };

    fn fmt<W: fmt::Write>(&self, f: &mut fmt::Formatter<W>) -> fmt::Result {
        write!(f, "explained: {} seen, {} events\n", self.seen, self.events)
    }
}

fn push_summary(text: &mut String, messages: &Messages, events: &[Event]) -> Result<(), AllocError>
    ensures { OnOk result (string_bytes text.new ≡ string_bytes text.old ++ summary_line messages.now events.now) }
{
    let line = SummaryLine {
        seen: messages.seen().len(),
        events: events.len(),
    };
    write!(text, "{line}")?;
    Ok(())
}

fn push_run(text: &mut String, messages: &Messages, events: &[Event]) -> Result<(), AllocError>
    ensures { OnOk result (string_bytes text.new ≡ string_bytes text.old ++ run_of messages.now events.now) }
{
    let run = RunText {
        shape: messages.setting().shape(),
        image: messages.image(),
        events,
    };
    write!(text, "{run}")?;
    Ok(())
}

fn explained(
    alloc: Global,
    form: Form,
    lines: &[&[u8]],
    messages: &Messages,
    events: &[Event],
) -> Result<Vec<u8>, AllocError>
    ensures { IfOk result (λ text. text.items ≡ explained_text form (texts lines.now) messages.now events.now) }
{
    let mut text = String::new(alloc);
    match form {
        Form::Summary => {
            push_summary(&mut text, messages, events)?;
            with_tail(alloc, text.into_bytes(), lines, messages)
        }
        Form::Run => {
            push_run(&mut text, messages, events)?;
            Ok(text.into_bytes())
        }
    }
}

// What ended an attempt.
#[derive(Clone, Copy)]
struct LimitText(Limit);

impl fmt::Display for LimitText {
    ghost output = { λ x. Some (limit_text x.0) };

    fn fmt<W: fmt::Write>(&self, f: &mut fmt::Formatter<W>) -> fmt::Result {
        match self.0 {
            Limit::NoWay => f.write_str("no event that was tried leads there"),
            Limit::Depth => f.write_str("each of a row of 96 events asks for another one first"),
            Limit::Events => f.write_str("4096 events did not lead there"),
        }
    }
}

// Why no closed set says that it is unlawful, where one was sought, or where a client drops clean copies.
#[derive(Clone, Copy)]
struct SetsText {
    drops: bool,
    reason: Option<Reason>,
}

impl fmt::Display for SetsText {
    ghost output = { λ x. Some (sets_text x.drops x.reason) };

    fn fmt<W: fmt::Write>(&self, f: &mut fmt::Formatter<W>) -> fmt::Result {
        match self.reason {
            None => {
                if self.drops {
                    f.write_str("; no closed set is made where a client drops clean copies")
                } else {
                    Ok(())
                }
            }
            Some(Reason::NoContradiction) => {
                f.write_str("; in each block a state comes past all lines")
            }
            Some(Reason::TooManyStates) => f.write_str("; a block has more states than are kept"),
        }
    }
}

// That nothing more is said: why closed sets say nothing, and which line of the header would have decided it.
#[derive(Clone, Copy)]
struct UndecidedText {
    drops: bool,
    undecided: Undecided,
}

impl fmt::Display for UndecidedText {
    ghost output = { λ x. Some (undecided_text x.drops x.undecided) };

    fn fmt<W: fmt::Write>(&self, f: &mut fmt::Formatter<W>) -> fmt::Result {
        let sets = SetsText {
            drops: self.drops,
            reason: self.undecided.sets,
        };
        let advice = AdvisedLine(self.undecided.advice);
        write!(
            f,
            "{sets}; this is no verdict that it is unlawful\n{advice}"
        )
    }
}

// What ended an attempt, behind the line that it did not reach.
#[derive(Clone, Copy)]
struct LimitLine {
    limit: Limit,
    rest: UndecidedText,
}

impl fmt::Display for LimitLine {
    ghost output = { λ x. Some (limit_line x.limit x.rest.drops x.rest.undecided) };

    fn fmt<W: fmt::Write>(&self, f: &mut fmt::Formatter<W>) -> fmt::Result {
        write!(f, "\n{}{}", LimitText(self.limit), self.rest)
    }
}

fn not_decided(
    alloc: Global,
    number: u64,
    line: &[u8],
    limit: Limit,
    rest: UndecidedText,
) -> Result<Vec<u8>, AllocError>
    ensures { IfOk result (λ text. text.items ≡ not_decided_text number line.now limit rest.drops rest.undecided) }
{
    let ended = LimitLine { limit, rest };
    let head = format!(in alloc; "not decided: line {number}: ")?;
    let tail = format!(in alloc; "{ended}")?;
    let mut text = head.into_bytes();
    text.extend_from_slice(line)?;
    text.extend_from_slice(tail.as_bytes())?;
    Ok(text)
}

// Where a run that was found has another order.
#[derive(Clone, Copy)]
struct OrderText(Order);

impl fmt::Display for OrderText {
    ghost output = { λ x. Some (order_text x.0) };

    fn fmt<W: fmt::Write>(&self, f: &mut fmt::Formatter<W>) -> fmt::Result {
        match self.0 {
            Order::AtPins => f.write_str("at a client's pins"),
            Order::Between => f.write_str("between sending and taking"),
            Order::AtHome => f.write_str("at home's pins"),
            Order::AtClients => f.write_str("at the clients' pins"),
        }
    }
}

fn other_order(alloc: Global, order: Order, rest: UndecidedText) -> Result<Vec<u8>, AllocError>
    ensures { IfOk result (λ text. text.items ≡ other_order_text order rest.drops rest.undecided) }
{
    let place = OrderText(order);
    let text = format!(in alloc;
        "not decided: the run that was found has another order {place}{rest}"
    )?;
    Ok(text.into_bytes())
}

// What a line breaks that may not be seen at its client's pins.
#[derive(Clone, Copy)]
struct RuleLine<'a> {
    number: u64,
    breach: &'a Breach,
}

impl fmt::Display for RuleLine<'_> {
    ghost output = { λ x. Some (rule_line x.number x.breach.now) };

    fn fmt<W: fmt::Write>(&self, f: &mut fmt::Formatter<W>) -> fmt::Result {
        write!(
            f,
            "impossible: line {}: {}\n",
            self.number,
            Reasoned(self.breach)
        )
    }
}

// What the client holds of the block there, and waits for.
#[derive(Clone, Copy)]
struct ViewLine<'a> {
    block: BlockNo,
    client: ClientId,
    view: &'a View,
}

impl fmt::Display for ViewLine<'_> {
    ghost output = { λ x. Some (view_line x.block x.client x.view.now) };

    fn fmt<W: fmt::Write>(&self, f: &mut fmt::Formatter<W>) -> fmt::Result {
        write!(
            f,
            "\nblock {}, client {}: {}{}\n",
            self.block,
            self.client,
            Held(&self.view.held),
            Waits(self.view.wait)
        )
    }
}

fn impossible(alloc: Global, number: u64, line: &[u8], wrong: &Wrong) -> Result<Vec<u8>, AllocError>
    ensures { IfOk result (λ text. text.items ≡ impossible_text number line.now wrong.now) }
{
    let rule = RuleLine {
        number,
        breach: &wrong.breach,
    };
    let state = ViewLine {
        block: wrong.block,
        client: wrong.client,
        view: &wrong.view,
    };
    let head = format!(in alloc; "{rule}")?;
    let tail = format!(in alloc; "{state}")?;
    let mut text = head.into_bytes();
    text.extend_from_slice(line)?;
    text.extend_from_slice(tail.as_bytes())?;
    Ok(text)
}

// The number of a line that no run comes to.
#[derive(Clone, Copy)]
struct StuckLine(u64);

impl fmt::Display for StuckLine {
    ghost output = { λ x. Some (stuck_line x.0) };

    fn fmt<W: fmt::Write>(&self, f: &mut fmt::Formatter<W>) -> fmt::Result {
        write!(
            f,
            "impossible: line {}: no lawful run comes so far\n",
            self.0
        )
    }
}

// The block of that line.
#[derive(Clone, Copy)]
struct BlockLine(u32);

impl fmt::Display for BlockLine {
    ghost output = { λ x. Some (block_line x.0) };

    fn fmt<W: fmt::Write>(&self, f: &mut fmt::Formatter<W>) -> fmt::Result {
        write!(f, "\nblock {}\n", self.0)
    }
}

// Whose line it is that a state does not reach.
#[derive(Clone, Copy)]
struct SideText<'a>(&'a Side);

impl fmt::Display for SideText<'_> {
    ghost output = { λ x. Some (side_text x.0.now) };

    fn fmt<W: fmt::Write>(&self, f: &mut fmt::Formatter<W>) -> fmt::Result {
        match self.0 {
            Side::Client(client, held, wait) => {
                write!(f, "client {client}: {}{}", Held(held), Waits(*wait))
            }
            Side::Memory => f.write_str("memory"),
        }
    }
}

// What keeps a state from a line, by the numbers of the lines.
#[derive(Clone, Copy)]
struct HindranceText<'a> {
    numbers: &'a [u64],
    hindrance: &'a Hindrance,
}

impl fmt::Display for HindranceText<'_> {
    ghost output = { λ x. Some (hindrance_text x.numbers.now x.hindrance.now) };

    fn fmt<W: fmt::Write>(&self, f: &mut fmt::Formatter<W>) -> fmt::Result {
        match self.hindrance {
            Hindrance::Breach(breach) => write!(f, "{}", Reasoned(breach)),
            Hindrance::Line(place) => {
                let number = number_in(self.numbers, *place);
                write!(f, "line {number} has to be seen first")
            }
            Hindrance::Order => f.write_str("another line has to be seen first"),
        }
    }
}

// A state that does not reach a line.
#[derive(Clone, Copy)]
struct StopLine<'a> {
    numbers: &'a [u64],
    stop: &'a Stop,
}

impl fmt::Display for StopLine<'_> {
    ghost output = { λ x. Some (stop_line x.numbers.now x.stop.now) };

    fn fmt<W: fmt::Write>(&self, f: &mut fmt::Formatter<W>) -> fmt::Result {
        let side = SideText(&self.stop.side);
        let hindrance = HindranceText {
            numbers: self.numbers,
            hindrance: &self.stop.hindrance,
        };
        write!(f, "{side}; {hindrance}\n")
    }
}

// The states that do not reach a line.
#[derive(Clone, Copy)]
struct StopLines<'a> {
    numbers: &'a [u64],
    stops: &'a [Stop],
}

impl fmt::Display for StopLines<'_> {
    ghost output = { λ x. Some (flat_map (stop_line x.numbers.now) x.stops.now) };

    fn fmt<W: fmt::Write>(&self, f: &mut fmt::Formatter<W>) -> fmt::Result {
        let StopLines { numbers, stops } = *self;
        for stop in stops {
            write!(f, "{}", StopLine { numbers, stop })?;
        }
        Ok(())
    }
}

fn ruled_out(
    alloc: Global,
    numbers: &[u64],
    number: u64,
    line: &[u8],
    stuck: &Stuck,
) -> Result<Vec<u8>, AllocError>
    ensures { IfOk result (λ text. text.items ≡ ruled_out_text numbers.now number line.now stuck.now) }
{
    let place = StuckLine(number);
    let block = BlockLine(stuck.block);
    let stops = StopLines {
        numbers,
        stops: &stuck.stops,
    };
    let head = format!(in alloc; "{place}")?;
    let tail = format!(in alloc; "{block}{stops}")?;
    let mut text = head.into_bytes();
    text.extend_from_slice(line)?;
    text.extend_from_slice(tail.as_bytes())?;
    Ok(text)
}

/// That nothing more is said of a record.
fn undecided_text(messages: &Messages, undecided: Undecided) -> UndecidedText
    ensures drops { result.drops ≡ has_drops messages.now.setting.premises }
    ensures undecided { result.undecided ≡ undecided }
{
    UndecidedText {
        drops: messages.setting().premises().has_drops(),
        undecided,
    }
}

/// What is written of what was said. Err is a refused request for memory.
pub fn text_of(
    alloc: Global,
    form: Form,
    lines: &[&[u8]],
    messages: &Messages,
    verdict: &Verdict,
) -> Result<Vec<u8>, AllocError>
    ensures { IfOk result (λ text. text.items ≡ answer_text form (texts lines.now) messages.now verdict.now) }
{
    match verdict {
        Verdict::Explained(events) => explained(alloc, form, lines, messages, events),
        Verdict::Impossible(wrong) => {
            let number = number_at(messages, wrong.place);
            let text = impossible(alloc, number, text_at(lines, number), wrong)?;
            with_left(alloc, text, messages)
        }
        Verdict::RuledOut(stuck) => {
            let number = number_at(messages, stuck.place);
            let line = text_at(lines, number);
            let text = ruled_out(alloc, messages.lines(), number, line, stuck)?;
            with_left(alloc, text, messages)
        }
        Verdict::NotDecided(place, limit, undecided) => {
            let number = number_at(messages, *place);
            let line = text_at(lines, number);
            let rest = undecided_text(messages, *undecided);
            let text = not_decided(alloc, number, line, *limit, rest)?;
            with_tail(alloc, text, lines, messages)
        }
        Verdict::OtherOrder(order, undecided) => {
            let text = other_order(alloc, *order, undecided_text(messages, *undecided))?;
            with_tail(alloc, text, lines, messages)
        }
        Verdict::Unmet(unmet) => {
            let text = unmet_text(alloc, lines, messages, *unmet)?;
            with_tail(alloc, text, lines, messages)
        }
    }
}

/// Tells a fault, as far as `faults` takes it, and answers its status.
pub fn show<E: Write>(faults: &mut E, ending: &Ending) -> u8
    ensures status { result ≡ status_of ending.now }
    ensures line { AppendsBeginning (E.contents faults.old) (E.contents faults.new) (fault_line ending.now) }
{
    let _ = tell(faults, ending);
    ending.status()
}
