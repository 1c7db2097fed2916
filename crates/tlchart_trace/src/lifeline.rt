//! Who makes a step of a trace.
ghost use Rattle.std.specs.Prelude.{◌≡◌};
ghost use Rattle.tl_trace.specs.NetworkState.{bank_asked};
ghost use Rattle.tlchart_model.specs.declared.lifeline.Lifeline.TheVariants as its;
ghost use Rattle.tlchart_trace.specs.Lifeline.{is_by_client, is_by_memory, lifeline_of};

use tl_map::Geometry;
use tl_script_words::{BlockCall, Step, TicketCall};
use tl_trace::{bank_asked, client_named};
use tl_types::BankNo;
use tlchart_model::Lifeline;

/// Whether a step is a client's.
fn is_by_client(step: &Step) -> bool
    ensures { result ≡ is_by_client step.now }
{
    match step {
        Step::Load { .. } | Step::Store { .. } | Step::Acquire { .. } | Step::Release { .. } => {
            true
        }
        Step::Ticket(
            TicketCall::AnswerProbe | TicketCall::TakeGrant | TicketCall::TakeReleaseAck,
            _,
        ) => true,
        Step::Ticket(_, _) | Step::Block(_, _) => false,
    }
}

/// Whether a step is the memory's.
fn is_by_memory(step: &Step) -> bool
    ensures { result ≡ is_by_memory step.now }
{
    matches!(step, Step::Block(BlockCall::ServeMemory, _))
}

/// The home that a step is asked of.
pub(crate) fn home_asked(geometry: Geometry, step: &Step) -> Lifeline
    ensures { result ≡ its.Home (bank_asked geometry step.now) }
{
    let bank = bank_asked(geometry, step) as u32;
    Lifeline::Home(BankNo::new(bank))
}

/// Who makes a step; for a client that is not there the home that is asked.
pub(crate) fn lifeline_of(geometry: Geometry, step: &Step) -> Lifeline
    ensures { result ≡ lifeline_of geometry step.now }
{
    let client = client_named(step);
    if is_by_memory(step) {
        Lifeline::Memory
    } else if is_by_client(step) && client.number() < geometry.clients() {
        Lifeline::Client(client)
    } else {
        home_asked(geometry, step)
    }
}
