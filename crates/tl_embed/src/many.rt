//! Many calls at once, and many events.
ghost use Rattle.std.specs.Prelude.{◌≡◌, ◌<◌, min, map, take, drop, length, ◌++◌};
ghost use Rattle.tl_bank_spec.specs.View.{shape_of};
ghost use Rattle.tl_embed.specs.Events.{event_told};
ghost use Rattle.tl_embed.specs.Many.{BankReads, CallsMany, Reads};

use crate::answer::{Answer, Number};
use crate::cache::{Cache, call_into};
use crate::events::tell_event;
use crate::request::Request;
use tl_bank::Bank;
use tl_map::Geometry;
use tl_protocol::Event;
use tl_types::BankNo;

/// Carries out calls one after another, each answer in its place, until one is not answered with 0, or the requests or
/// the places end. How many were carried out, of which the last may be refused.
pub fn calls(cache: &mut Cache, requests: &[Request], answers: &mut [Answer]) -> usize
    ensures { CallsMany cache.old requests.now answers.old cache.new answers.new result }
{
    let most = requests.len().min(answers.len());
    for place in 0..most {
        let told = &mut answers[place];
        call_into(cache, &requests[place], told);
        if told.status != 0 {
            return place + 1;
        }
    }
    most
}

/// The events of a bank's log from the place that a request names on, as many as there are and have places; how many
/// they are.
pub fn read(cache: &mut Cache, request: &Request, events: &mut [Answer]) -> Number
    ensures { Reads cache.old request.now events.old cache.new events.new result }
{
    match &cache.network {
        None => Number {
            serial: u64::from(cache.status),
            ..Number::only(18)
        },
        Some(network) => match network.bank(BankNo::new(request.bank)) {
            Some(bank) => read_bank(bank, request.serial, events),
            None => Number::only(10),
        },
    }
}

/// The events of a bank's log from a place on, as many as there are and have places; how many they are.
fn read_bank(bank: &Bank, from: u64, events: &mut [Answer]) -> Number
    ensures { BankReads bank.now from events.old events.new result }
{
    let forgotten = bank.forgotten() as u64;
    if from < forgotten {
        return Number::only(19);
    }
    let log = bank.log();
    let skipped = ((from - forgotten) as usize).min(log.len());
    Number::told(tell_events(bank.geometry(), &log[skipped..], events) as u64)
}

/// As many of these events as have places.
fn tell_events(geometry: Geometry, log: &[Event], events: &mut [Answer]) -> usize
    ensures count { result ≡ min (length log.now) (length events.old) }
    ensures told { events.new ≡ map (event_told (shape_of geometry)) (take result log.now) ++ drop result events.old }
{
    let most = log.len().min(events.len());
    for place in 0..most {
        let told = &mut events[place];
        tell_event(geometry, &log[place], told);
    }
    most
}
