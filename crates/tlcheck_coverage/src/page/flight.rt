//! What is in flight in a situation.

use std::fmt;
use tl_types::Kind;
use tlcheck_situations::{ClientView, Others, Passing, Situation};

/// A message in flight: of the client that acts or is acted on, of other clients, or between home and the memory. With
/// its data or without is the same.
#[derive(Clone, Copy, Debug, PartialEq, Eq)]
pub(crate) enum Flight {
    Acquire,
    Probe,
    ProbeAck,
    Release,
    Grant,
    ReleaseAck,
    GrantAck,
    OtherAcquire,
    OtherProbe,
    OtherRelease,
    OtherGrant,
    Get,
    AccessAckData,
    PutFullData,
    AccessAck,
}

/// Each of them once.
pub(crate) const FLIGHTS: &[Flight] = &[
    Flight::Acquire,
    Flight::Probe,
    Flight::ProbeAck,
    Flight::Release,
    Flight::Grant,
    Flight::ReleaseAck,
    Flight::GrantAck,
    Flight::OtherAcquire,
    Flight::OtherProbe,
    Flight::OtherRelease,
    Flight::OtherGrant,
    Flight::Get,
    Flight::AccessAckData,
    Flight::PutFullData,
    Flight::AccessAck,
];

impl fmt::Display for Flight {
    fn fmt<W: fmt::Write>(&self, f: &mut fmt::Formatter<W>) -> fmt::Result {
        f.write_str(match self {
            Flight::Acquire => "Acquire",
            Flight::Probe => "Probe",
            Flight::ProbeAck => "ProbeAck",
            Flight::Release => "Release",
            Flight::Grant => "Grant",
            Flight::ReleaseAck => "ReleaseAck",
            Flight::GrantAck => "GrantAck",
            Flight::OtherAcquire => "elsewhere Acquire",
            Flight::OtherProbe => "elsewhere Probe",
            Flight::OtherRelease => "elsewhere Release",
            Flight::OtherGrant => "elsewhere Grant",
            Flight::Get => "Get",
            Flight::AccessAckData => "AccessAckData",
            Flight::PutFullData => "PutFullData",
            Flight::AccessAck => "AccessAck",
        })
    }
}

/// Whether a message of C or D is this one.
fn is_this(message: Option<Kind>, flight: Flight) -> bool {
    match message {
        Some(Kind::ProbeAck(_) | Kind::ProbeAckData(_)) => flight == Flight::ProbeAck,
        Some(Kind::Release(_) | Kind::ReleaseData(_)) => flight == Flight::Release,
        Some(Kind::Grant(_) | Kind::GrantData(_)) => flight == Flight::Grant,
        Some(Kind::ReleaseAck) => flight == Flight::ReleaseAck,
        _ => false,
    }
}

fn is_at_client(view: &ClientView, flight: Flight) -> bool {
    match flight {
        Flight::Acquire => view.acquire,
        Flight::Probe => view.probe.is_some(),
        Flight::GrantAck => view.grant_ack,
        _ => {
            is_this(view.on_c, flight)
                || is_this(view.behind_on_c, flight)
                || is_this(view.on_d, flight)
        }
    }
}

fn is_elsewhere(others: &Others, flight: Flight) -> bool {
    match flight {
        Flight::OtherAcquire => others.acquire,
        Flight::OtherProbe => others.probe,
        Flight::OtherRelease => others.release,
        Flight::OtherGrant => others.grant,
        _ => false,
    }
}

fn is_passing(passing: Passing, flight: Flight) -> bool {
    match passing {
        Passing::Nothing => false,
        Passing::Get => flight == Flight::Get,
        Passing::Data => flight == Flight::AccessAckData,
        Passing::Put => flight == Flight::PutFullData,
        Passing::PutAck => flight == Flight::AccessAck,
    }
}

/// Whether it is in flight, as far as the situation shows.
pub(crate) fn is_in_flight(situation: &Situation, flight: Flight) -> bool {
    let is_at_client = match &situation.client {
        Some(view) => is_at_client(view, flight),
        None => false,
    };
    let is_passing = match &situation.home {
        Some(view) => is_passing(view.passing, flight),
        None => false,
    };
    is_at_client || is_passing || is_elsewhere(&situation.others, flight)
}
