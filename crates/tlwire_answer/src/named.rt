//! Which ways of seeing a header names, and what each of them says.
ghost use Rattle.std.specs.Prelude.{◌≡◌};
ghost use Rattle.tlwire_answer.specs.Named.{is_told, is_untimed, names, premise_of, untimed};

use tl_types::ClientId;
use tlwire_closed::Premise;
use tlwire_search::{Premises, Way};

/// How many messages, loads and stores a record has, at most, for which sets are made where their lines may stand in
/// any order: such a set holds many states.
pub(crate) const MOST_UNTIMED: usize = 1_000;

/// Whether a header names a way of seeing.
pub(crate) fn names(premises: &Premises, way: Way) -> bool
    ensures { result ≡ names premises.now way }
{
    match way {
        Way::Between => {
            premises.between
                || (premises.skew.is_some() && !premises.at_home && !premises.pins.has_all())
        }
        Way::AtHome => premises.at_home,
        Way::AtClients => premises.pins.has_all(),
        Way::AtClient(client) => {
            premises.pins.is_named(ClientId::new(client))
                && !premises.pins.has_all()
                && !premises.is_in_time()
        }
    }
}

/// Whether a header does not say when messages were seen, but for clients that it names one by one, and says that
/// none is left out.
pub(crate) fn is_untimed(premises: &Premises) -> bool
    ensures { result ≡ is_untimed premises.now }
{
    premises.whole
        && !premises.between
        && !premises.at_home
        && !premises.pins.has_all()
        && premises.skew.is_none()
}

/// Whether closed sets are made of a record of so many lines under a header: it says how the record was seen, and no
/// client drops clean copies.
pub(crate) fn has_sets(premises: &Premises, lines: usize) -> bool {
    if premises.has_drops() {
        return false;
    }
    (is_untimed(premises) && lines <= MOST_UNTIMED)
        || names(premises, Way::Between)
        || names(premises, Way::AtHome)
        || names(premises, Way::AtClients)
        || premises
            .pins
            .named()
            .iter()
            .any(|client| names(premises, Way::AtClient(client.number())))
}

/// Whether a client's lines are told at the client's pins in order of time.
pub(crate) fn is_told(premises: &Premises, client: ClientId) -> bool
    ensures { result ≡ is_told premises.now client }
{
    premises.is_seen_at_pins(client) && premises.is_in_time()
}

/// The premise of a way of seeing.
pub(crate) fn premise_of(premises: &Premises, way: Way) -> Premise
    ensures { result ≡ premise_of premises.now way }
{
    Premise {
        way,
        skew: premises.skew_of() as usize,
        whole: premises.whole,
        memory_unseen: premises.memory_unseen,
        cores_unseen: premises.cores_unseen,
    }
}

/// What such a header says: lines of different wires may stand in any order.
pub(crate) fn untimed(premises: &Premises, lines: usize) -> Premise
    ensures { result ≡ untimed premises.now lines }
{
    Premise {
        skew: lines,
        ..premise_of(premises, Way::Between)
    }
}

/// Whether somebody watched the memory's link and the cores, and lines stand in order of time.
pub(crate) fn is_all_in_order(premises: &Premises) -> bool {
    premises.skew.is_none() && !premises.memory_unseen && !premises.cores_unseen
}
