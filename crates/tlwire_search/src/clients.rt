//! Which of the clients stand in the way of an event.
use tl_rules::{BlockState, Client};
use tl_types::{ClientId, Perm};

/// Which of the clients stand in the way of an event.
#[derive(Clone, Copy)]
pub(crate) enum Which {
    /// One with a Grant pending.
    Granted,
    /// One with a Probe pending.
    Probed,
    /// One that home records.
    Recorded,
    /// One that home records at Tip.
    AtTip,
    /// Another one that home records.
    OtherThan(ClientId),
    /// One that is neither of two, and that home records.
    NeitherOf(ClientId, ClientId),
    /// Another one with a message on C.
    Giving(ClientId),
    /// One with an Acquire on A.
    Asking,
}

fn is_in_way(k: &Client, c: ClientId, which: Which) -> bool {
    match which {
        Which::Granted => !k.has_no_grant(),
        Which::Probed => !k.has_no_probe(),
        Which::Recorded => k.recorded != Perm::None,
        Which::AtTip => k.recorded == Perm::Tip,
        Which::OtherThan(own) => c != own && k.recorded != Perm::None,
        Which::NeitherOf(one, two) => c != one && c != two && k.recorded != Perm::None,
        Which::Giving(own) => c != own && k.may_take_c(),
        Which::Asking => k.may_take_a(),
    }
}

/// The first client that is in the way.
pub(crate) fn in_way(state: &BlockState, clients: u32, which: Which) -> Option<ClientId> {
    for number in 0..clients {
        let c = ClientId::new(number);
        if is_in_way(state.client(c)?, c, which) {
            return Some(c);
        }
    }
    None
}
