//! What a header says of what stays unseen at a client's pins.
ghost use Rattle.std.specs.Prelude.{◌≡◌};
ghost use Rattle.tlwire_pins.specs.Taps.{cores_of, tap_of};

use crate::view::{Cores, Tap};
use tl_types::ClientId;
use tlwire_search::{Premises, Wire};

/// Whether the header says that nobody watched a client's core.
pub fn cores_of(premises: &Premises, client: ClientId) -> Cores
    ensures { result ≡ cores_of premises.now client }
{
    if premises.is_unseen(Wire::Core(client)) {
        Cores::Unseen
    } else {
        Cores::Watched
    }
}

/// What of a client may stay unseen at its pins.
pub fn tap_of(premises: &Premises, client: ClientId) -> Tap
    ensures { result ≡ tap_of premises.now client }
{
    Tap {
        cores: cores_of(premises, client),
        drops: premises.drops(client),
    }
}
