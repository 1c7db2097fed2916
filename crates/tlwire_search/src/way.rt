//! When a monitor sees a message.
ghost use Rattle.std.specs.Prelude.{◌≡◌};
ghost use Rattle.tlwire_search.specs.Ways.{closes_at_taking, is_from_memory, is_grant_channel, is_late_at_clients, is_to_home, opens_at_taking};

use crate::seen::Wire;
use tl_types::Channel;

/// When a monitor sees a message. A load and a store are seen as they are made.
#[derive(Clone, Copy, PartialEq, Eq)]
pub enum Way {
    /// Between its sending and its taking.
    Between,
    /// At home's pins: what home sends as it is sent, what home takes as it is taken.
    AtHome,
    /// At the clients' pins: what a client sends on A and C as it is sent, a Grant and a ReleaseAck as they are taken;
    /// what is on B and E, and on the memory's link, between.
    AtClients,
    /// At the pins of the client with this number, its link as at the clients' pins; what is on other links, between.
    AtClient(u32),
}

fn is_to_home(channel: Channel) -> bool
    ensures { result ≡ is_to_home channel }
{
    match channel {
        Channel::A | Channel::C | Channel::E => true,
        Channel::B | Channel::D => false,
    }
}

fn is_grant_channel(channel: Channel) -> bool
    ensures { result ≡ is_grant_channel channel }
{
    match channel {
        Channel::D => true,
        Channel::A | Channel::B | Channel::C | Channel::E => false,
    }
}

fn is_late_at_clients(channel: Channel) -> bool
    ensures { result ≡ is_late_at_clients channel }
{
    match channel {
        Channel::B | Channel::D | Channel::E => true,
        Channel::A | Channel::C => false,
    }
}

fn is_from_memory(channel: Channel) -> bool
    ensures { result ≡ is_from_memory channel }
{
    match channel {
        Channel::D => true,
        Channel::A | Channel::B | Channel::C | Channel::E => false,
    }
}

impl Way {
    /// Whether a message on a wire is seen no earlier than it is taken; else no earlier than it is sent.
    pub fn opens_at_taking(self, wire: &Wire) -> bool
        ensures { result ≡ opens_at_taking self wire.now }
    {
        match self {
            Way::Between => false,
            Way::AtHome => match wire {
                Wire::Link(_, channel) => is_to_home(*channel),
                Wire::Memory(channel) => is_from_memory(*channel),
                Wire::Core(_) => false,
            },
            Way::AtClients => match wire {
                Wire::Link(_, channel) => is_grant_channel(*channel),
                Wire::Memory(_) | Wire::Core(_) => false,
            },
            Way::AtClient(client) => match wire {
                Wire::Link(c, channel) => c.number() == client && is_grant_channel(*channel),
                Wire::Memory(_) | Wire::Core(_) => false,
            },
        }
    }

    /// Whether a message on a wire is seen no later than it is taken; else no later than it is sent.
    pub fn closes_at_taking(self, wire: &Wire) -> bool
        ensures { result ≡ closes_at_taking self wire.now }
    {
        match self {
            Way::Between => match wire {
                Wire::Link(_, _) | Wire::Memory(_) => true,
                Wire::Core(_) => false,
            },
            Way::AtHome => match wire {
                Wire::Link(_, channel) => is_to_home(*channel),
                Wire::Memory(channel) => is_from_memory(*channel),
                Wire::Core(_) => false,
            },
            Way::AtClients => match wire {
                Wire::Link(_, channel) => is_late_at_clients(*channel),
                Wire::Memory(_) => true,
                Wire::Core(_) => false,
            },
            Way::AtClient(client) => match wire {
                Wire::Link(c, channel) => c.number() != client || is_late_at_clients(*channel),
                Wire::Memory(_) => true,
                Wire::Core(_) => false,
            },
        }
    }
}
