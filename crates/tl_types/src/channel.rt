//! The five channels of a link.
ghost use Rattle.std.specs.Prelude.{◌≡◌, ◌<◌, Some};
ghost use Rattle.tl_types.specs.Channel.{channel_index, letter_of};

use std::fmt;

/// A channel of a link (TileLink 1.8, section 3, "Channels").
#[derive(Clone, Copy, Debug, PartialEq, Eq)]
pub enum Channel {
    /// Requests: a client to home, home to the memory.
    A,
    /// Probes: home to a client.
    B,
    /// Answers to Probes, and Releases: a client to home.
    C,
    /// Grants and acknowledgements: home to a client, the memory to home.
    D,
    /// The last acknowledgement of a Grant: a client to home.
    E,
}

impl Channel {
    /// All channels, in order.
    pub const ALL: [Channel; 5] = [Channel::A, Channel::B, Channel::C, Channel::D, Channel::E];

    /// The channel's place among the five, from 0.
    pub fn index(self) -> usize
        ensures value { result ≡ channel_index self }
        ensures small { result < 5 }
    {
        match self {
            Channel::A => 0,
            Channel::B => 1,
            Channel::C => 2,
            Channel::D => 3,
            Channel::E => 4,
        }
    }
}

impl fmt::Display for Channel {
    ghost output = { λ c. Some (letter_of c) };

    fn fmt<W: fmt::Write>(&self, f: &mut fmt::Formatter<W>) -> fmt::Result {
        match self {
            Channel::A => f.write_str("A"),
            Channel::B => f.write_str("B"),
            Channel::C => f.write_str("C"),
            Channel::D => f.write_str("D"),
            Channel::E => f.write_str("E"),
        }
    }
}
