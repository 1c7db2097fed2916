//! A client's part of a block, as a line.
ghost use Rattle.std.specs.Prelude.{◌≡◌, Some};
ghost use Rattle.std.specs.List.{flat_map, list_any};
ghost use Rattle.tl_types.specs.Message.{is_probe_ack};
ghost use Rattle.tlcheck_record.specs.State.{client_line, copy_text, is_at_rest, is_probed, is_still, on_a, on_ab, on_b, on_c, on_cde, on_d, on_e, perm_text, probe_text, standing_text, wait_text};

use std::fmt;
use tl_protocol::AckCount;
use tl_rules::{CachedCopy, Client};
use tl_script_words::{Carried, Hex};
use tl_types::{Awaited, ClientId, Downward, Grow, Perm, ProbeCap, Upward};

fn has_answer(client: &Client) -> bool
    ensures { result ≡ list_any is_probe_ack client.now.c }
{
    client
        .c
        .as_slice()
        .iter()
        .any(|message| message.is_probe_ack())
}

/// Whether a Probe is on its way to the client, or an answer from it.
pub(crate) fn is_probed(client: &Client) -> bool
    ensures { result ≡ is_probed client.now }
{
    !client.b.as_slice().is_empty() || has_answer(client)
}

/// Whether the client waits for nothing, and there is no message to it or from it.
pub(crate) fn is_still(client: &Client) -> bool
    ensures { result ≡ is_still client.now }
{
    client.wait == Awaited::Nothing
        && client.a.as_slice().is_empty()
        && client.b.as_slice().is_empty()
        && client.c.as_slice().is_empty()
        && client.d.as_slice().is_empty()
        && client.e.is_empty()
}

/// Whether it is still, has no copy, and home records none.
pub(crate) fn is_at_rest(client: &Client) -> bool
    ensures { result ≡ is_at_rest client.now }
{
    client.held.perm() == Perm::None && client.recorded == Perm::None && is_still(client)
}

// A permission.
#[derive(Clone, Copy)]
struct PermName(Perm);

impl fmt::Display for PermName {
    ghost output = { λ x. Some (perm_text x.0) };

    fn fmt<W: fmt::Write>(&self, f: &mut fmt::Formatter<W>) -> fmt::Result {
        match self.0 {
            Perm::None => f.write_str("None"),
            Perm::Branch => f.write_str("Branch"),
            Perm::Tip => f.write_str("Tip"),
        }
    }
}

/// A client's copy. It prints as `None`, or as its permission and its bytes.
#[derive(Clone, Copy)]
pub struct Held<'a>(pub &'a CachedCopy);

impl fmt::Display for Held<'_> {
    ghost output = { λ x. Some (copy_text x.0.now) };

    fn fmt<W: fmt::Write>(&self, f: &mut fmt::Formatter<W>) -> fmt::Result {
        match self.0 {
            CachedCopy::Absent => f.write_str("None"),
            CachedCopy::Readable(bytes) => write!(f, "Branch {}", Hex(bytes.as_slice())),
            CachedCopy::Writable(bytes, false) => write!(f, "Tip {}", Hex(bytes.as_slice())),
            CachedCopy::Writable(bytes, true) => write!(f, "Tip dirty {}", Hex(bytes.as_slice())),
        }
    }
}

/// What a client waits for. It prints as what stands behind the copy: nothing, or `, waits for` and the answer.
#[derive(Clone, Copy)]
pub struct Waits(pub Awaited);

impl fmt::Display for Waits {
    ghost output = { λ x. Some (wait_text x.0) };

    fn fmt<W: fmt::Write>(&self, f: &mut fmt::Formatter<W>) -> fmt::Result {
        match self.0 {
            Awaited::Nothing => Ok(()),
            Awaited::ForGrant => f.write_str(", waits for a Grant"),
            Awaited::ForReleaseAck => f.write_str(", waits for a ReleaseAck"),
        }
    }
}

// A message on A.
#[derive(Clone, Copy)]
struct Acquire(Grow);

impl fmt::Display for Acquire {
    ghost output = { λ x. Some (on_a x.0) };

    fn fmt<W: fmt::Write>(&self, f: &mut fmt::Formatter<W>) -> fmt::Result {
        let grow = self.0;
        write!(f, ", on A AcquireBlock {grow}")
    }
}

// The messages on A.
#[derive(Clone, Copy)]
struct OnA<'a>(&'a [Grow]);

impl fmt::Display for OnA<'_> {
    ghost output = { λ x. Some (flat_map on_a x.0.now) };

    fn fmt<W: fmt::Write>(&self, f: &mut fmt::Formatter<W>) -> fmt::Result {
        for grow in self.0 {
            write!(f, "{}", Acquire(*grow))?;
        }
        Ok(())
    }
}

// A message on B.
#[derive(Clone, Copy)]
struct Probe(ProbeCap);

impl fmt::Display for Probe {
    ghost output = { λ x. Some (on_b x.0) };

    fn fmt<W: fmt::Write>(&self, f: &mut fmt::Formatter<W>) -> fmt::Result {
        let cap = self.0;
        write!(f, ", on B ProbeBlock {cap}")
    }
}

// The messages on B.
#[derive(Clone, Copy)]
struct OnB<'a>(&'a [ProbeCap]);

impl fmt::Display for OnB<'_> {
    ghost output = { λ x. Some (flat_map on_b x.0.now) };

    fn fmt<W: fmt::Write>(&self, f: &mut fmt::Formatter<W>) -> fmt::Result {
        for cap in self.0 {
            write!(f, "{}", Probe(*cap))?;
        }
        Ok(())
    }
}

// The messages on C.
#[derive(Clone, Copy)]
struct OnC<'a>(&'a [Upward]);

impl fmt::Display for OnC<'_> {
    ghost output = { λ x. Some (flat_map on_c x.0.now) };

    fn fmt<W: fmt::Write>(&self, f: &mut fmt::Formatter<W>) -> fmt::Result {
        for message in self.0 {
            write!(f, ", on C {}{}", message.kind(), Carried(message.bytes()))?;
        }
        Ok(())
    }
}

// The messages on D.
#[derive(Clone, Copy)]
struct OnD<'a>(&'a [Downward]);

impl fmt::Display for OnD<'_> {
    ghost output = { λ x. Some (flat_map on_d x.0.now) };

    fn fmt<W: fmt::Write>(&self, f: &mut fmt::Formatter<W>) -> fmt::Result {
        for message in self.0 {
            write!(f, ", on D {}{}", message.kind(), Carried(message.bytes()))?;
        }
        Ok(())
    }
}

// The messages on E, where there are some.
#[derive(Clone, Copy)]
struct OnE<'a>(&'a AckCount);

impl fmt::Display for OnE<'_> {
    ghost output = { λ x. Some (on_e x.0.now) };

    fn fmt<W: fmt::Write>(&self, f: &mut fmt::Formatter<W>) -> fmt::Result {
        if self.0.is_empty() {
            Ok(())
        } else {
            f.write_str(", on E GrantAck")
        }
    }
}

// Whether home has still to probe the client.
#[derive(Clone, Copy)]
struct ToProbe(bool);

impl fmt::Display for ToProbe {
    ghost output = { λ x. Some (probe_text x.0) };

    fn fmt<W: fmt::Write>(&self, f: &mut fmt::Formatter<W>) -> fmt::Result {
        if self.0 {
            f.write_str(", to be probed")
        } else {
            Ok(())
        }
    }
}

// Its copy, its record, and what it waits for.
#[derive(Clone, Copy)]
struct Standing<'a>(&'a Client);

impl fmt::Display for Standing<'_> {
    ghost output = { λ x. Some (standing_text x.0.now) };

    fn fmt<W: fmt::Write>(&self, f: &mut fmt::Formatter<W>) -> fmt::Result {
        let client = self.0;
        write!(
            f,
            "{}, recorded {}{}",
            Held(&client.held),
            PermName(client.recorded),
            Waits(client.wait)
        )
    }
}

// The messages on A and B.
#[derive(Clone, Copy)]
struct OnAB<'a>(&'a Client);

impl fmt::Display for OnAB<'_> {
    ghost output = { λ x. Some (on_ab x.0.now) };

    fn fmt<W: fmt::Write>(&self, f: &mut fmt::Formatter<W>) -> fmt::Result {
        write!(
            f,
            "{}{}",
            OnA(self.0.a.as_slice()),
            OnB(self.0.b.as_slice())
        )
    }
}

// The messages on C, D and E.
#[derive(Clone, Copy)]
struct OnCDE<'a>(&'a Client);

impl fmt::Display for OnCDE<'_> {
    ghost output = { λ x. Some (on_cde x.0.now) };

    fn fmt<W: fmt::Write>(&self, f: &mut fmt::Formatter<W>) -> fmt::Result {
        let client = self.0;
        write!(
            f,
            "{}{}{}",
            OnC(client.c.as_slice()),
            OnD(client.d.as_slice()),
            OnE(&client.e)
        )
    }
}

// A client's line: its copy, its record, what it waits for, the messages of each channel, and whether home has still to
// probe it.
#[derive(Clone, Copy)]
pub(crate) struct ClientLine<'a> {
    pub(crate) c: ClientId,
    pub(crate) client: &'a Client,
    pub(crate) probe: bool,
}

impl fmt::Display for ClientLine<'_> {
    ghost output = { λ x. Some (client_line x.c x.client.now x.probe) };

    fn fmt<W: fmt::Write>(&self, f: &mut fmt::Formatter<W>) -> fmt::Result {
        write!(
            f,
            "client {}: {}{}{}{}\n",
            self.c,
            Standing(self.client),
            OnAB(self.client),
            OnCDE(self.client),
            ToProbe(self.probe)
        )
    }
}
