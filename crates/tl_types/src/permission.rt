//! Permissions, and the parameters of messages that speak of them (TileLink 1.8, section 9, "Permissions transitions").
ghost use Rattle.std.specs.Prelude.{◌≡◌, Some};
ghost use Rattle.tl_types.specs.Permission.{grow_from, prune_from, prune_to, report_to, probe_perm, grant_perm};
ghost use Rattle.tl_types.specs.Parameters.{grow_to, dirty_prune, report_from, report_of, probe_report, cap_perm, probe_cap, grant_cap};
ghost use Rattle.tl_types.specs.Text.{grow_text, prune_text, dirty_prune_text, probe_report_text, probe_cap_text, grant_cap_text};

use std::fmt;

/// What a client may do with its copy of a block, in rising order.
#[derive(Clone, Copy, Debug, PartialEq, Eq, PartialOrd, Ord)]
pub enum Perm {
    /// No access.
    None,
    /// Read.
    Branch,
    /// Read and write.
    Tip,
}

/// A permission as a bound: what a Probe leaves at most, or what a Grant gives.
#[derive(Clone, Copy, Debug, PartialEq, Eq)]
pub enum Cap {
    ToT,
    ToB,
    ToN,
}

/// What a Probe leaves at most. No Probe asks for Tip.
#[derive(Clone, Copy, Debug, PartialEq, Eq)]
pub enum ProbeCap {
    ToB,
    ToN,
}

/// What a Grant gives. No Grant gives None.
#[derive(Clone, Copy, Debug, PartialEq, Eq)]
pub enum GrantCap {
    ToT,
    ToB,
}

/// What an Acquire starts from and asks for.
#[derive(Clone, Copy, Debug, PartialEq, Eq)]
pub enum Grow {
    NtoB,
    NtoT,
    BtoT,
}

/// What a Release starts from and leaves.
#[derive(Clone, Copy, Debug, PartialEq, Eq)]
pub enum Prune {
    TtoB,
    TtoN,
    BtoN,
}

/// What gives up Tip: the only copies that can be dirty.
#[derive(Clone, Copy, Debug, PartialEq, Eq)]
pub enum DirtyPrune {
    TtoB,
    TtoN,
}

/// What a copy was and what it is left with.
#[derive(Clone, Copy, Debug, PartialEq, Eq)]
pub enum Report {
    TtoT,
    TtoB,
    TtoN,
    BtoB,
    BtoN,
    NtoN,
}

/// What an answer to a Probe reports: since no Probe asks for Tip, never TtoT.
#[derive(Clone, Copy, Debug, PartialEq, Eq)]
pub enum ProbeReport {
    TtoB,
    TtoN,
    BtoB,
    BtoN,
    NtoN,
}

impl Cap {
    /// The permission that it stands for.
    pub fn perm(self) -> Perm
        ensures { result ≡ cap_perm self }
    {
        match self {
            Cap::ToT => Perm::Tip,
            Cap::ToB => Perm::Branch,
            Cap::ToN => Perm::None,
        }
    }
}

impl ProbeCap {
    /// This bound as a `Cap`.
    pub fn cap(self) -> Cap
        ensures { result ≡ probe_cap self }
    {
        match self {
            ProbeCap::ToB => Cap::ToB,
            ProbeCap::ToN => Cap::ToN,
        }
    }

    /// The permission that the Probe leaves at most.
    pub fn perm(self) -> Perm
        ensures { result ≡ probe_perm self }
    {
        match self {
            ProbeCap::ToB => Perm::Branch,
            ProbeCap::ToN => Perm::None,
        }
    }
}

impl GrantCap {
    /// This bound as a `Cap`.
    pub fn cap(self) -> Cap
        ensures { result ≡ grant_cap self }
    {
        match self {
            GrantCap::ToT => Cap::ToT,
            GrantCap::ToB => Cap::ToB,
        }
    }

    /// The permission that the Grant gives.
    pub fn perm(self) -> Perm
        ensures { result ≡ grant_perm self }
    {
        match self {
            GrantCap::ToT => Perm::Tip,
            GrantCap::ToB => Perm::Branch,
        }
    }
}

impl Grow {
    /// The permission that the client has.
    pub fn from(self) -> Perm
        ensures { result ≡ grow_from self }
    {
        match self {
            Grow::NtoB | Grow::NtoT => Perm::None,
            Grow::BtoT => Perm::Branch,
        }
    }

    /// The permission that it asks for.
    pub fn to(self) -> Perm
        ensures { result ≡ grow_to self }
    {
        match self {
            Grow::NtoB => Perm::Branch,
            Grow::NtoT | Grow::BtoT => Perm::Tip,
        }
    }
}

impl Prune {
    /// The permission that the client had.
    pub fn from(self) -> Perm
        ensures { result ≡ prune_from self }
    {
        match self {
            Prune::TtoB | Prune::TtoN => Perm::Tip,
            Prune::BtoN => Perm::Branch,
        }
    }

    /// The permission that it keeps.
    pub fn to(self) -> Perm
        ensures { result ≡ prune_to self }
    {
        match self {
            Prune::TtoB => Perm::Branch,
            Prune::TtoN | Prune::BtoN => Perm::None,
        }
    }
}

impl DirtyPrune {
    /// This prune as a `Prune`.
    pub fn prune(self) -> Prune
        ensures { result ≡ dirty_prune self }
    {
        match self {
            DirtyPrune::TtoB => Prune::TtoB,
            DirtyPrune::TtoN => Prune::TtoN,
        }
    }
}

impl Report {
    /// What a copy with `perm` reports of a bound `cap`.
    pub fn of(perm: Perm, cap: Cap) -> Report
        ensures { result ≡ report_of perm cap }
    {
        match (perm, cap) {
            (Perm::Tip, Cap::ToT) => Report::TtoT,
            (Perm::Tip, Cap::ToB) => Report::TtoB,
            (Perm::Tip, Cap::ToN) => Report::TtoN,
            (Perm::Branch, Cap::ToT | Cap::ToB) => Report::BtoB,
            (Perm::Branch, Cap::ToN) => Report::BtoN,
            (Perm::None, _) => Report::NtoN,
        }
    }

    /// The permission that the copy had.
    pub fn from(self) -> Perm
        ensures { result ≡ report_from self }
    {
        match self {
            Report::TtoT | Report::TtoB | Report::TtoN => Perm::Tip,
            Report::BtoB | Report::BtoN => Perm::Branch,
            Report::NtoN => Perm::None,
        }
    }

    /// The permission that the copy is left with.
    pub fn to(self) -> Perm
        ensures { result ≡ report_to self }
    {
        match self {
            Report::TtoT => Perm::Tip,
            Report::TtoB | Report::BtoB => Perm::Branch,
            Report::TtoN | Report::BtoN | Report::NtoN => Perm::None,
        }
    }
}

impl ProbeReport {
    /// This report as a `Report`.
    pub fn report(self) -> Report
        ensures { result ≡ probe_report self }
    {
        match self {
            ProbeReport::TtoB => Report::TtoB,
            ProbeReport::TtoN => Report::TtoN,
            ProbeReport::BtoB => Report::BtoB,
            ProbeReport::BtoN => Report::BtoN,
            ProbeReport::NtoN => Report::NtoN,
        }
    }
}

impl fmt::Display for Grow {
    ghost output = { λ x. Some (grow_text x) };

    fn fmt<W: fmt::Write>(&self, f: &mut fmt::Formatter<W>) -> fmt::Result {
        match self {
            Grow::NtoB => f.write_str("NtoB"),
            Grow::NtoT => f.write_str("NtoT"),
            Grow::BtoT => f.write_str("BtoT"),
        }
    }
}

impl fmt::Display for Prune {
    ghost output = { λ x. Some (prune_text x) };

    fn fmt<W: fmt::Write>(&self, f: &mut fmt::Formatter<W>) -> fmt::Result {
        match self {
            Prune::TtoB => f.write_str("TtoB"),
            Prune::TtoN => f.write_str("TtoN"),
            Prune::BtoN => f.write_str("BtoN"),
        }
    }
}

impl fmt::Display for DirtyPrune {
    ghost output = { λ x. Some (dirty_prune_text x) };

    fn fmt<W: fmt::Write>(&self, f: &mut fmt::Formatter<W>) -> fmt::Result {
        match self {
            DirtyPrune::TtoB => f.write_str("TtoB"),
            DirtyPrune::TtoN => f.write_str("TtoN"),
        }
    }
}

impl fmt::Display for ProbeReport {
    ghost output = { λ x. Some (probe_report_text x) };

    fn fmt<W: fmt::Write>(&self, f: &mut fmt::Formatter<W>) -> fmt::Result {
        match self {
            ProbeReport::TtoB => f.write_str("TtoB"),
            ProbeReport::TtoN => f.write_str("TtoN"),
            ProbeReport::BtoB => f.write_str("BtoB"),
            ProbeReport::BtoN => f.write_str("BtoN"),
            ProbeReport::NtoN => f.write_str("NtoN"),
        }
    }
}

impl fmt::Display for ProbeCap {
    ghost output = { λ x. Some (probe_cap_text x) };

    fn fmt<W: fmt::Write>(&self, f: &mut fmt::Formatter<W>) -> fmt::Result {
        match self {
            ProbeCap::ToB => f.write_str("toB"),
            ProbeCap::ToN => f.write_str("toN"),
        }
    }
}

impl fmt::Display for GrantCap {
    ghost output = { λ x. Some (grant_cap_text x) };

    fn fmt<W: fmt::Write>(&self, f: &mut fmt::Formatter<W>) -> fmt::Result {
        match self {
            GrantCap::ToT => f.write_str("toT"),
            GrantCap::ToB => f.write_str("toB"),
        }
    }
}
