//! A situation in words, as a record of events has them.

use crate::action::Action;
use crate::situation::{
    ClientView, CopyState, HomeState, HomeView, Others, Passing, Served, Situation,
};
use std::fmt;
use tl_types::{Awaited, Perm};

impl fmt::Display for Action {
    fn fmt<W: fmt::Write>(&self, f: &mut fmt::Formatter<W>) -> fmt::Result {
        match self {
            Action::Load => f.write_str("load"),
            Action::Store => f.write_str("store"),
            Action::Acquire(grow) => write!(f, "acquire {grow}"),
            Action::Release(prune) => write!(f, "release {prune}"),
            Action::AnswerProbe => f.write_str("answer_probe"),
            Action::TakeGrant => f.write_str("take_grant"),
            Action::TakeReleaseAck => f.write_str("take_release_ack"),
            Action::Accept => f.write_str("accept"),
            Action::Probe(cap) => write!(f, "probe {cap}"),
            Action::TakeC => f.write_str("take_c"),
            Action::Grant => f.write_str("grant"),
            Action::TakeGrantAck => f.write_str("take_grant_ack"),
            Action::Get => f.write_str("get"),
            Action::Serve => f.write_str("serve"),
            Action::TakeData => f.write_str("take_data"),
            Action::Drop => f.write_str("drop"),
            Action::Put => f.write_str("put"),
            Action::TakePutAck => f.write_str("take_put_ack"),
        }
    }
}

fn perm_text(perm: Perm) -> &'static str {
    match perm {
        Perm::None => "None",
        Perm::Branch => "Branch",
        Perm::Tip => "Tip",
    }
}

fn copy_text(copy: CopyState) -> &'static str {
    match copy {
        CopyState::Absent => "None",
        CopyState::Branch => "Branch",
        CopyState::Tip => "Tip",
        CopyState::DirtyTip => "Tip dirty",
    }
}

fn wait_text(wait: Awaited) -> &'static str {
    match wait {
        Awaited::Nothing => "",
        Awaited::ForGrant => ", waits for a Grant",
        Awaited::ForReleaseAck => ", waits for a ReleaseAck",
    }
}

impl fmt::Display for ClientView {
    fn fmt<W: fmt::Write>(&self, f: &mut fmt::Formatter<W>) -> fmt::Result {
        let copy = copy_text(self.copy);
        let recorded = perm_text(self.recorded);
        let wait = wait_text(self.wait);
        write!(f, "{copy}, recorded {recorded}{wait}")?;
        if self.acquire {
            f.write_str(", on A AcquireBlock")?;
        }
        if let Some(cap) = self.probe {
            write!(f, ", on B ProbeBlock {cap}")?;
        }
        if let Some(kind) = self.on_c {
            write!(f, ", on C {kind}")?;
        }
        if let Some(kind) = self.behind_on_c {
            write!(f, ", on C {kind}")?;
        }
        if let Some(kind) = self.on_d {
            write!(f, ", on D {kind}")?;
        }
        if self.grant_ack {
            f.write_str(", on E GrantAck")?;
        }
        Ok(())
    }
}

fn home_text(copy: HomeState) -> &'static str {
    match copy {
        HomeState::Absent => "no copy",
        HomeState::Clean => "clean",
        HomeState::Dirty => "dirty",
    }
}

fn passing_text(passing: Passing) -> &'static str {
    match passing {
        Passing::Nothing => "",
        Passing::Get => ", to the memory Get",
        Passing::Data => ", from the memory AccessAckData",
        Passing::Put => ", to the memory PutFullData",
        Passing::PutAck => ", from the memory AccessAck",
    }
}

impl fmt::Display for HomeView {
    fn fmt<W: fmt::Write>(&self, f: &mut fmt::Formatter<W>) -> fmt::Result {
        let copy = home_text(self.copy);
        let passing = passing_text(self.passing);
        write!(f, "{copy}{passing}")
    }
}

/// Whose Acquire home serves: of a client that acts or is acted on, or of any.
fn served_text(served: Served, has_client: bool) -> &'static str {
    match (served, has_client) {
        (Served::Nobody, _) => "",
        (Served::This, _) => "; home serves it",
        (Served::Another, true) => "; home serves another",
        (Served::Another, false) => "; home serves a client",
    }
}

impl fmt::Display for Others {
    fn fmt<W: fmt::Write>(&self, f: &mut fmt::Formatter<W>) -> fmt::Result {
        if self.probe {
            f.write_str(" Probe")?;
        }
        if self.grant {
            f.write_str(" Grant")?;
        }
        if self.release {
            f.write_str(" Release")?;
        }
        if self.acquire {
            f.write_str(" Acquire")?;
        }
        Ok(())
    }
}

impl Others {
    /// Whether anything is under way.
    pub fn is_any(&self) -> bool {
        self.probe || self.grant || self.release || self.acquire
    }
}

impl fmt::Display for Situation {
    fn fmt<W: fmt::Write>(&self, f: &mut fmt::Formatter<W>) -> fmt::Result {
        let action = self.action;
        write!(f, "{action}")?;
        if let Some(client) = &self.client {
            write!(f, "; client {client}")?;
        }
        if let Some(home) = &self.home {
            write!(f, "; home {home}")?;
        }
        f.write_str(served_text(self.served, self.client.is_some()))?;
        let others = self.others;
        if others.is_any() {
            write!(f, "; elsewhere{others}")?;
        }
        Ok(())
    }
}
