//! What a register looks at: the protocol's state, read off the bank's layers.
ghost use Rattle.tl_bank_spec.specs.View.{end_at, shape_of};

use crate::bank::Bank;
use tl_links::Wanted;
use tl_registers::RegisterView;
use tl_types::{BlockNo, Channel};
use tl_ways::Entry;

impl RegisterView for Bank {
    ghost shape = { λ v. shape_of v.geometry };

    ghost state = { λ v. end_at v };

    fn clients(&self) -> u32 {
        self.geometry.clients()
    }

    fn entry(&self, block: BlockNo) -> Option<Entry> {
        self.home.entry(block)
    }

    fn is_probe_pending(&self, block: BlockNo) -> bool {
        self.links.some_has(Channel::B, block, Wanted::Any)
            || self.links.some_has(Channel::C, block, Wanted::ProbeAck)
    }

    fn is_grant_pending(&self, block: BlockNo) -> bool {
        self.links.some_has(Channel::D, block, Wanted::Grant)
            || self.links.some_has(Channel::E, block, Wanted::Any)
    }

    fn is_memory_quiet(&self, block: BlockNo) -> bool {
        self.home.is_quiet(block)
    }
}
