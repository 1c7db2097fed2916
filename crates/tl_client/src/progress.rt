//! What a turn has come to so far.
ghost use Rattle.std.specs.Prelude.{◌≡◌, ◌≢◌, IfOk, OnOk, false};
ghost use Rattle.tl_bank_spec.specs.declared.refusal.Refusal.TheVariants.{Memory};

use std::alloc::AllocError;
use tl_bank::Refusal;

/// Whether a turn worked, and whether the next one has something to do whatever the bell says.
#[derive(Drop)]
pub(crate) struct Progress {
    worked: bool,
    again: bool,
}

impl Progress {
    /// Before the first turn, which has something to do.
    pub(crate) fn new() -> Progress {
        Progress {
            worked: false,
            again: true,
        }
    }

    /// A turn begins.
    pub(crate) fn begin(&mut self) {
        self.worked = false;
        self.again = false;
    }

    /// Whether a call succeeded in this turn.
    pub(crate) fn has_worked(&self) -> bool {
        self.worked
    }

    /// Whether the next turn has something to do.
    pub(crate) fn is_due(&self) -> bool {
        self.again
    }

    /// The next turn has something to do.
    pub(crate) fn go_on(&mut self) {
        self.again = true;
    }

    /// A call succeeded.
    pub(crate) fn succeed(&mut self) {
        self.worked = true;
        self.again = true;
    }

    /// A call was refused. Want of memory is an error, and where a channel was full the next turn asks again.
    pub(crate) fn refuse(&mut self, refusal: Refusal) -> Result<(), AllocError>
        ensures { OnOk result (refusal ≢ Memory) }
    {
        match refusal {
            Refusal::Memory => return Err(AllocError),
            Refusal::LinkFull => self.again = true,
            _ => {}
        }
        Ok(())
    }

    /// A ticket was refused, so it was not served. Want of memory is an error.
    pub(crate) fn refused(&mut self, refusal: Refusal) -> Result<bool, AllocError>
        ensures { IfOk result (λ served. (served ≡ false) × (refusal ≢ Memory)) }
    {
        self.refuse(refusal)?;
        Ok(false)
    }
}
