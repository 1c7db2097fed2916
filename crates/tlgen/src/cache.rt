//! The banks of a cache, and the next step that they accept.
use crate::any::push_step;
use crate::certify::is_refused;
use crate::dice::Dice;
use crate::spots::Spots;
use std::alloc::{AllocError, Global};
use std::marker::Model;
use tl_map::Geometry;
use tl_script_words::{ParseError, Step};
use tl_text::Answer;
use tl_trace::Network;
use tl_types::Ticket;

/// How many steps are asked where the banks refuse them.
const TRIES: u32 = 1000;

/// One step in so many may be one that its bank refuses.
const REFUSED: u32 = 8;

/// Every bank, and the tickets that were sent and not yet taken. Its model says nothing: what is chosen is played back
/// before it is told.
#[derive(Drop)]
pub(crate) struct Cache {
    network: Network,
    sent: Vec<Ticket>,
}

impl Model for Cache {
    ghost Value = { Unit {0} };

    ghost view = { λ _. tt };
}

/// The words of a step that was asked of its bank, and whether that refused it.
#[derive(Drop)]
pub(crate) struct Chosen {
    pub(crate) words: String,
    pub(crate) is_refused: bool,
}

impl Cache {
    /// All banks at reset. Their memory has no image, since what a bank accepts depends on no byte.
    pub(crate) fn new(alloc: Global, geometry: Geometry) -> Result<Cache, AllocError> {
        Ok(Cache {
            network: Network::new(alloc, geometry, &[])?,
            sent: Vec::new(alloc),
        })
    }

    /// Asks any steps until one is accepted; now and then the first is chosen though it is refused. None where all were
    /// refused. An error is a request for memory that was refused.
    pub(crate) fn choose(
        &mut self,
        alloc: Global,
        dice: &mut Dice,
        spots: &Spots,
        index: u32,
    ) -> Result<Option<Chosen>, AllocError> {
        let takes_refused = dice.below(REFUSED) == 0;
        for _ in 0..TRIES {
            let mut words = String::new(alloc);
            push_step(&mut words, dice, spots, &self.sent)?;
            if let Some(is_refused) = self.ask_words(alloc, &words, index)? {
                if !is_refused || takes_refused {
                    return Ok(Some(Chosen { words, is_refused }));
                }
            }
        }
        Ok(None)
    }

    /// Asks the step that words write, and says whether it was refused. None where they write no step.
    fn ask_words(
        &mut self,
        alloc: Global,
        words: &str,
        index: u32,
    ) -> Result<Option<bool>, AllocError> {
        match Step::parse(alloc, words) {
            Ok(step) => Ok(Some(self.ask(&step, index)?)),
            Err(ParseError::Malformed) => Ok(None),
            Err(ParseError::Memory) => Err(AllocError),
        }
    }

    /// Asks a step of the bank that it names, and says whether that refused it.
    fn ask(&mut self, step: &Step, index: u32) -> Result<bool, AllocError> {
        let answer = self.network.step(index, step)?;
        if is_refused(&answer) {
            return Ok(true);
        }
        self.note(step, &answer)?;
        Ok(false)
    }

    /// Keeps the ticket of what was sent, and lets go that of what was taken.
    fn note(&mut self, step: &Step, answer: &Answer) -> Result<(), AllocError> {
        if let Step::Ticket(_, taken) = step {
            self.sent.retain(|ticket| *ticket != *taken);
        }
        if let Answer::Sent { ticket, .. } = answer {
            self.sent.push(*ticket)?;
        }
        Ok(())
    }
}
