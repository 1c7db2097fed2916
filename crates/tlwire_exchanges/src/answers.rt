//! The answers to each exchange, as linked lists.
ghost use Rattle.std.specs.Prelude.{◌≡◌, ◌<◌, ℕ, length, vec_len, IfOk, IfSome, OnOk, Some, if◌then◌else◌};
ghost use Rattle.tlwire_exchanges.specs.Exchange.{answered_by, answers, is_same};
ghost use Rattle.tlwire_exchanges.specs.Opened.{AreLeft, AreWithin, HasAnswers, after, first_of, key_of, linked};
ghost use Rattle.tlwire_exchanges.specs.declared.exchange.Exchange.{Exchange};

use crate::exchange::{Exchange, answered_by};
use std::alloc::{AllocError, Global};
use std::collections::BTreeMap;
use tlwire_search::Seen;

/// An exchange as it is looked up, with its response by its number. The block comes first: it mostly tells two apart.
#[derive(Clone, Copy, Debug, PartialEq, Eq, PartialOrd, Ord)]
pub(crate) struct Key {
    block: u32,
    client: Option<u32>,
    response: u32,
}

/// The key of an exchange.
fn key_of(exchange: Exchange) -> Key
    ensures { result ≡ key_of exchange }
{
    Key {
        block: exchange.block,
        client: exchange.client,
        response: exchange.response.number(),
    }
}

/// The place of the answer after this one.
fn after(next: &[Option<usize>], place: Option<usize>) -> Option<usize>
    requires { IfSome place (λ place. place < length next.now) }
    ensures { result ≡ after next.now place }
{
    match place {
        Some(place) => next[place],
        None => None,
    }
}

/// The answers that are left to each exchange, as linked lists of their places.
#[derive(Drop)]
pub(crate) struct Answers {
    /// The first answer to each exchange.
    first: BTreeMap<Key, Option<usize>>,
    /// At the place of each answer, the next to the same exchange.
    next: Vec<Option<usize>>,
}

impl Answers {
    /// No answers: there is no line behind the last.
    fn new(alloc: Global, seen: &[Seen]) -> Result<Answers, AllocError>
        ensures { IfOk result (λ answers. HasAnswers answers (length seen.now) seen.now) }
    {
        Ok(Answers {
            first: BTreeMap::new(alloc),
            next: vec![in alloc; None; seen.len()]?,
        })
    }

    /// What was seen at a place comes before what was seen behind it.
    fn put_before(&mut self, seen: &Seen, place: usize) -> Result<(), AllocError>
        requires { place < vec_len self.old.next }
        ensures first { OnOk result
            ((e : Exchange) → first_of self.new.first e
            ≡ (if answers e seen.now then Some place else first_of self.old.first e)) }
        ensures next { OnOk result
            (self.new.next.items ≡ linked self.old.first (answered_by seen.now) place self.old.next.items) }
    {
        match answered_by(seen) {
            Some(exchange) => {
                let next = self.first.insert(key_of(exchange), Some(place))?;
                self.next[place] = next.flatten();
                Ok(())
            }
            None => Ok(()),
        }
    }

    /// The answers of what was seen. Err is a refused request for memory.
    pub(crate) fn of(alloc: Global, seen: &[Seen]) -> Result<Answers, AllocError>
        ensures { IfOk result (λ answers. AreLeft answers 0 seen.now) }
    {
        let mut answers = Answers::new(alloc, seen)?;
        for place in (0..seen.len()).rev() {
            answers.put_before(&seen[place], place)?;
        }
        Ok(answers)
    }

    /// The first answer that is left to an exchange, which is then taken.
    pub(crate) fn take(&mut self, exchange: Exchange) -> Option<usize>
        requires { AreWithin self.old }
        ensures answer { result ≡ first_of self.old.first exchange }
        ensures first { (e : Exchange) → first_of self.new.first e
            ≡ (if is_same exchange e then after self.old.next.items (first_of self.old.first e)
            else first_of self.old.first e) }
        ensures next { self.new.next.items ≡ self.old.next.items }
    {
        let first = self.first.get_mut(&key_of(exchange))?;
        let place = *first;
        *first = after(&self.next, place);
        place
    }
}
