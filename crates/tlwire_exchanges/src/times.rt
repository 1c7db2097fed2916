//! How long exchanges are open, by the cycles of what was seen.
ghost use Rattle.std.specs.Prelude.{◌≡◌};
ghost use Rattle.tlwire_exchanges.specs.Times.{cycle_at, first, is_longer, is_open, longer, longest_closed, open_for, until};

use crate::opened::Opened;

impl Opened {
    /// Whether no line answers it.
    pub fn is_open(self) -> bool
        ensures { result ≡ is_open self }
    {
        self.answer.is_none()
    }

    /// For how many cycles it is open, by the cycle of each thing seen and that of the record's last line: until its
    /// answer, or to the end; 0 where its answer was written before it.
    pub fn open_for(self, cycles: &[u32], end: u32) -> u32
        ensures { result ≡ open_for cycles.now end self }
    {
        let since = cycle_at(cycles, self.place);
        until(cycles, end, self.answer).saturating_sub(since)
    }
}

/// The cycle of what was seen at a place; 0 where nothing was.
pub fn cycle_at(cycles: &[u32], place: usize) -> u32
    ensures { result ≡ cycle_at cycles.now place }
{
    match cycles.get(place) {
        Some(cycle) => *cycle,
        None => 0,
    }
}

/// Until when an exchange is open: its answer, or the record's last line.
fn until(cycles: &[u32], end: u32, answer: Option<usize>) -> u32
    ensures { result ≡ until cycles.now end answer }
{
    match answer {
        Some(place) => cycle_at(cycles, place),
        None => end,
    }
}

/// Of the longest wait that was answered so far, and an exchange, the longer.
fn longer(cycles: &[u32], end: u32, best: Option<Opened>, opened: Opened) -> Option<Opened>
    ensures { result ≡ longer cycles.now end best opened }
{
    match best {
        None => { if opened.is_open() { None } else { Some(opened) } }
        Some(best) => {
            if !opened.is_open() && best.open_for(cycles, end) < opened.open_for(cycles, end) {
                Some(opened)
            } else {
                Some(best)
            }
        }
    }
}

/// Whether an exchange is open for more than so many cycles.
fn is_longer(cycles: &[u32], end: u32, most: u32, opened: Opened) -> bool
    ensures { result ≡ is_longer cycles.now end most opened }
{
    most < opened.open_for(cycles, end)
}

/// The first exchange that no line answers.
pub fn first_open(exchanges: &[Opened]) -> Option<Opened>
    ensures { result ≡ first is_open exchanges.now }
{
    for opened in exchanges {
        if opened.is_open() {
            return Some(*opened);
        }
    }
    None
}

/// The first exchange that is open for more than so many cycles.
pub fn first_longer(cycles: &[u32], end: u32, most: u32, exchanges: &[Opened]) -> Option<Opened>
    ensures { result ≡ first (is_longer cycles.now end most) exchanges.now }
{
    for opened in exchanges {
        if is_longer(cycles, end, most, *opened) {
            return Some(*opened);
        }
    }
    None
}

/// The longest wait of those that were answered, the first of several.
pub fn longest_closed(cycles: &[u32], end: u32, exchanges: &[Opened]) -> Option<Opened>
    ensures { result ≡ longest_closed cycles.now end exchanges.now }
{
    let mut best = None;
    for opened in exchanges {
        best = longer(cycles, end, best, *opened);
    }
    best
}
