//! Where things are drawn, in pixels.

use tlchart_model::{Change, Chart, Lifeline};

/// Of the first lifeline.
const FIRST: usize = 330;

/// From a lifeline to the next.
const GAP: usize = 220;

/// Of the first row, and from a row to the next.
const TOP: usize = 136;

pub(crate) const ROW: usize = 30;

/// What a row takes comes in above its middle, and what it sends leaves below.
const ASIDE: usize = 8;

/// From a lifeline to the ends of arrows, which leaves room for a band.
pub(crate) const REACH: usize = 6;

/// From a lifeline to words, which leaves room for the head of an arrow.
pub(crate) const BESIDE: usize = 19;

/// The column of a lifeline: clients, homes, the memory.
fn column(chart: &Chart, lifeline: Lifeline) -> usize {
    let clients = chart.clients as usize;
    match lifeline {
        Lifeline::Client(client) => client.index(),
        Lifeline::Home(bank) => clients.saturating_add(bank.index()),
        Lifeline::Memory => clients.saturating_add(chart.banks as usize),
    }
}

/// Where a lifeline is, from the left.
pub(crate) fn x(chart: &Chart, lifeline: Lifeline) -> usize {
    FIRST.saturating_add(GAP.saturating_mul(column(chart, lifeline)))
}

/// The middle of a row, from the top.
pub(crate) fn y(row: usize) -> usize {
    TOP.saturating_add(ROW.saturating_mul(row))
}

/// Where a row's message arrives.
pub(crate) fn y_taken(row: usize) -> usize {
    y(row).saturating_sub(ASIDE)
}

/// Where a row's message leaves.
pub(crate) fn y_sent(row: usize) -> usize {
    y(row).saturating_add(ASIDE)
}

/// The width of the whole.
pub(crate) fn width(chart: &Chart) -> usize {
    x(chart, Lifeline::Memory).saturating_add(70)
}

/// The row where a change's permission ends: that of the client's next change, or the end of the chart.
pub(crate) fn until(chart: &Chart, change: Change) -> usize {
    let mut end = chart.turns.len();
    for other in &chart.changes {
        if other.client == change.client && other.row > change.row && other.row < end {
            end = other.row;
        }
    }
    end
}
