//! Where clients gain and lose permissions to a block.
ghost use Rattle.std.specs.Prelude.{◌≡◌, IfOk};
ghost use Rattle.tlchart_model.specs.Change.{change_by, change_in, changes_of, where_sent, where_taken};

use crate::arrow::Arrow;
use crate::lifeline::Lifeline;
use std::alloc::{AllocError, Global};
use tl_types::{BlockNo, Kind, Perm};

/// From this row on a client has this permission to the block of the chart, until its next change.
#[derive(Clone, Copy, Debug, PartialEq, Eq)]
pub struct Change {
    pub row: usize,
    pub client: Lifeline,
    pub perm: Perm,
}

/// The receiver has a permission from the row where it takes the message, if it does.
fn where_taken(arrow: &Arrow, perm: Perm) -> Option<Change>
    ensures { result ≡ where_taken arrow.now perm }
{
    match arrow.taken {
        Some(row) => Some(Change {
            row,
            client: arrow.message.to,
            perm,
        }),
        None => None,
    }
}

/// The sender has a permission from the row where it sends the message.
fn where_sent(arrow: &Arrow, perm: Perm) -> Option<Change>
    ensures { result ≡ where_sent arrow.now perm }
{
    Some(Change {
        row: arrow.sent,
        client: arrow.message.from,
        perm,
    })
}

/// What a message changes for the client that sends or takes it.
fn change_by(arrow: &Arrow) -> Option<Change>
    ensures { result ≡ change_by arrow.now arrow.now.message.kind }
{
    match arrow.message.kind {
        Kind::Grant(cap) | Kind::GrantData(cap) => where_taken(arrow, cap.perm()),
        Kind::ProbeAck(report) => where_sent(arrow, report.report().to()),
        Kind::ProbeAckData(prune) | Kind::ReleaseData(prune) => {
            where_sent(arrow, prune.prune().to())
        }
        Kind::Release(prune) => where_sent(arrow, prune.to()),
        _ => None,
    }
}

/// What a message about the block changes.
fn change_in(block: BlockNo, arrow: &Arrow) -> Option<Change>
    ensures { result ≡ change_in block arrow.now }
{
    if arrow.message.block == block {
        change_by(arrow)
    } else {
        None
    }
}

/// What each message about the block changes, in the order of the messages.
pub(crate) fn changes(
    alloc: Global,
    block: BlockNo,
    arrows: &[Arrow],
) -> Result<Vec<Change>, AllocError>
    ensures { IfOk result (λ changes. changes.items ≡ changes_of block arrows.now) }
{
    arrows
        .iter()
        .filter_map(|arrow| change_in(block, arrow))
        .collect(alloc)
}
