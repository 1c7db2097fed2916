//! What stands at the foot of a trace's chart.

use std::alloc::{AllocError, Global};
use std::fmt::Write;
use tl_text::BankClosing;
use tlchart_draw::Ink;

/// The closing lines of a bank: those of the blocks that its home holds, and its own. The error is want of memory.
fn lines_of(alloc: Global, bank: usize, closing: &BankClosing) -> Result<String, AllocError> {
    let mut ink = Ink::new(alloc);
    for block in &closing.blocks {
        let _ = write!(ink, "{block}\n");
    }
    let _ = write!(
        ink,
        "bank {bank} held {} recorded {} events {}",
        closing.held, closing.recorded, closing.events
    );
    ink.text()
}

/// The closing lines of each bank. The error is want of memory.
pub(crate) fn closings(alloc: Global, banks: &[BankClosing]) -> Result<Vec<String>, AllocError> {
    let mut texts = Vec::new(alloc);
    for (bank, closing) in banks.iter().enumerate() {
        texts.push(lines_of(alloc, bank, closing)?)?;
    }
    Ok(texts)
}
