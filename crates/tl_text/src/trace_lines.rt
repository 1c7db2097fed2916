//! The lines of a trace, at the end of a text.

ghost use Rattle.std.specs.Prelude.{◌≡◌, ◌++◌, OnOk, string_bytes};
ghost use Rattle.std.specs.List.{flat_map};
ghost use Rattle.tl_text.specs.Report.{lines_from};
ghost use Rattle.tl_text.specs.Closing.{block_line, bank_line, closing_lines};
ghost use Rattle.tl_text.specs.Trace.{answer_line};

use crate::answer::Answer;
use crate::closing::{BankClosing, BlockLine};
use std::alloc::AllocError;
use std::fmt::Write;

/// Writes the line of a step, at the end of a text. The error is want of memory; the text is then of no use.
pub fn push_answer(text: &mut String, index: usize, answer: &Answer) -> Result<(), AllocError>
    ensures { OnOk result (string_bytes text.new ≡ string_bytes text.old ++ answer_line index answer.now) }
{
    write!(text, "{index} {answer}\n")?;
    Ok(())
}

/// Writes the line of each step, at the end of a text. The error is want of memory; the text is then of no use.
pub fn push_answers(text: &mut String, answers: &[Answer]) -> Result<(), AllocError>
    ensures { OnOk result (string_bytes text.new ≡ string_bytes text.old ++ lines_from answer_line 0 answers.now) }
{
    for (index, answer) in answers.iter().enumerate() {
        push_answer(text, index, answer)?;
    }
    Ok(())
}

/// Writes the line of each block that home holds, at the end of a text. The error is want of memory; the text is then
/// of no use.
pub fn push_blocks(text: &mut String, blocks: &[BlockLine]) -> Result<(), AllocError>
    ensures { OnOk result (string_bytes text.new ≡ string_bytes text.old ++ flat_map block_line blocks.now) }
{
    for block in blocks {
        write!(text, "{block}\n")?;
    }
    Ok(())
}

/// Writes a bank's own line, at the end of a text. The error is want of memory; the text is then of no use.
pub fn push_bank(text: &mut String, bank: usize, closing: &BankClosing) -> Result<(), AllocError>
    ensures { OnOk result (string_bytes text.new ≡ string_bytes text.old ++ bank_line bank closing.now) }
{
    write!(
        text,
        "bank {bank} held {} recorded {} events {}\n",
        closing.held, closing.recorded, closing.events
    )?;
    Ok(())
}

/// Writes the closing lines of each bank, at the end of a text. The error is want of memory; the text is then of no
/// use.
pub fn push_banks(text: &mut String, banks: &[BankClosing]) -> Result<(), AllocError>
    ensures { OnOk result (string_bytes text.new ≡ string_bytes text.old ++ lines_from closing_lines 0 banks.now) }
{
    for (bank, closing) in banks.iter().enumerate() {
        push_blocks(text, &closing.blocks)?;
        push_bank(text, bank, closing)?;
    }
    Ok(())
}
