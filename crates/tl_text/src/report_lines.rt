//! The lines of a report, at the end of a text.

ghost use Rattle.std.specs.Prelude.{◌≡◌, ◌++◌, ◌≤◌, OnOk, codes, decimal, length, string_bytes};
ghost use Rattle.tl_text.specs.Report.{lines_from, answered_text, answered_line, client_lines, bank_line};
ghost use Rattle.tl_script_words.specs.Hex.{hex_text, address_text};

use crate::report::{Answered, BankLine};
use itoa::Buffer;
use std::alloc::AllocError;
use tl_script_words::{Command, push_address, push_bytes_at};

/// A whole number in decimal digits.
fn push_number(text: &mut String, number: u64) -> Result<(), AllocError>
    ensures { OnOk result (string_bytes text.new ≡ string_bytes text.old ++ decimal number) }
{
    let mut digits = Buffer::new();
    text.push_str(digits.format(number))
}

/// The verb, the address and the bytes of a load or a store.
fn push_access(text: &mut String, verb: &str, address: u32, bytes: &[u8]) -> Result<(), AllocError>
    requires { length bytes.now ≤ 8 }
    ensures { OnOk result
        (string_bytes text.new
        ≡ string_bytes text.old ++ verb.now ++ address_text address ++ codes " " ++ hex_text bytes.now) }
{
    text.push_str(verb)?;
    push_bytes_at(text, address, bytes)
}

/// A command that was answered, with the bytes that a load got or a store wrote.
fn push_answered(text: &mut String, answered: &Answered) -> Result<(), AllocError>
    ensures { OnOk result (string_bytes text.new ≡ string_bytes text.old ++ answered_text answered.now) }
{
    match &answered.command {
        Command::Load { address, len: _ } => {
            push_access(text, "load ", *address, answered.bytes.as_slice())
        }
        Command::Store { address, bytes } => {
            push_access(text, "store ", *address, bytes.as_slice())
        }
        Command::Drop { address } => {
            text.push_str("drop ")?;
            push_address(text, *address)
        }
    }
}

/// Writes the line of each command that was answered, at the end of a text. The error is want of memory; the text is
/// then of no use.
pub fn push_answers(text: &mut String, answers: &[Answered]) -> Result<(), AllocError>
    ensures { OnOk result (string_bytes text.new ≡ string_bytes text.old ++ lines_from answered_line 0 answers.now) }
{
    for (index, answered) in answers.iter().enumerate() {
        push_number(text, index as u64)?;
        text.push(' ')?;
        push_answered(text, answered)?;
        text.push('\n')?;
    }
    Ok(())
}

/// Writes the lines of each client, at the end of a text. The error is want of memory; the text is then of no use.
pub fn push_clients(text: &mut String, clients: &[Vec<Answered>]) -> Result<(), AllocError>
    ensures { OnOk result (string_bytes text.new ≡ string_bytes text.old ++ lines_from client_lines 0 clients.now) }
{
    for (client, answers) in clients.iter().enumerate() {
        text.push_str("client ")?;
        push_number(text, client as u64)?;
        text.push('\n')?;
        push_answers(text, answers)?;
    }
    Ok(())
}

/// The line of a bank.
fn push_bank(text: &mut String, bank: u64, line: &BankLine) -> Result<(), AllocError>
    ensures { OnOk result (string_bytes text.new ≡ string_bytes text.old ++ bank_line bank line.now) }
{
    text.push_str("bank ")?;
    push_number(text, bank)?;
    text.push_str(" held ")?;
    push_number(text, line.held)?;
    text.push_str(" recorded ")?;
    push_number(text, line.recorded)?;
    text.push('\n')
}

/// Writes the line of each bank, at the end of a text. The error is want of memory; the text is then of no use.
pub fn push_banks(text: &mut String, banks: &[BankLine]) -> Result<(), AllocError>
    ensures { OnOk result (string_bytes text.new ≡ string_bytes text.old ++ lines_from bank_line 0 banks.now) }
{
    for (bank, line) in banks.iter().enumerate() {
        push_bank(text, bank as u64, line)?;
    }
    Ok(())
}
