//! What is wrong with a word that is to give a value.
ghost use Rattle.std.specs.Prelude.{IfOk};
ghost use Rattle.std.specs.String.{string_bytes};
ghost use Rattle.plain_words.specs.Lines.{BeginsQuoted, IsOneLine};

use crate::lines::one_line;
use crate::number_slip::{NumberSlip, SlipWords};
use crate::quotes::write_quoted;
use pap_tree::Name;
use std::alloc::{AllocError, Global};

/// What is wrong with a word that isn't of the form NAME=VALUE, in one line of plain words that begins with the word and ends
/// with what helps: it has no `=`, or what stands on a side of its first one isn't of its form. Fails only for lack of memory.
pub fn value_words(alloc: Global, word: &[u8]) -> Result<String, AllocError>
    ensures line { IfOk result (λ words. IsOneLine (string_bytes words)) }
    ensures begins { IfOk result (λ words. BeginsQuoted word.now (string_bytes words)) }
{
    let length = word.iter().take_while(|byte| **byte != b'=').count();
    let mut fault = String::new(alloc);
    match word.get(length.saturating_add(1)..) {
        Some(value) => write_value_fault(&mut fault, &word[..length], value)?,
        None => fault.push_str("no `=`; a value stands behind its name, as PAY=2500.55")?,
    }
    let mut told = String::new(alloc);
    write_quoted(&mut told, word, 0)?;
    write!(told, " has {fault}")?;
    one_line(alloc, &told)
}

/// Appends what a word has that isn't a name and a number on the sides of its first `=`, and what helps.
fn write_value_fault(told: &mut String, name: &[u8], value: &[u8]) -> Result<(), AllocError> {
    if Name::read(name).is_none() {
        return told.push_str(
            "no name before its `=`; a name is 1 to 32 letters, digits or `_`, and doesn't begin with a digit",
        );
    }
    if value.is_empty() {
        return told.push_str(
            "nothing behind its `=`; write a number there, as PAY=2500.55, or leave the word out",
        );
    }
    match NumberSlip::of(value).words() {
        Some(SlipWords { has, help }) => write!(told, "{has}; {help}"),
        None => told.push_str(
            "no number behind its `=`; a number has digits, a point before decimal places and nothing between thousands, as 2500.55",
        ),
    }
}
