//! Java's words of control, for which a flowchart has elements.
use crate::tokens::{Form, Stop, is_mark, name_at};
use expr_tokens::Sign;

/// What helps where a text begins with a word of control, or goes on with one behind a test.
pub(crate) fn control_help(stop: &Stop<'_>) -> Option<&'static str> {
    match stop.form {
        Form::Assignment if stop.number == 1 => statement_help(stop),
        Form::Test => test_help(stop),
        _ => None,
    }
}

/// What helps where an EVAL begins with a word of control.
fn statement_help(stop: &Stop<'_>) -> Option<&'static str> {
    if is_mark(stop.tokens, 1, Sign::Equals) {
        return None;
    }
    let word = name_at(stop.tokens, 0)?;
    match word.bytes() {
        b"if" | b"IF" => Some(
            "an EVAL has no if: write <IF expr=\"J &gt; 4\"><THEN><EVAL exec=\"J = 0\"/></THEN></IF>, with its own test and assignment",
        ),
        b"else" | b"ELSE" => Some("an EVAL has no else: write it in the ELSE of an IF"),
        b"for" | b"while" | b"do" => {
            Some("an EVAL has no loop: write an EXECUTE for each turn, within IFs")
        }
        b"switch" | b"case" => {
            Some("an EVAL has no cases: write an IF for each, the next one in ELSE")
        }
        b"return" | b"break" | b"continue" => {
            Some("a method ends behind its last statement: put what isn't executed then into an IF")
        }
        _ => None,
    }
}

/// What helps where the test of an IF has a word of control.
fn test_help(stop: &Stop<'_>) -> Option<&'static str> {
    if stop.number == 1 && is_word(stop, 0, b"if") {
        return Some("the text of an IF is its test alone, as J > 4: leave the word if out");
    }
    if is_word(stop, stop.number, b"then") {
        return Some(
            "the text of an IF is its test alone: leave the word then out, and write what is executed in THEN",
        );
    }
    None
}

/// Whether the token of a number is this word, in small letters or in capitals.
fn is_word(stop: &Stop<'_>, number: usize, word: &[u8]) -> bool {
    match name_at(stop.tokens, number) {
        Some(name) => name.bytes().eq_ignore_ascii_case(word),
        None => false,
    }
}
