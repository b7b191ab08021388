//! What the writer of an expression may have meant where its text isn't read on.
use crate::brackets::{bracket_help, end_help};
use crate::called::{Called, called_at, called_help, write_called};
use crate::calls::{call_help, taken_by_call, unclosed_call};
use crate::casts::cast_help;
use crate::changes::{
    Change, EVAL, Given, assignment_help, change_at, given_at, lost_at, write_change, write_given,
};
use crate::control_words::control_help;
use crate::java_words::word_help;
use crate::literals::literal_help;
use crate::math::math_help;
use crate::numerals::{
    digits_of, has_grouped_number, number_behind_zeros, number_from, number_in_thousands,
    number_with_comma, parted_number, plain_number,
};
use crate::quoted::quoted_slip;
use crate::quotes::{token_at, write_quoted};
use crate::remedies::write_valued;
use crate::signs::{operand_help, plain_sign, sign_help};
use crate::sites::Source;
use crate::suffixes::suffix_help;
use crate::tokens::{Stop, is_mark};
use expr_tokens::{Sign, Token};
use pap_tree::Name;
use std::alloc::AllocError;

/// What the writer of an expression may have meant.
#[derive(Clone, Copy)]
pub(crate) enum Slip<'a> {
    /// A number, with a comma in the place of its point.
    Comma(&'a [u8]),
    /// A number, with white space between its digits.
    Parted(&'a [u8]),
    /// A number, with signs between its thousands.
    Thousands(&'a [u8]),
    /// A number, with zeros in front of these digits.
    Zeros(&'a [u8]),
    /// A number in quotation marks, which needs none there.
    Bare(&'a [u8]),
    /// A number in quotation marks that lacks its `new BigDecimal`.
    Quoted(&'a [u8]),
    /// An item of a table, as a number.
    Item(&'a [u8]),
    /// A sign or a letter that isn't of ASCII.
    Foreign(char),
    /// `J++`, or `J += K` with what stands behind the `=`.
    Change(Change<'a>),
    /// `J := 3`.
    Given(Given<'a>),
    /// An EVAL's text that gives its value to no name.
    Lost(Given<'a>),
    /// A call of this word whose bracket seems not to be closed before a comma.
    Unclosed(Name),
    /// `RATES(J)`.
    Called(Called<'a>),
    /// What is known by its help alone.
    Other(&'static str),
}

impl Slip<'_> {
    /// Appends what is written for it, where that can be spelled.
    pub(crate) fn write(&self, out: &mut String, source: Source<'_>) -> Result<(), AllocError> {
        match self {
            Slip::Comma(number) | Slip::Parted(number) | Slip::Zeros(number) | Slip::Bare(number) =>
                {
                    out.push_str("; write ")?;
                    let plain = plain_number(*out.allocator(), number)?;
                    write_quoted(out, &plain, 0)
                }
            Slip::Thousands(number) => {
                out.push_str("; write ")?;
                let digits = digits_of(*out.allocator(), number)?;
                write_quoted(out, &digits, 0)
            }
            Slip::Quoted(number) => write_quoted_number(out, number),
            Slip::Item(number) => write_valued(out, number),
            Slip::Foreign(sign) => {
                let code = u32::from(*sign);
                write!(out, "; the character there is U+{code:04X}")
            }
            Slip::Change(change) => write_change(out, source, change),
            Slip::Given(given) => write_given(out, source, "; write ", given),
            Slip::Lost(given) => write_given(out, source, "; write, for example, ", given),
            Slip::Unclosed(word) => {
                write!(out, "; it seems that the ( behind {word} isn't closed")
            }
            Slip::Called(called) => write_called(out, source, called),
            Slip::Other(_) => Ok(()),
        }
    }

    /// What helps.
    pub(crate) fn help(&self, source: Source<'_>) -> &'static str {
        match self {
            Slip::Comma(_) => "a number has a point before its decimal places, and no comma",
            Slip::Parted(_) => "a number has nothing between its digits",
            Slip::Thousands(_) => "a number has nothing between its thousands",
            Slip::Zeros(_) => "a number has no 0 in front of its digits",
            Slip::Bare(_) | Slip::Quoted(_) => {
                "a number in quotation marks stands in new BigDecimal(..) alone"
            }
            Slip::Item(_) => "an item of a table is a value of BigDecimal",
            Slip::Foreign(sign) => plain_sign(*sign),
            Slip::Change(_) => "an EVAL has one =, behind the name that is given a value",
            Slip::Given(_) => "write = for := behind the name of an EVAL",
            Slip::Lost(_) => EVAL,
            Slip::Unclosed(word) => taken_by_call(word),
            Slip::Called(called) => called_help(source, called),
            Slip::Other(help) => *help,
        }
    }
}

/// What the writer of a text may have meant where it isn't read on. `None` where that isn't known.
pub(crate) fn slip_at<'a>(stop: &Stop<'a>) -> Option<Slip<'a>> {
    if let Some(slip) = spelled_slip(stop) {
        return Some(slip);
    }
    if let Some(help) = foreign_help(stop) {
        return Some(Slip::Other(help));
    }
    if let Some(slip) = number_slip(stop) {
        return Some(slip);
    }
    if let Some(help) = place_help(stop) {
        return Some(Slip::Other(help));
    }
    match called_at(stop) {
        Some(called) => Some(Slip::Called(called)),
        None => None,
    }
}

/// What helps at what other languages have and expressions don't.
fn foreign_help(stop: &Stop<'_>) -> Option<&'static str> {
    if let Some(help) = math_help(stop) {
        return Some(help);
    }
    if let Some(help) = control_help(stop) {
        return Some(help);
    }
    if let Some(help) = cast_help(stop) {
        return Some(help);
    }
    if let Some(help) = word_help(stop) {
        return Some(help);
    }
    call_help(stop)
}

/// What can be told with what is written in its place.
fn spelled_slip<'a>(stop: &Stop<'a>) -> Option<Slip<'a>> {
    if let Some(slip) = foreign_slip(stop) {
        return Some(slip);
    }
    if let Some(change) = change_at(stop) {
        return Some(Slip::Change(change));
    }
    if let Some(given) = given_at(stop) {
        return Some(Slip::Given(given));
    }
    if let Some(given) = lost_at(stop) {
        return Some(Slip::Lost(given));
    }
    if let Some(word) = unclosed_call(stop) {
        return Some(Slip::Unclosed(word));
    }
    item_slip(stop)
}

/// What helps by what stands there and before it.
fn place_help(stop: &Stop<'_>) -> Option<&'static str> {
    if let Some(help) = suffix_help(stop) {
        return Some(help);
    }
    if let Some(help) = assignment_help(stop) {
        return Some(help);
    }
    if let Some(help) = bracket_help(stop) {
        return Some(help);
    }
    if let Some(help) = sign_help(stop) {
        return Some(help);
    }
    if let Some(help) = literal_help(stop) {
        return Some(help);
    }
    if let Some(help) = operand_help(stop) {
        return Some(help);
    }
    end_help(stop)
}

/// A number with a comma in the place of its point. What setScale has in its brackets isn't one number.
pub(crate) fn comma_slip<'a>(stop: &Stop<'a>) -> Option<Slip<'a>> {
    if let Some(call) = stop.call()
        && call.word.bytes() == b"setScale".as_slice()
    {
        return None;
    }
    match number_with_comma(stop.text, stop.at) {
        Some(number) => Some(Slip::Comma(number)),
        None => None,
    }
}

/// A character that isn't of ASCII.
fn foreign_slip<'a>(stop: &Stop<'a>) -> Option<Slip<'a>> {
    if stop.byte()?.is_ascii() {
        return None;
    }
    match str::from_utf8(token_at(stop.text, stop.at)) {
        Ok(character) => Some(Slip::Foreign(character.chars().next()?)),
        Err(_) => Some(Slip::Other(
            "the byte there isn't of UTF-8: save the file in UTF-8, and write an expression in ASCII",
        )),
    }
}

/// An item of a table that isn't a value of BigDecimal.
fn item_slip<'a>(stop: &Stop<'a>) -> Option<Slip<'a>> {
    if !begins_item(stop) {
        return None;
    }
    match stop.token()? {
        Token::Int(_) | Token::Long(_) | Token::Point(_) => {
            Some(Slip::Item(number_from(stop.text, stop.at)))
        }
        Token::Mark(Sign::CloseTable) if stop.has_mark_before(1, Sign::Comma) => Some(Slip::Other(
            "an item is missing before it, or a comma is too much",
        )),
        Token::Name(_) => Some(Slip::Other(
            "a literal has no names: write the item's own value, as BigDecimal.valueOf(5) or new BigDecimal(\"0.05\")",
        )),
        _ => Some(Slip::Other(
            "an item of a table is a value of BigDecimal, as BigDecimal.valueOf(-5) or new BigDecimal(\"0.05\")",
        )),
    }
}

/// Whether an item of a table begins there.
fn begins_item(stop: &Stop<'_>) -> bool {
    is_mark(stop.tokens, 0, Sign::OpenTable)
        && stop.call().is_none()
        && (stop.has_mark_before(1, Sign::OpenTable) || stop.has_mark_before(1, Sign::Comma))
}

/// A number that isn't written as an expression has it.
fn number_slip<'a>(stop: &Stop<'a>) -> Option<Slip<'a>> {
    if stop.byte() == Some(b'"') {
        return Some(quoted_slip(stop));
    }
    let comma = comma_slip(stop);
    if comma.is_some() {
        return comma;
    }
    if let Some(number) = number_in_thousands(stop.text, stop.at) {
        return Some(Slip::Thousands(number));
    }
    if has_grouped_number(stop.text, stop.at) {
        return Some(Slip::Other(NUMBER));
    }
    if !stop.byte()?.is_ascii_digit() {
        return None;
    }
    if let Some(number) = parted_number(stop.text, stop.at) {
        return Some(Slip::Parted(number));
    }
    if stop.byte_before() != Some(b'0') {
        return None;
    }
    match number_behind_zeros(stop.text, stop.at) {
        Some(number) => Some(Slip::Zeros(number)),
        None => None,
    }
}

/// How a number is written.
pub(crate) const NUMBER: &str =
    "a number has a point before decimal places and nothing between thousands, as 2500.55";

/// Appends that `new BigDecimal` is written round a number in quotation marks.
fn write_quoted_number(out: &mut String, number: &[u8]) -> Result<(), AllocError> {
    let number = String::from_utf8_lossy(*out.allocator(), number)?;
    let value = format!(in *out.allocator(); "new BigDecimal(\"{number}\")")?;
    out.push_str("; write ")?;
    write_quoted(out, value.as_bytes(), 0)
}
