//! The fields of a message, cut out of its line.
ghost use Rattle.std.specs.Prelude.{◌≡◌, ◌<◌, ◌+◌, ◌++◌, ◌==◌, if◌then◌else◌, not};
ghost use Rattle.std.specs.Prelude.{codes, drop, length, IsTrue, MatchOption};
ghost use Rattle.std.specs.Fmt.{decimal};
ghost use Rattle.messages.specs.Fields.{file_names, HasNoPlace, HasNoRefusal, HaveOneReading, IsReadFrom};
ghost use Rattle.messages.specs.Lines.{help_text};
ghost use Rattle.messages.specs.Turns.{HasNoTurn, IsCutAtTurn, IsFirstTurn};
ghost use Rattle.messages.specs.private.Cuts.{has_name, HasNoNumber, HasNoPosition, IsNumberCut, IsPlain, IsPlaceCut, IsPositionCut};
ghost use Rattle.messages.specs.private.Cuts.{IsProgramCut, IsScriptCut, IsSiteCut, WriteNoNumber};

use crate::cut::{behind, cut};
use crate::message::{Message, Position, Program, Site};

/// The message of a line: `papcalc: ` or `pap_author: ` where a program says it, `stdin:NUMBER: ` where it is of a line of a script,
/// `FILE:LINE:COLUMN: ` where it is of a place in a file, or `FILE: ` where it is of one of these files as a whole, what is wrong, and
/// behind the first `; ` outside of backticks what helps. Put together, the fields are the line. It has no code and no place of a node.
pub fn message_of<'a>(line: &'a str, files: &[String]) -> Message<'a>
    ensures read { IsReadFrom (file_names files.now) line.now result }
    ensures refusal { HasNoRefusal result }
{
    let (program, numbered) = read_program(line);
    let (script_line, told) = read_script_line(numbered);
    let (site, reason) = read_site(told, files);
    let (wrong, help) = split_help(reason);
    Message {
        wrong,
        help,
        program,
        site,
        script_line,
        code: None,
        place: None,
    }
}

/// The program whose name stands before these words, where one does, and what stands behind it.
fn read_program<'a>(line: &'a str) -> (Option<Program>, &'a str)
    ensures { IsProgramCut line.now result.0 result.1.now }
{
    if let Some(rest) = behind(line, "papcalc: ") {
        return (Some(Program::Papcalc), rest);
    }
    match behind(line, "pap_author: ") {
        Some(rest) => (Some(Program::PapAuthor), rest),
        None => (None, line),
    }
}

/// The number of a script's line, where these words begin with one, and what stands behind it.
fn read_script_line<'a>(line: &'a str) -> (Option<u64>, &'a str)
    ensures { IsScriptCut line.now result.0 result.1.now }
{
    let Some(numbered) = behind(line, "stdin:") else {
        return (None, line);
    };
    match read_number_to(numbered, ": ") {
        Some((number, told)) => (Some(number), told),
        None => (None, line),
    }
}

/// The file and the place in it, where these words begin with one, and what stands behind them.
fn read_site<'a>(told: &'a str, files: &[String]) -> (Option<Site<'a>>, &'a str)
    ensures { IsSiteCut (file_names files.now) told.now result.0 result.1.now }
{
    match read_place(told) {
        Some((site, reason)) => (Some(site), reason),
        None => read_file(told, files),
    }
}

/// A place in a file, where these words begin with one, and what stands behind it.
fn read_place<'a>(told: &'a str) -> Option<(Site<'a>, &'a str)>
    ensures { MatchOption result (HasNoPlace told.now)
        (λ both. IsPlaceCut told.now both.0 both.1.now) }
{
    let (file, rest) = cut(told, ":")?;
    let (position, reason) = read_position(rest)?;
    let site = Site {
        file,
        at: Some(position),
    };
    Some((site, reason))
}

/// A line, a column and what stands behind them, where these words begin so.
fn read_position<'a>(text: &'a str) -> Option<(Position, &'a str)>
    ensures { MatchOption result (HasNoPosition text.now)
        (λ both. IsPositionCut text.now both.0 both.1.now) }
{
    let (line, rest) = read_number_to(text, ":")?;
    let (column, reason) = read_number_to(rest, ": ")?;
    Some((Position { line, column }, reason))
}

/// One of these files, where words without a place in a file begin with its name, and what stands behind it.
fn read_file<'a>(told: &'a str, files: &[String]) -> (Option<Site<'a>>, &'a str)
    requires { HasNoPlace told.now }
    ensures { IsSiteCut (file_names files.now) told.now result.0 result.1.now }
{
    let Some((file, reason)) = cut(told, ": ") else {
        return (None, told);
    };
    if is_one_of(file, files) {
        (Some(Site { file, at: None }), reason)
    } else {
        (None, told)
    }
}

/// Whether this is the name of one of these files.
fn is_one_of(file: &str, files: &[String]) -> bool
    ensures { result ≡ has_name files.now file.now }
{
    files.iter().any(|name| name.as_str() == file)
}

/// The number up to this mark, which begins with a colon, where the words begin so, and what stands behind the mark.
fn read_number_to<'a>(text: &'a str, mark: &str) -> Option<(u64, &'a str)>
    requires { mark.now ≡ codes ":" ++ drop 1 mark.now }
    ensures { MatchOption result (HasNoNumber mark.now text.now)
        (λ both. IsNumberCut mark.now text.now both.0 both.1.now) }
{
    let (digits, rest) = cut(text, mark)?;
    let number = read_number(digits)?;
    Some((number, rest))
}

/// The number that these digits write, as the programs write numbers.
fn read_number(digits: &str) -> Option<u64>
    ensures { MatchOption result (WriteNoNumber digits.now)
        (λ number. digits.now ≡ decimal number) }
{
    let Ok(number) = digits.parse::<u64>() else {
        return None;
    };
    if is_plain(digits.as_bytes()) {
        Some(number)
    } else {
        None
    }
}

/// Whether no plus sign stands before the digits, and no zero before others.
fn is_plain(digits: &[u8]) -> bool
    ensures plain { IsTrue result → IsPlain digits.now }
    ensures alone { IsPlain digits.now → IsTrue result }
{
    match digits.first() {
        Some(first) => *first != b'+' && (*first != b'0' || digits.len() == 1),
        None => true,
    }
}

/// What is wrong, and what helps.
fn split_help<'a>(reason: &'a str) -> (&'a str, Option<&'a str>)
    ensures words { reason.now ≡ result.0.now ++ help_text result.1 }
    ensures turn { IsCutAtTurn result.0.now result.1 }
{
    match first_turn(reason.as_bytes()) {
        Some(turn) => {
            let wrong = &reason[..turn];
            let help = &reason[turn + 2..];
            (wrong, Some(help))
        }
        None => (reason, None),
    }
}

/// Where the words turn to what helps: at the first `; ` outside of backticks.
fn first_turn(reason: &[u8]) -> Option<usize>
    ensures { MatchOption result (HasNoTurn reason.now) (λ at. IsFirstTurn reason.now at) }
{
    let mut quoted = false;
    for (at, byte) in reason.iter().enumerate() {
        if !quoted && begins_help(reason, at) {
            return Some(at);
        }
        quoted = is_quoted_behind(quoted, *byte);
    }
    None
}

/// Whether a semicolon and a space stand there.
fn begins_help(reason: &[u8], at: usize) -> bool
    requires { at < length reason.now }
    ensures marked { IsTrue result → drop at reason.now ≡ codes "; " ++ drop (at + 2) reason.now }
    ensures alone { drop at reason.now ≡ codes "; " ++ drop (at + 2) reason.now → IsTrue result }
{
    reason[at..].starts_with(b"; ")
}

/// Whether a quotation is open behind this byte: a backtick opens or ends one.
fn is_quoted_behind(quoted: bool, byte: u8) -> bool
    ensures { result ≡ (if byte == 0x60 then not quoted else quoted) }
{
    if byte == b'`' { !quoted } else { quoted }
}

/// The law of a message's fields: all messages that are read from one line have the same.
pub fn reading_laws()
    ensures once { HaveOneReading }
{}
