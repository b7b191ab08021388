//! The words of a line.
ghost use Rattle.std.specs.Prelude.{◌≡◌, ◌≢◌, ◌++◌, false, IfOk, IsTrue, MatchOption};
ghost use Rattle.std.specs.List.{list_all};
ghost use Rattle.memchr.specs.Find.{IsFirstByte};
ghost use Rattle.script_lang.specs.Lines as lines;
ghost use Rattle.script_lang.specs.Lines.{text_of};
ghost use Rattle.script_lang.specs.private.Views.{counted, texts, verb_of};
ghost use Rattle.script_lang.specs.Words.{is_space_or_tab, is_file, is_visible, words_in_line};

use memchr::memchr2;
use std::alloc::{AllocError, Global};
use std::str;

/// The most bytes of a file's name.
const LONGEST_FILE: usize = 255;

/// About how many bytes of a line with many words a word takes, with its blank. It only says how much room is made for words at first.
const USUAL_WORD: usize = 8;

/// The first word of a command.
#[derive(Clone, Copy)]
pub(crate) enum Verb {
    Plan,
    Drop,
    Add,
    Change,
    Withdraw,
    Load,
    Report,
    Work,
    Trace,
    File,
    Owed,
    Open,
    Try,
}

/// The words of a line.
pub(crate) fn words(alloc: Global, line: &[u8]) -> Result<Vec<&[u8]>, AllocError>
    ensures { IfOk result (λ words. texts words.items ≡ words_in_line line.now) }
{
    let mut words = Vec::with_capacity(alloc, line.len() / USUAL_WORD + 1)?;
    let mut rest = line;
    'words: loop {
        let Some(at) = first_blank(rest) else {
            return with_word(words, rest);
        };
        words = with_word(words, &rest[..at])?;
        rest = &rest[at + 1..];
    }
}

/// The words with one more part of the line, where it is a word.
fn with_word<'a>(mut words: Vec<&'a [u8]>, part: &'a [u8]) -> Result<Vec<&'a [u8]>, AllocError>
    ensures { IfOk result (λ more. texts more.items ≡ texts words.entry.items ++ counted part.now) }
{
    if !part.is_empty() {
        words.push(part)?;
    }
    Ok(words)
}

/// The place of the first space or tab.
fn first_blank(text: &[u8]) -> Option<usize>
    ensures { IsFirstByte is_space_or_tab text.now result }
{
    memchr2(b' ', b'\t', text)
}

/// The command that a first word is of.
pub(crate) fn read_verb(word: &[u8]) -> Option<Verb>
    ensures { MatchOption result ((verb : lines.Verb) → word.now ≢ text_of verb)
        (λ verb. word.now ≡ text_of (verb_of verb)) }
{
    match word {
        b"plan" => Some(Verb::Plan),
        b"drop" => Some(Verb::Drop),
        b"add" => Some(Verb::Add),
        b"change" => Some(Verb::Change),
        b"withdraw" => Some(Verb::Withdraw),
        b"load" => Some(Verb::Load),
        b"report" => Some(Verb::Report),
        b"work" => Some(Verb::Work),
        b"trace" => Some(Verb::Trace),
        b"file" => Some(Verb::File),
        b"owed" => Some(Verb::Owed),
        b"open" => Some(Verb::Open),
        b"try" => Some(Verb::Try),
        _ => None,
    }
}

/// The file that a word names: at most 255 bytes from 0x21 to 0x7E.
pub(crate) fn file(word: &[u8]) -> Option<&str>
    ensures { MatchOption result (is_file word.now ≡ false)
        (λ name. (name.now ≡ word.now) × IsTrue (is_file word.now)) }
{
    if !is_file(word) {
        return None;
    }
    str::from_utf8(word).ok()
}

/// Whether a word names a file.
fn is_file(word: &[u8]) -> bool
    ensures { result ≡ is_file word.now }
{
    word.len() <= LONGEST_FILE && has_visible_bytes(word)
}

/// Whether all bytes of a word are visible ASCII characters.
fn has_visible_bytes(word: &[u8]) -> bool
    ensures { result ≡ list_all is_visible word.now }
{
    word.iter().all(|b| b.is_ascii_graphic())
}
