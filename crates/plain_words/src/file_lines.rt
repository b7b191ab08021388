//! The lines of a file, and what they begin with.
ghost use Rattle.std.specs.Prelude.{◌≡◌, ◌≢◌, ◌≤◌, ◌++◌, ℕ, List, MatchOption, IsTrue, length};
ghost use Rattle.std.specs.List.{prefix_len, take_while};
ghost use Rattle.plain_words.specs.Lines.{EndsWith};
ghost use Rattle.plain_words.specs.Positions.{is_line_feed};
ghost use Rattle.plain_words.specs.EntryPlaces.{is_no_line_feed, line_from, IsLineStart};

/// Whether a line of a text begins at a byte.
pub(crate) fn begins_line(text: &[u8], at: usize) -> bool
    requires { at ≤ length text.now }
    ensures { IsTrue result → IsLineStart text.now at }
{
    at == 0 || text[at - 1] == b'\n'
}

/// The line that begins at a byte, without the blanks before it.
pub(crate) fn line_at(text: &[u8], at: usize) -> &[u8]
    requires { at ≤ length text.now }
    ensures { EndsWith result.now (line_from text.now at) }
{
    trimmed(front_line(&text[at..]))
}

/// The line with which a text begins.
fn front_line(text: &[u8]) -> &[u8]
    ensures { result.now ≡ take_while is_no_line_feed text.now }
{
    text.split_at(line_len(text)).0
}

/// How many bytes the line has with which a text begins.
fn line_len(text: &[u8]) -> usize
    ensures count { result ≡ prefix_len is_no_line_feed text.now }
    ensures within { result ≤ length text.now }
{
    text.iter()
        .take_while(|byte| is_no_line_feed(**byte))
        .count()
}

/// Whether a byte doesn't end a line.
fn is_no_line_feed(byte: u8) -> bool
    ensures { result ≡ is_no_line_feed byte }
{
    byte != b'\n'
}

/// A text without the blanks before it.
pub(crate) fn trimmed(text: &[u8]) -> &[u8]
    ensures { EndsWith result.now text.now }
{
    text.trim_ascii_start()
}

/// What stands behind a word with which a text begins.
pub(crate) fn behind_word<'a>(text: &'a [u8], word: &[u8]) -> Option<&'a [u8]>
    ensures { MatchOption result ((rest : List ℕ) → text.now ≢ word.now ++ rest)
        (λ rest. text.now ≡ word.now ++ rest.now) }
{
    text.strip_prefix(word)
}

/// What stands behind a word with which a text begins, or else the text.
pub(crate) fn without<'a>(text: &'a [u8], word: &[u8]) -> &'a [u8]
    ensures { EndsWith result.now text.now }
{
    match behind_word(text, word) {
        Some(rest) => rest,
        None => text,
    }
}
