//! A message by its fields.

/// A place in a file: line and column, each counted from 1.
#[derive(Clone, Copy, Debug, PartialEq, Eq)]
pub struct Position {
    /// The line.
    pub line: u64,
    /// The character in the line.
    pub column: u64,
}

/// Where a file has what a message is about.
#[derive(Clone, Copy)]
pub struct Site<'a> {
    /// The file's name.
    pub file: &'a str,
    /// The place in it; none for the file as a whole.
    pub at: Option<Position>,
}

/// The programs whose names stand before messages of their own.
#[derive(Clone, Copy, Debug, PartialEq, Eq)]
pub enum Program {
    /// `papcalc`
    Papcalc,
    /// `pap_author`
    PapAuthor,
}

/// A message: what is wrong, where that is, and what helps.
#[derive(Clone, Copy)]
pub struct Message<'a> {
    /// What is wrong.
    pub wrong: &'a str,
    /// What helps, where that is said.
    pub help: Option<&'a str>,
    /// The program whose name stands before it, where one does.
    pub program: Option<Program>,
    /// The file that has it, where it is in one.
    pub site: Option<Site<'a>>,
    /// The line of the script that was refused, where there is one.
    pub script_line: Option<u64>,
    /// The group and the name of the refusal, as `plan Divisor`, where there is one.
    pub code: Option<&'a str>,
    /// The node of the flowchart, as `MAIN:2:3`, where the refusal has one.
    pub place: Option<&'a str>,
}
