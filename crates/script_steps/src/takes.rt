//! What stands behind the first word of a script's line, by its command.
use payroll_records::MOST_VALUES;

/// What a command takes behind it.
#[derive(Clone, Copy, PartialEq, Eq)]
pub(crate) enum Takes {
    /// A day, a flowchart's file and a range file.
    Plan,
    /// A day.
    Day,
    /// An employee, a month, a day and values.
    Run,
    /// An employee, and a month or a day.
    When,
    /// The file of a table.
    Table,
    /// The file of a saved book.
    Book,
    /// A month.
    Month,
    /// Nothing.
    Nothing,
}

impl Takes {
    /// What the command of a first word takes. None where that is not a command.
    pub(crate) fn of(first: &[u8]) -> Option<Takes> {
        match first {
            b"plan" | b"try" => Some(Takes::Plan),
            b"drop" => Some(Takes::Day),
            b"add" | b"change" => Some(Takes::Run),
            b"withdraw" | b"trace" => Some(Takes::When),
            b"load" => Some(Takes::Table),
            b"open" => Some(Takes::Book),
            b"file" => Some(Takes::Month),
            b"report" | b"work" | b"owed" => Some(Takes::Nothing),
            _ => None,
        }
    }

    /// The same in words.
    pub(crate) fn words(self) -> &'static str {
        match self {
            Takes::Plan => "a day and two files",
            Takes::Day => "a day",
            Takes::Run => "an employee, a month, a day and values",
            Takes::When => "an employee, and a month or a day",
            Takes::Table | Takes::Book => "a file",
            Takes::Month => "a month",
            Takes::Nothing => "no word",
        }
    }

    /// How that is written.
    pub(crate) fn example(self) -> &'static str {
        match self {
            Takes::Plan => "2026-01-01 tax.xml tax.toml",
            Takes::Day => "2026-01-01",
            Takes::Run => "anna 2026-01 2026-01-30 PAY=2500.55",
            Takes::When => "anna 2026-01",
            Takes::Table => "pay.csv",
            Takes::Book => "saved.book",
            Takes::Month => "2026-01",
            Takes::Nothing => "alone",
        }
    }

    /// How many words that are at least.
    pub(crate) fn least(self) -> usize {
        match self {
            Takes::Plan | Takes::Run => 3,
            Takes::When => 2,
            Takes::Day | Takes::Table | Takes::Book | Takes::Month => 1,
            Takes::Nothing => 0,
        }
    }

    /// How many words that are at most.
    pub(crate) fn most(self) -> usize {
        match self {
            Takes::Run => MOST_VALUES.saturating_add(self.least()),
            _ => self.least(),
        }
    }

    /// What to think of where there are more.
    pub(crate) fn hint(self) -> &'static str {
        match self {
            Takes::Plan | Takes::Table | Takes::Book => "a file's name has no blank in it: ",
            Takes::When => "an employee is one word: ",
            _ => "",
        }
    }

    /// The place of the first file among the words of the line, the command being at 0.
    pub(crate) fn first_file(self) -> usize {
        if self == Takes::Plan { 2 } else { 1 }
    }

    /// The place of the month, where there is one.
    pub(crate) fn month_place(self) -> usize {
        if self == Takes::Month { 1 } else { 2 }
    }

    /// The place of the day, where there is one.
    pub(crate) fn day_place(self) -> usize {
        match self {
            Takes::Run => 3,
            Takes::When => 2,
            _ => 1,
        }
    }
}
