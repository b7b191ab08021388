//! Commands of a script.
use payroll_records::{Day, Employee, Month, Record, When};

/// What a line of a script asks for.
#[derive(Debug, Drop)]
pub enum Command {
    /// No words, or a comment.
    Nothing,
    /// `plan DAY PLANFILE LIMITFILE`: from this day on, the plan and the limits of these files.
    Plan {
        day: Day,
        plan: String,
        limits: String,
    },
    /// `drop DAY`: no longer the plan that was put on this day.
    Drop {
        day: Day,
    },
    /// `add EMP MONTH DAY NAME=VALUE ..`: one more pay run.
    Add(Record),
    /// `change EMP MONTH DAY NAME=VALUE ..`: this pay run in place of the employee's run on that day, or else of the only one
    /// in its month.
    Change(Record),
    /// `withdraw EMP WHEN`: no longer the pay run of this employee in a month or on a day.
    Withdraw {
        employee: Employee,
        when: When,
    },
    /// `load FILE`: the pay runs of a table.
    Load {
        file: String,
    },
    /// `report`
    Report,
    /// `work`
    Work,
    /// `trace EMP WHEN`: the executed statements of the pay run of this employee in a month or on a day.
    Trace {
        employee: Employee,
        when: When,
    },
    /// `file MONTH`: this month is filed.
    File {
        month: Month,
    },
    /// `owed`
    Owed,
    /// `open FILE`: the book of a saved text.
    Open {
        file: String,
    },
    /// `try DAY PLANFILE LIMITFILE`: what the plan and the limits of these files would change.
    Try {
        day: Day,
        plan: String,
        limits: String,
    },
}
