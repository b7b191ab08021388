//! Kinds of what is known of a statement and of the exits of a test.
ghost use Rattle.std.specs.Prelude.{◌≡◌, option_map};
ghost use Rattle.flowchart_methods.specs.Marks.{is_taken, runs_counted, is_missed, is_dead, kind_words};

/// What kind of thing is known of a statement.
#[derive(Clone, Copy)]
pub enum MarkKind {
    /// Nothing.
    Nothing,
    /// A run executed it; the number is that of the first of its entries in the list of the run.
    Run(u64),
    /// Runs may come there, and something may be told of it.
    Told,
    /// Runs of those that are looked at came there.
    Came,
    /// No run of those that are looked at came there.
    Missed,
    /// No run within the ranges comes there.
    Dead,
    /// The walk over the ranges stops there: a run within them may fail.
    Failing,
}

/// What is known of an exit of a test.
#[derive(Clone, Copy)]
pub enum ExitKind {
    /// Nothing, or that a run may take it.
    Open,
    /// A run took it.
    Taken,
    /// So many runs of those that are looked at took it.
    Counted(u64),
    /// No run of those that are looked at took it.
    Missed,
    /// No run within the ranges takes it.
    Dead,
    /// The walk over the ranges did not take it before it stopped.
    Unwalked,
}

impl MarkKind {
    /// What is read aloud first of what is known of a statement. `tells` says whether there is more. `None` where nothing is read.
    pub(crate) fn words(self, tells: bool) -> Option<&'static str>
        ensures { option_map (λ words. words.now) result ≡ kind_words self tells }
    {
        match self {
            MarkKind::Nothing => None,
            MarkKind::Run(_) => Some("executed"),
            MarkKind::Told => {
                if tells {
                    Some("within the ranges")
                } else {
                    None
                }
            }
            MarkKind::Came => Some("covered"),
            MarkKind::Missed => Some("missed"),
            MarkKind::Dead => Some("dead"),
            MarkKind::Failing => Some("may fail"),
        }
    }
}

impl ExitKind {
    /// Whether a run took it.
    pub(crate) fn is_taken(self) -> bool
        ensures { result ≡ is_taken self }
    {
        matches!(self, ExitKind::Taken)
    }

    /// How many runs took it, where they are counted.
    pub(crate) fn count(self) -> Option<u64>
        ensures { result ≡ runs_counted self }
    {
        match self {
            ExitKind::Counted(count) => Some(count),
            ExitKind::Open
            | ExitKind::Taken
            | ExitKind::Missed
            | ExitKind::Dead
            | ExitKind::Unwalked => None,
        }
    }

    /// Whether no run of those that are looked at took it.
    pub(crate) fn is_missed(self) -> bool
        ensures { result ≡ is_missed self }
    {
        matches!(self, ExitKind::Missed)
    }

    /// Whether no run within the ranges takes it.
    pub(crate) fn is_dead(self) -> bool
        ensures { result ≡ is_dead self }
    {
        matches!(self, ExitKind::Dead)
    }
}
