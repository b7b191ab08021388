//! Where a refusal stands in its files, and what helps.
ghost use Rattle.std.specs.Prelude.{◌≡◌};
ghost use Rattle.plain_words.specs.private.FoundViews.{IsOfPlan, IsOfRanges, place_of, help_text};

/// One of the two files of a plan.
#[derive(Clone, Copy)]
pub(crate) enum FileKind {
    Plan,
    Ranges,
}

/// What helps where a refusal isn't that of these files.
pub(crate) const CHANGED: &str = "see whether the file has changed since";

/// Where a refusal stands, and what helps.
#[derive(Clone, Copy)]
pub(crate) struct Found {
    pub file: FileKind,
    /// The byte, where one is known.
    pub at: Option<usize>,
    /// What helps there. Of some refusals [`help_of`](crate::help::help_of) says it.
    pub help: &'static str,
    /// What is said behind that, or nothing.
    pub also: &'static str,
}

impl Found {
    /// What is found in the file of the flowchart; nothing is known that helps but that the file may have changed.
    pub(crate) fn in_plan(at: Option<usize>) -> Found
        ensures file { IsOfPlan result }
        ensures at { result.at ≡ at }
    {
        Found {
            file: FileKind::Plan,
            at,
            help: CHANGED,
            also: "",
        }
    }

    /// The same in the range file.
    pub(crate) fn in_ranges(at: Option<usize>) -> Found
        ensures file { IsOfRanges result }
        ensures at { result.at ≡ at }
    {
        Found {
            file: FileKind::Ranges,
            at,
            help: CHANGED,
            also: "",
        }
    }

    /// The same with this as what helps, and nothing behind it.
    pub(crate) fn with_help(self, help: &'static str) -> Found
        ensures file { result.file ≡ self.file }
        ensures at { result.at ≡ self.at }
        ensures place { place_of result ≡ place_of self }
        ensures help { help_text result ≡ help.now }
    {
        Found {
            help,
            also: "",
            ..self
        }
    }
}
