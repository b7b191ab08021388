//! Going on from a saved book.
ghost use Rattle.script_steps.specs.GoingOn.{AnswersFollowBooks, AnswersFollowFiles, CutScriptsGoOn, ScriptJobsAreSafe};
ghost use Rattle.script_steps.specs.GoingOn.{ScriptsMakeBooks};

/// What lines answer follows from the book, from what was filed, and from the files that they name. A script that
/// is cut behind any line, before a month was filed, has the same further answers as one that opens the book which
/// was saved there. Every book that lines make can be saved, unless its text is too long, and each of its jobs runs
/// to its end.
pub fn going_on_laws()
    ensures made { ScriptsMakeBooks }
    ensures safe { ScriptJobsAreSafe }
    ensures books { AnswersFollowBooks }
    ensures files { AnswersFollowFiles }
    ensures cut { CutScriptsGoOn }
{}
