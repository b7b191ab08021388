//! What holds of every script.
ghost use Rattle.script_run.specs.TranscriptLaws.{ScriptsHaveATranscript, ScriptsHaveOneTranscript, ScriptsLeaveBooks};

/// Every script has exactly one transcript, and leaves a book that can be saved, unless its text is too long.
pub fn transcript_laws()
    ensures some { ScriptsHaveATranscript }
    ensures one { ScriptsHaveOneTranscript }
    ensures left { ScriptsLeaveBooks }
{}
