//! The top call.
ghost use Rattle.std.specs.Prelude.{◌≡◌, ◌≢◌, Err, IsErrOf};
ghost use Rattle.outside.specs.Causes.{Rose};
ghost use Rattle.author_cli.specs.Words.{texts, Form, HasForm, IsBad};
ghost use Rattle.author_cli.specs.Outside.{IsUntouched, outside_of};
ghost use Rattle.author_cli.specs.CallClauses.{Carries};
ghost use Rattle.author_cli.specs.Laws.{HaveOneForm};
ghost use Rattle.author_cli.specs.DraftLaws.{WidestSuit};

use crate::answer::write_answer;
use crate::stop::Stop;
use crate::words::read_words;
use outside::{Files, Sink};
use std::alloc::Global;

/// Does all that the program does: carries out the words over the files and the sink.
///
/// The forms of the words are `chart PLAN` and `chart PLAN LIMITS`, which write the flowchart of the file PLAN as one
/// page of HTML, without a range file or with that of the file LIMITS, `trace PLAN LIMITS NAME=VALUE ..`, which writes that
/// page with the run on these inputs in it, `ranges PLAN`, which writes a range file to begin with, `example PLAN LIMITS`,
/// which writes admitted inputs on which a run fails, or the parts of the ranges by which none does, or that neither was
/// found, `lint PLAN LIMITS`, which writes a line for each thing that the flowchart has in vain, `compare OLD NEW`, which writes
/// a page of what the flowchart of the file NEW changed against that of OLD, `compare OLD OLD_LIMITS NEW NEW_LIMITS`, which compares
/// their range files too, `text compare ..`, which writes either as a text, `text trace PLAN LIMITS NAME=VALUE ..`, which writes
/// each statement that a run on these inputs executes, `cover PLAN LIMITS TABLE`, with `--at-least N` behind it or without, which
/// writes the page with how many runs of the table come to each statement and take each exit, and `text cover ..`, which writes as
/// a text what none comes to. All other words are [`Stop::Words`]. `Ok`
/// means that all was written: it has in plain words, in one line, why a plan or a table is refused or a run has no inputs, that
/// two flowcharts differ, that a run fails or that this stays open, that runs come to less than the share asked for, and nothing
/// where none of these is so.
pub fn pap_author<F: Files, W: Sink>(
    alloc: Global,
    words: &[String],
    files: &mut F,
    sink: &mut W,
) -> Result<Option<String>, Stop>
    // The words have no form: nothing is called.
    ensures bad_words { IsBad (texts words.now)
        → result ≢ Err Stop.Memory → IsErrOf result Stop.Words }
    ensures bad_words_alone { IsErrOf result Stop.Words → IsBad (texts words.now) }
    ensures bad_words_untouched { IsBad (texts words.now)
        → IsUntouched files.old files.new sink.old sink.new }

    // A fault only where the object's count rose.
    ensures file_fault { IsErrOf result Stop.File
        → Rose (F.faults files.old) (F.faults files.new) }
    ensures write_fault { IsErrOf result Stop.Write
        → Rose (W.faults sink.old) (W.faults sink.new) }

    // The files are only read.
    ensures files_same { F.told files.new ≡ F.told files.old }

    // By the form of the words: what the call leaves as it ended (`leaves`), and the headline: while memory is there
    // and no outside call fails, what is written is the page or the range file, or the refusal in its place, and the
    // words of `Ok` say why the plan is refused, where it is.
    ensures carries { (form : Form) → HasForm (texts words.now) form → Carries form
        (outside_of F.Files W.Sink files.old sink.old)
        (outside_of F.Files W.Sink files.new sink.new) result }
{
    match read_words(alloc, words) {
        Ok(Some(request)) => write_answer(alloc, request, files, sink),
        Ok(None) => Err(Stop::Words),
        Err(_) => Err(Stop::Memory),
    }
}

/// Words have at most one form.
pub fn word_laws()
    ensures { HaveOneForm }
{}

/// The range with which an input begins in a drafted range file is one that a range file may have for its type.
pub fn draft_laws()
    ensures { WidestSuit }
{}
