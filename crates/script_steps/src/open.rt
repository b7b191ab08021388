//! The line `open`.
ghost use Rattle.std.specs.Prelude.{◌≡◌, ◌≢◌, ◌↔◌, IfOk, IsTrue, OnErr, Ok, Err};
ghost use Rattle.std.specs.Result.{ForErr};
ghost use Rattle.outside.specs.Causes.{Caused};
ghost use Rattle.plan_answers.specs.Answers.{refusal};
ghost use Rattle.script_steps.specs.private.Replies.{reply_of};
ghost use Rattle.script_lang.specs.Commands as asked;
ghost use Rattle.script_steps.specs.OpenSteps.{IsEmpty, IsFresh, IsOpenStep};
ghost use Rattle.script_steps.specs.Standings.{StaysOrSteps};
ghost use Rattle.script_steps.specs.private.StepViews.{IsMade, IsUnmade, IsWant, ToldDoes};

use crate::edits::OK;
use crate::refusals::book_refusal;
use crate::reply::{LineReply, answered, refused};
use crate::script::Script;
use crate::stop::LineStop;
use book_file::{BookFault, MOST_BOOK_TEXT, read_book};
use outside::Files;
use plain_words::TextFile;
use recalc_engine::Book;
use std::alloc::{AllocError, Global};
use std::sync::ledger::Ledger;
use steps::Steps;

/// What is wrong with a line `open` where the book isn't empty, in plain words.
const NOT_EMPTY: &str =
    "a saved book is opened in place of an empty one, and this one has runs or plans";

/// What is wrong with it where a month was filed.
const FILED: &str = "a saved book is opened before a month is filed, and one was filed";

/// The line `open`, with its file's name.
pub(crate) fn open<F: Files, L: Ledger>(
    alloc: Global,
    script: &mut Script,
    file: &str,
    files: &mut F,
    steps: &mut Steps<L>,
) -> Result<LineReply, LineStop>
    ensures made { IfOk result (λ reply. IsMade
        (ToldDoes (F.told files.old) script.old (Ok (asked.opening file.now)))
        script.new steps.old steps.new (reply_of reply)) }
    ensures unmade { ForErr result (IsUnmade (F.told files.old)
        (ToldDoes (F.told files.old) script.old (Ok (asked.opening file.now)))
        (asked.opening file.now) steps.old steps.new (F.failed files.new)) }
    ensures left { OnErr result (StaysOrSteps
        (ToldDoes (F.told files.old) script.old (Ok (asked.opening file.now)))
        script.old script.new) }
    ensures unchanged { result ≡ Err LineStop.File → script.new ≡ script.old }
    ensures same { F.told files.new ≡ F.told files.old }
    ensures file { Caused LineStop.File (F.faults files.old) (F.faults files.new) result }
    ensures kept { result ≢ Err LineStop.File → F.failed files.new ≡ F.failed files.old }
{
    let text = files.read_front(alloc, file, MOST_BOOK_TEXT + 1)?;
    Ok(open_text(alloc, script, file, &text, steps)?)
}

/// Opens the book of a file's text in place of an empty one, of which nothing was filed.
fn open_text<L: Ledger>(
    alloc: Global,
    script: &mut Script,
    file: &str,
    text: &[u8],
    steps: &mut Steps<L>,
) -> Result<LineReply, AllocError>
    ensures made { IfOk result (λ reply. IsMade (IsOpenStep script.old text.now)
        script.new steps.old steps.new (reply_of reply)) }
    ensures lost { OnErr result
        (IsWant (IsOpenStep script.old text.now) steps.old steps.new) }
    ensures left { OnErr result
        (StaysOrSteps (IsOpenStep script.old text.now) script.old script.new) }
{
    if !is_empty(&script.book) {
        return unopened(alloc, b"book NotEmpty", NOT_EMPTY);
    }
    if script.ledger.last().is_some() {
        return unopened(alloc, b"book Filed", FILED);
    }
    open_fresh(alloc, script, file, text, steps)
}

/// Opens the book of a file's text before the first edit.
fn open_fresh<L: Ledger>(
    alloc: Global,
    script: &mut Script,
    file: &str,
    text: &[u8],
    steps: &mut Steps<L>,
) -> Result<LineReply, AllocError>
    requires { IsFresh script.old }
    ensures made { IfOk result (λ reply. IsMade (IsOpenStep script.old text.now)
        script.new steps.old steps.new (reply_of reply)) }
    ensures lost { OnErr result
        (IsWant (IsOpenStep script.old text.now) steps.old steps.new) }
    ensures left { OnErr result
        (StaysOrSteps (IsOpenStep script.old text.now) script.old script.new) }
{
    match read_book(alloc, text, steps) {
        Ok(restored) => {
            script.book = restored.book;
            Ok(answered(Vec::from_slice(alloc, OK)?, restored.work.steps))
        }
        Err(BookFault::Memory(error)) => Err(error),
        Err(fault) => {
            let saved = TextFile {
                name: file,
                bytes: text,
            };
            book_refusal(alloc, saved, &fault)
        }
    }
}

/// The refusal to open a saved book, with what is wrong in plain words.
fn unopened(alloc: Global, detail: &[u8], wrong: &str) -> Result<LineReply, AllocError>
    ensures { IfOk result (λ reply. reply_of reply ≡ refusal detail.now) }
{
    refused(alloc, detail, String::from_str(alloc, wrong)?)
}

/// Whether a book has no run and no plan.
fn is_empty(book: &Book) -> bool
    ensures { IsTrue result ↔ IsEmpty book.now }
{
    book.years().count == 0 && book.plans().is_empty()
}
