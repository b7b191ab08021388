//! Runs a wage tax flowchart from the command line.
#![tactic(auto)]

ghost use Rattle.std.specs.Prelude.{◌≡◌};

mod wrong_words;

use crate::wrong_words::{file_help, what_is_wrong};
use messages::{AnswerSink, LastRefusal, MessageForm, MessageSink};
use outside::{
    FailedFile, Files, RealFiles, Sink, SinkFault, Source, SourceFault, StdSink, StdSource,
};
use pap_cli::{LineCounts, Status, papcalc_told};
use plain_words::one_line;
use std::alloc::{AllocError, Global};
use std::env;
use std::io::{self, ErrorKind};
use std::marker::Brand;
use std::process::ExitCode;
use std::sync::ledger::{Blank, Ledger};
use steps::Steps;

const USAGE: &str = "usage: papcalc check PLAN LIMITS
       papcalc once PLAN LIMITS NAME=VALUE ..
       papcalc run < SCRIPT
       papcalc save < SCRIPT
       papcalc sample N
       papcalc --help";

/// The variable of the environment that says in which form messages are written.
const MESSAGES: &str = "PAPCALC_MESSAGES";

/// What is said where `save` has not saved a book of which a month was filed.
const UNSAVED_FILED: &str =
    "papcalc: the book isn't saved, since a month was filed; save before the first `file`, and file again in the next script";

/// What is said where it has not saved one whose text is too long.
const UNSAVED_LONG: &str =
    "papcalc: the book isn't saved, since its text would have more than 268435456 bytes; split its runs by employee into several \
    books";

/// What is said where it has not saved the book of a script with refused lines.
const UNSAVED_LINES: &str =
    "papcalc: the book isn't saved, since lines of the script are refused; their answers are written in its place";

/// The program's version, and the checksum of the prover's rules by which its contracts are proved.
const VERSION: &str = "papcalc 1.0.0 (rules dac8208d650f15bf)";

/// The answer to `--help`: a screen of 80 columns.
const HELP: &str = "papcalc checks a German wage tax flowchart, runs it, and keeps a payroll report
up to date under corrections.

usage:
  papcalc check PLAN LIMITS    say whether every run is safe on inputs within
                               their ranges, and between which values each
                               output lies
  papcalc once PLAN LIMITS NAME=VALUE ..
                               run the flowchart once on these inputs, at most
                               256; one that isn't given has its default
  papcalc run < SCRIPT         carry out a script line by line
  papcalc save < SCRIPT        carry out a script, and write the book that it
                               leaves in place of its answers
  papcalc sample N             run a made-up payroll of N employees, 1 to 200
  papcalc --help               write this text (-h and help do it too)
  papcalc --version            write the program's version (-V does it too)

PLAN is the file of a flowchart in the ministry's pseudocode (XML), LIMITS a
range file (TOML): [input.NAME] with low, high and places (decimal places).

lines of a script (DAY 2026-01-31, MONTH 2026-01, WHEN either, EMP a word):
  plan DAY PLAN LIMITS         from this day on this flowchart holds, at most to
                               the end of its year
  drop DAY                     take the flowchart of this day away
  add EMP MONTH DAY NAME=VALUE ..
                               a pay run of the employee on this day
  change EMP MONTH DAY NAME=VALUE ..
                               in place of the run of this day, or else of the
                               only one in the month
  withdraw EMP WHEN            take that run away
  load FILE                    the pay runs of a CSV table
  open FILE                    a saved book, in place of an empty one
  report                       all runs with their outputs, as CSV
  work                         what the last edit had to run: runs and steps
  trace EMP WHEN               each executed statement of a run
  file MONTH                   the amounts that are filed with this month
  owed                         what differs from what was filed
  try DAY PLAN LIMITS          what `plan` would change, without changing it
  # ..                         nothing: a comment

A refusal is one line that begins with `refused`, and changes nothing. Standard
error says in plain words what is wrong, where it is, and what helps.

It ends with 0 where all was written, 1 where something of that is a refusal,
2 where the words are none of these, 3 where a file can't be read, 4 where
standard input can't be read, 5 where the output can't be written, 6 where
memory runs out, 7 where the script is longer than 67108864 bytes.

The manual page says more: man papcalc";

/// Runs the words, and counts the steps of the run.
fn counted<L: Ledger, F: Files, R: Source, W: Sink, N: Sink>(
    alloc: Global,
    words: &[String],
    files: &mut F,
    source: &mut R,
    sink: &mut W,
    notes: &mut N,
    counts: &mut LineCounts,
    blank: Blank,
) -> Status
    requires name { blank.name ≡ L.name }
    requires parts { blank.parts ≡ L.parts }
    requires one { blank.parts ≡ 1 }
{
    let mut steps = Steps::<L>::new(blank);
    papcalc_told(alloc, words, files, source, sink, notes, counts, &mut steps)
}

/// The words after the program's name.
fn words_of(rt: &HostRuntime) -> io::Result<Vec<String>> {
    let mut words = Vec::new(rt.alloc());
    for word in env::args(rt)?.skip(1) {
        words.push(word)?;
    }
    Ok(words)
}

/// What the program answers by itself: its help and its version, each as the only word.
fn own_answer(words: &[String]) -> Option<&'static str> {
    let [word] = words else {
        return None;
    };
    match word.as_str() {
        "--help" | "-h" | "help" => Some(HELP),
        "--version" | "-V" => Some(VERSION),
        _ => None,
    }
}

/// The form that the environment asks for.
fn form_of(rt: &HostRuntime) -> MessageForm {
    match env::var(rt, MESSAGES) {
        Ok(word) => MessageForm::named(word.as_str()),
        Err(_) => MessageForm::Words,
    }
}

/// Says on standard error what is wrong. That this may fail changes nothing.
fn explain<S: Sink + Drop>(
    alloc: Global,
    notes: &mut MessageSink<'_, S>,
    status: Status,
    words: &[String],
) {
    match status {
        Status::Done | Status::Refused => {}
        Status::FileFault | Status::ReadFault | Status::WriteFault => {}
        Status::BadWords => explain_words(alloc, notes, words),
        Status::NoMemory => notes.tell("papcalc: out of memory"),
        Status::ScriptLong => notes.tell("papcalc: the script is longer than 67108864 bytes"),
    }
}

/// Says on standard error what is wrong with the words, and which there are. That this may fail changes nothing.
fn explain_words<S: Sink + Drop>(alloc: Global, notes: &mut MessageSink<'_, S>, words: &[String]) {
    if let Ok(Some(said)) = what_is_wrong(alloc, words)
        && let Ok(text) = format!(in alloc; "papcalc: {said}")
    {
        notes.tell(&text);
    }
    notes.tell(USAGE);
}

/// Says on standard error which file can't be read and why, and which line of a script names it where one does, in one line
/// whatever the file's name is. That this may fail changes nothing.
fn explain_file_fault<S: Sink + Drop>(
    alloc: Global,
    notes: &mut MessageSink<'_, S>,
    words: &[String],
    file: &FailedFile,
    line: Option<u64>,
) {
    if let Ok(text) = file_fault_text(alloc, words, file, line) {
        notes.tell(&text);
    }
}

/// Which file can't be read and why, and at which line of a script, and what helps.
fn file_fault_text(
    alloc: Global,
    words: &[String],
    file: &FailedFile,
    line: Option<u64>,
) -> Result<String, AllocError> {
    let name = one_line(alloc, &file.name)?;
    let fault = file.fault;
    match line {
        Some(line) => {
            format!(in alloc; "stdin:{line}: the file `{name}`: {fault}; the script ends here")
        }
        None => {
            let help = file_help(alloc, words, &file.name)?;
            format!(in alloc; "papcalc: the file `{name}`: {fault}{help}")
        }
    }
}

/// Says on standard error why standard input can't be read. That this may fail changes nothing.
fn explain_read_fault<S: Sink + Drop>(
    alloc: Global,
    notes: &mut MessageSink<'_, S>,
    fault: SourceFault,
) {
    if let Ok(text) = format!(in alloc;
        "papcalc: standard input can't be read: {fault}; give it a script, as papcalc run < SCRIPT"
    ) {
        notes.tell(&text);
    }
}

/// Says on standard error why the output can't be written. That this may fail changes nothing.
fn explain_write_fault<S: Sink + Drop>(
    alloc: Global,
    notes: &mut MessageSink<'_, S>,
    fault: SinkFault,
) {
    if let Ok(text) = format!(in alloc; "papcalc: standard output can't be written: {fault}") {
        notes.tell(&text);
    }
}

/// The line of the script at which a file failed, where the words ask for a script: the one behind those that were answered.
fn failed_line(words: &[String], counts: LineCounts) -> Option<u64> {
    match words {
        [_] => Some(counts.answered.saturating_add(1)),
        _ => None,
    }
}

/// What failed outside, each where it did.
#[derive(Clone, Copy)]
struct Faults<'a> {
    /// The file that can't be read.
    file: Option<&'a FailedFile>,
    /// The line of the script that names it, where one does.
    line: Option<u64>,
    /// Why standard input can't be read.
    source: Option<SourceFault>,
    /// Why the output can't be written.
    sink: Option<SinkFault>,
}

/// Says on standard error what failed outside, where the status is one of that. That this may fail changes nothing.
fn explain_fault<S: Sink + Drop>(
    alloc: Global,
    notes: &mut MessageSink<'_, S>,
    status: Status,
    words: &[String],
    faults: &Faults<'_>,
) {
    if status == Status::FileFault
        && let Some(file) = faults.file
    {
        explain_file_fault(alloc, notes, words, file, faults.line);
    }
    if status == Status::ReadFault
        && let Some(fault) = faults.source
    {
        explain_read_fault(alloc, notes, fault);
    }
    if status == Status::WriteFault
        && let Some(fault) = faults.sink
    {
        explain_write_fault(alloc, notes, fault);
    }
}

/// Whether the words ask for a book to be saved.
fn is_save(words: &[String]) -> bool {
    match words {
        [word] => word.as_str() == "save",
        _ => false,
    }
}

/// Answers on their way to this sink. The refusal in place of a saved book is kept, and others where messages have this form.
fn answers_to<'a, S: Sink + Drop>(
    inner: S,
    form: MessageForm,
    words: &[String],
    last: &'a LastRefusal,
) -> AnswerSink<'a, S> {
    if is_save(words) {
        AnswerSink::keeping(inner, last)
    } else {
        AnswerSink::new(inner, form, last)
    }
}

/// Says on standard error that `save` has not saved the book, and why. That this may fail changes nothing.
fn explain_unsaved<S: Sink + Drop>(
    notes: &mut MessageSink<'_, S>,
    counts: LineCounts,
    last: &LastRefusal,
) {
    let unsaved = if counts.any() {
        UNSAVED_LINES
    } else if last.is_of("book Filed") {
        UNSAVED_FILED
    } else {
        UNSAVED_LONG
    };
    notes.tell(unsaved);
}

/// Ends the program: says what is wrong, and gives the status' number.
fn end<S: Sink + Drop>(
    alloc: Global,
    notes: &mut MessageSink<'_, S>,
    status: Status,
    words: &[String],
) -> ExitCode {
    explain(alloc, notes, status, words);
    ExitCode::from(status.number())
}

/// Carries out the words over the system's files and streams. Standard error is the place for the notes.
fn carried_out(rt: &HostRuntime, form: MessageForm, words: &[String]) -> ExitCode {
    let alloc = rt.alloc();
    let last = LastRefusal::new(alloc);
    let mut files = RealFiles::new(rt);
    let mut source = StdSource::new(rt.reader());
    let mut sink = answers_to(StdSink::new(io::writer(rt)), form, words, &last);
    let mut notes = MessageSink::new(StdSink::new(rt.stderr()), form, alloc, words, &last);
    let mut counts = LineCounts::new();
    let status = counted::<Brand, _, _, _, _>(
        alloc,
        words,
        &mut files,
        &mut source,
        &mut sink,
        &mut notes,
        &mut counts,
        Blank::new(1),
    );
    if is_save(words) && status == Status::Refused {
        explain_unsaved(&mut notes, counts, &last);
    }
    let faults = Faults {
        file: files.failed_file(),
        line: failed_line(words, counts),
        source: source.fault(),
        sink: sink.inner().fault(),
    };
    explain_fault(alloc, &mut notes, status, words, &faults);
    end(alloc, &mut notes, status, words)
}

/// Writes what the program answers by itself.
fn answer_itself(rt: &HostRuntime, form: MessageForm, text: &str) -> ExitCode {
    let Err(error) = println!(rt; "{text}") else {
        return ExitCode::from(Status::Done.number());
    };
    let alloc = rt.alloc();
    let last = LastRefusal::new(alloc);
    let mut notes = MessageSink::new(StdSink::new(rt.stderr()), form, alloc, &[], &last);
    explain_write_fault(alloc, &mut notes, SinkFault::of(&error));
    end(alloc, &mut notes, Status::WriteFault, &[])
}

/// Ends the program where its words can't be read.
fn end_without_words(rt: &HostRuntime, form: MessageForm, fault: ErrorKind) -> ExitCode {
    let alloc = rt.alloc();
    let last = LastRefusal::new(alloc);
    let mut notes = MessageSink::new(StdSink::new(rt.stderr()), form, alloc, &[], &last);
    if fault == ErrorKind::OutOfMemory {
        return end(alloc, &mut notes, Status::NoMemory, &[]);
    }
    notes.tell("papcalc: a word is not UTF-8");
    end(alloc, &mut notes, Status::BadWords, &[])
}

fn main(rt: HostRuntime) -> ExitCode {
    let form = form_of(&rt);
    let words = match words_of(&rt) {
        Ok(words) => words,
        Err(error) => return end_without_words(&rt, form, error.kind()),
    };
    match own_answer(&words) {
        Some(text) => answer_itself(&rt, form, text),
        None => carried_out(&rt, form, &words),
    }
}
