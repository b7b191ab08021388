//! Helps the author of a flowchart: draws it as a page, begins its range file, compares it with another, traces a run, and finds one that fails.
#![tactic(auto)]

use author_cli::{Stop, exit_number, pap_author};
use messages::{AnswerSink, LastRefusal, MessageForm, MessageSink};
use outside::{FailedFile, RealFiles, Sink, StdSink, put_all};
use plain_words::one_line;
use std::alloc::Global;
use std::env;
use std::io::{self, ErrorKind};
use std::process::ExitCode;

/// What is said where the words ask for nothing.
const USAGE: &str =
    "usage: pap_author chart PLAN | pap_author chart PLAN LIMITS | pap_author ranges PLAN | \
    pap_author trace PLAN LIMITS NAME=VALUE .. | pap_author example PLAN LIMITS | pap_author lint PLAN LIMITS | \
    pap_author compare OLD NEW | pap_author compare OLD OLD_LIMITS NEW NEW_LIMITS | \
    pap_author text compare OLD NEW | pap_author text compare OLD OLD_LIMITS NEW NEW_LIMITS | \
    pap_author text trace PLAN LIMITS NAME=VALUE .. | \
    pap_author cover PLAN LIMITS TABLE | pap_author cover PLAN LIMITS TABLE --at-least N | \
    pap_author text cover PLAN LIMITS TABLE | pap_author text cover PLAN LIMITS TABLE --at-least N";

/// The variable of the environment that says in which form messages are written.
const MESSAGES: &str = "PAPCALC_MESSAGES";

/// The answer to `--version`, with the checksum of the prover's rules by which the contracts are proved.
const VERSION: &str = "pap_author 1.0.0 (rules dac8208d650f15bf)";

/// The answer to `--help`.
const HELP: &str =
    "pap_author draws a wage tax flowchart as a page, begins its range file, compares it with the one before, traces a run, and finds
one that fails

usage:
  pap_author chart PLAN            write the flowchart as one page of HTML: what can be said of it without a range file, its
                                   declarations with the file's comments, and each method drawn
  pap_author chart PLAN LIMITS     the same with the range file: whether every run is safe, its most steps, and the ranges of
                                   the outputs; or why it is refused, with the statement, method or name in red
  pap_author ranges PLAN           write a range file to begin with: for each input the widest range that makes sense for its
                                   type, and what to narrow
  pap_author trace PLAN LIMITS NAME=VALUE ..
                                   write the page of the flowchart with the run on these inputs: its inputs and outputs, and
                                   its statements in order, each with a link to it in the drawing
  pap_author example PLAN LIMITS   where `papcalc check` refuses the flowchart for the ranges of its values: write inputs on which
                                   a run fails and where it fails, or the parts of the ranges by which every run is safe after
                                   all, or that neither was found
  pap_author lint PLAN LIMITS      write a line for each thing that the flowchart has in vain: statements that no run executes, tests
                                   that always answer the same, names that nothing reads or assigns
  pap_author compare OLD NEW       write a page of what the flowchart NEW changed against OLD: declarations with their values, and
                                   method by method the statements; each row says whether it is the same, changed, new or gone
  pap_author compare OLD OLD_LIMITS NEW NEW_LIMITS
                                   the same, and what the range file NEW_LIMITS changed against OLD_LIMITS
  pap_author text compare OLD NEW  write this as a text: each line begins with = the same, ~ changed, + new or - gone
  pap_author text compare OLD OLD_LIMITS NEW NEW_LIMITS
                                   the same with the range files
  pap_author text trace PLAN LIMITS NAME=VALUE ..
                                   write the run on these inputs: its inputs and outputs, and each statement that it executes,
                                   with its place, its line in PLAN, what it puts or answers, and the values that it reads
  pap_author cover PLAN LIMITS TABLE
                                   write the page of the flowchart with what the runs of the table come to: which share of its
                                   statements and of the exits of tests, which never, and in the drawings how many runs came there
  pap_author cover PLAN LIMITS TABLE --at-least N
                                   the same, and end with 1 where that share is below N percent, a number from 0 to 100
  pap_author text cover PLAN LIMITS TABLE
                                   write the share and what no run comes to as a text
  pap_author text cover PLAN LIMITS TABLE --at-least N
                                   the same, and end with 1 where that share is below N percent
  pap_author --help                write this text
  pap_author --version             write the program's version

PLAN, OLD and NEW are files of flowcharts in the ministry's pseudocode (XML), LIMITS, OLD_LIMITS and NEW_LIMITS range files
(TOML), TABLE pay runs (CSV) as a script's line `load` takes them. The page stands alone: it has no script and fetches nothing. Open it in a browser,
or print it from there.

Where the plan is refused, a line on standard error says in plain words what is wrong, where it is in the file, and what
helps. `chart` writes the page all the same, with the reason in it; that of a file that can't be read as a flowchart has no
drawing. `ranges` doesn't judge the flowchart: only of a file that can't be read as one the line of its refusal is written,
in place of the range file. `compare` doesn't judge its flowcharts either: the line of the first file that can't be read as
one is written in place of the text or the page, and with range files the line of the first pair that `papcalc check` refuses
for another reason than the ranges of its values. `trace` fills inputs that aren't given as `papcalc once` does. Of a refused plan or a run
without inputs its page says why, and its text has the line that `papcalc once` writes. Of a flowchart or a range file that is
refused for another reason than the ranges of its values, `example` writes the line that `papcalc check` writes. So do `lint`
and `cover` of each that is refused; of a refused table `cover` writes the line that `load` writes.

It ends with 0 where all was written, 1 where that is of a refused plan, of a run without inputs, of two flowcharts or
range files that differ, of inputs that fail or weren't found, of findings, of a refused table, or of a share below N, 2 where the words are
none of these, 3 where a file can't be read, 5 where the output can't be written, 6 where memory runs out.";

/// The words after the program's name.
fn words_of(rt: &HostRuntime) -> io::Result<Vec<String>> {
    let mut words = Vec::new(rt.alloc());
    for word in env::args(rt)?.skip(1) {
        words.push(word)?;
    }
    Ok(words)
}

/// What the program answers by itself: its help and its version, each as the only word.
fn own_answer(words: &[String]) -> Option<&'static str> {
    let [word] = words else {
        return None;
    };
    match word.as_str() {
        "--help" | "-h" | "help" => Some(HELP),
        "--version" | "-V" => Some(VERSION),
        _ => None,
    }
}

/// The form that the environment asks for.
fn form_of(rt: &HostRuntime) -> MessageForm {
    match env::var(rt, MESSAGES) {
        Ok(word) => MessageForm::named(word.as_str()),
        Err(_) => MessageForm::Words,
    }
}

/// Says on standard error what is wrong, in one line. That this may fail changes nothing.
fn explain<S: Sink + Drop>(
    alloc: Global,
    notes: &mut MessageSink<'_, S>,
    ended: &Result<Option<String>, Stop>,
    failed: Option<&FailedFile>,
) {
    match ended {
        Ok(None) => {}
        Ok(Some(reason)) => explain_refusal(alloc, notes, reason),
        Err(Stop::Words) => notes.tell(USAGE),
        Err(Stop::File) => explain_file_fault(alloc, notes, failed),
        Err(Stop::Write) => notes.tell("pap_author: standard output can't be written"),
        Err(Stop::Memory) => notes.tell("pap_author: out of memory"),
    }
}

/// Says on standard error why something is refused. That this may fail changes nothing.
fn explain_refusal<S: Sink + Drop>(alloc: Global, notes: &mut MessageSink<'_, S>, reason: &str) {
    if let Ok(line) = format!(in alloc; "{reason}\n") {
        let _ = put_all(notes, line.as_bytes());
    }
}

/// Says on standard error which file can't be read and why, in one line whatever its name is. That this may fail changes nothing.
fn explain_file_fault<S: Sink + Drop>(
    alloc: Global,
    notes: &mut MessageSink<'_, S>,
    failed: Option<&FailedFile>,
) {
    if let Some(file) = failed
        && let Ok(name) = one_line(alloc, &file.name)
    {
        let fault = file.fault;
        if let Ok(text) = format!(in alloc; "pap_author: the file `{name}`: {fault}") {
            notes.tell(&text);
        }
    }
}

/// Ends the program: says what is wrong, and gives its number.
fn end<S: Sink + Drop>(
    alloc: Global,
    notes: &mut MessageSink<'_, S>,
    ended: &Result<Option<String>, Stop>,
    failed: Option<&FailedFile>,
) -> ExitCode {
    explain(alloc, notes, ended, failed);
    ExitCode::from(exit_number(ended))
}

/// Ends the program before it has read a file.
fn end_early(
    rt: &HostRuntime,
    form: MessageForm,
    said: Option<&str>,
    ended: &Result<Option<String>, Stop>,
) -> ExitCode {
    let alloc = rt.alloc();
    let last = LastRefusal::new(alloc);
    let mut notes = MessageSink::new(StdSink::new(rt.stderr()), form, alloc, &[], &last);
    if let Some(text) = said {
        notes.tell(text);
    }
    end(alloc, &mut notes, ended, None)
}

/// Carries out the words over the system's files and standard output.
fn carried_out(rt: &HostRuntime, form: MessageForm, words: &[String]) -> ExitCode {
    let alloc = rt.alloc();
    let last = LastRefusal::new(alloc);
    let mut files = RealFiles::new(rt);
    let mut sink = AnswerSink::new(StdSink::new(io::writer(rt)), form, &last);
    let mut notes = MessageSink::new(StdSink::new(rt.stderr()), form, alloc, words, &last);
    let ended = pap_author(alloc, words, &mut files, &mut sink);
    end(alloc, &mut notes, &ended, files.failed_file())
}

/// Answers `--help` and `--version` by itself, and leaves all else to the top call.
fn main(rt: HostRuntime) -> ExitCode {
    let form = form_of(&rt);
    let words = match words_of(&rt) {
        Ok(words) => words,
        Err(error) if error.kind() == ErrorKind::OutOfMemory => {
            return end_early(&rt, form, None, &Err(Stop::Memory));
        }
        Err(_) => {
            let said = Some("pap_author: a word is not UTF-8");
            return end_early(&rt, form, said, &Err(Stop::Words));
        }
    };
    let Some(text) = own_answer(&words) else {
        return carried_out(&rt, form, &words);
    };
    let ended = match println!(rt; "{text}") {
        Ok(()) => Ok(None),
        Err(_) => Err(Stop::Write),
    };
    end_early(&rt, form, None, &ended)
}
