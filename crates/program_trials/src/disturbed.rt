//! The top call over an outside whose calls fail one after another, or give and take a few bytes at
//! a time.
ghost use Rattle.std.specs.Prelude.{◌≢◌, ◌≤◌, AllPairs, IfOk};
ghost use Rattle.outside.specs.Memory.{named_files};

use crate::answers::{carried_out, words_of, write_lines};
use outside::{MemFiles, MemSink, MemSource};
use pap_cli::Status;
use std::alloc::{AllocError, Global};
use std::test::Fail;
use trial_rows::all_rows;

/// A flowchart with an input N, a default, a test of a divisor and an output.
const PLAN: &str =
    "<PAP><INTERFACE><INPUTS><INPUT name='N' type='int'/><INPUT name='D' type='int' default='2'/></INPUTS><OUTPUTS><OUTPUT name='Q' type='int'/></OUTPUTS></INTERFACE><METHODS><MAIN><IF expr='D != 0'><THEN><EVAL exec='Q = N / D'/></THEN></IF></MAIN></METHODS></PAP>\n";

/// The range file of the flowchart.
const LIMITS: &str =
    "[input.N]\nlow = 0\nhigh = 10\nplaces = 0\n[input.D]\nlow = 0\nhigh = 5\nplaces = 0\n";

/// A saved book with a run.
const BOOK: &str = "papbook 1\nwork 0 0\nplans 0\nruns 1\nrun E0 2025-01-31 N=1\nend\n";

/// A table with a run.
const TABLE: &str = "employee,month,day,N\nE2,2025-01,2025-01-31,9\n";

/// A script of edits. Its lines name four files.
const EDITS: &str = "open b
plan 2025-01-01 a.xml l.toml
load t.csv
add E1 2025-01 2025-01-31 N=7
change E1 2025-01 2025-01-31 N=8
";

/// The same edits, and then lines that tell what they made. The line `try` names two files once
/// more.
const SCRIPT: &str = "open b
plan 2025-01-01 a.xml l.toml
load t.csv
add E1 2025-01 2025-01-31 N=7
change E1 2025-01 2025-01-31 N=8
work
report
add E1 2025-01 2025-01-31
try 2025-02-01 a.xml l.toml
file 2025-01
owed
trace E1 2025-01
withdraw E1 2025-01
drop 2025-01-01
";

/// Words, and the lines that are written where no call fails.
const WHOLE: &str =
    r#"run => ok / accepted steps 10 / ok / ok / ok / work 1 10 / employee,month,day,plan,state,name,value / E0,2025-01,2025-01-31,2025-01-01,ok,Q,0 / E1,2025-01,2025-01-31,2025-01-01,ok,Q,4 / E2,2025-01,2025-01-31,2025-01-01,ok,Q,4 / end / refused edit Present E1 2025-01-31 / accepted steps 10 / would 0 0 / due E1 2025-01-31 Q 4 / due E2 2025-01-31 Q 4 / filed 2 / end / test MAIN:0 yes / set MAIN:1 Q 4 / end / ok / ok
save => papbook 1 / work 1 10 / plans 1 / plan 2025-01-01 260 77 / <PAP><INTERFACE><INPUTS><INPUT name='N' type='int'/><INPUT name='D' type='int' default='2'/></INPUTS><OUTPUTS><OUTPUT name='Q' type='int'/></OUTPUTS></INTERFACE><METHODS><MAIN><IF expr='D != 0'><THEN><EVAL exec='Q = N / D'/></THEN></IF></MAIN></METHODS></PAP> / [input.N] / low = 0 / high = 10 / places = 0 / [input.D] / low = 0 / high = 5 / places = 0 /  / runs 3 / run E0 2025-01-31 N=1 / run E1 2025-01-31 N=8 / run E2 2025-01-31 N=9 / end"#;

/// Words and what disturbs them; then, for each call that fails, until none does, the status and
/// how many lines were written.
const ENDS: &str =
    r#"run | files => FileFault(0) FileFault(1) FileFault(1) FileFault(2) FileFault(12) FileFault(12) Refused(23)
run | source => ReadFault(0) ReadFault(3) ReadFault(11) ReadFault(17) ReadFault(23) Refused(23)
run | sink => WriteFault(0) WriteFault(1) WriteFault(2) WriteFault(3) WriteFault(4) WriteFault(5) WriteFault(6) WriteFault(10) WriteFault(11) WriteFault(12) WriteFault(14) WriteFault(17) WriteFault(18) WriteFault(21) WriteFault(22) Refused(23)
run | bytes in => Refused(23)
run | sevens in => Refused(23)
run | bytes out => Refused(23)
save | files => FileFault(0) FileFault(0) FileFault(0) FileFault(0) Done(19)
save | source => ReadFault(0) ReadFault(0) ReadFault(0) Done(19)
save | sink => WriteFault(0) Done(19)
save | bytes in => Done(19)
save | sevens in => Done(19)
save | bytes out => Done(19)
sample 1 | files => Done(5)
sample 1 | source => Done(5)
sample 1 | sink => WriteFault(0) Done(5)
sample 1 | slow sink => WriteFault(0) WriteFault(1) WriteFault(3) Done(5)
check a.xml l.toml | files => FileFault(0) FileFault(0) Done(2)
check a.xml l.toml | sink => WriteFault(0) Done(2)
check a.xml l.toml | bytes out => Done(2)
once a.xml l.toml N=7 | files => FileFault(0) FileFault(0) Done(2)
once a.xml l.toml N=7 | sink => WriteFault(0) Done(2)
once a.xml l.toml N=7 | bytes out => Done(2)"#;

/// How words ended.
#[derive(Drop)]
struct End {
    status: Status,
    sink: MemSink,
}

/// The four files.
fn four_files(alloc: Global) -> Result<Vec<(String, Vec<u8>)>, AllocError>
    ensures { IfOk result (λ files. AllPairs (λ a b. a.0 ≢ b.0) (named_files files.items)) }
{
    let mut files = Vec::new(alloc);
    files.push((
        String::from_str(alloc, "a.xml")?,
        PLAN.as_bytes().to_vec(alloc)?,
    ))?;
    files.push((
        String::from_str(alloc, "l.toml")?,
        LIMITS.as_bytes().to_vec(alloc)?,
    ))?;
    files.push((
        String::from_str(alloc, "t.csv")?,
        TABLE.as_bytes().to_vec(alloc)?,
    ))?;
    files.push((
        String::from_str(alloc, "b")?,
        BOOK.as_bytes().to_vec(alloc)?,
    ))?;
    Ok(files)
}

/// The script for these words.
fn script_for(words: &str) -> &'static str {
    match words {
        "save" => EDITS,
        _ => SCRIPT,
    }
}

/// The most bytes that a call of the source gives.
fn most_given(disturbed: &str) -> usize
    ensures { 1 ≤ result }
{
    match disturbed {
        "bytes in" => 1,
        "sevens in" => 7,
        _ => 64,
    }
}

/// The most bytes that a call of the sink takes.
fn most_taken(disturbed: &str) -> usize
    ensures { 1 ≤ result }
{
    match disturbed {
        "bytes out" => 1,
        "slow sink" => 16,
        _ => 4000,
    }
}

/// The calls that fail of an object: this one where the object is disturbed, and else none, since
/// calls are counted from 1.
fn failing(alloc: Global, is_disturbed: bool, call: u64) -> Result<Vec<u64>, AllocError> {
    let call = if is_disturbed { call } else { 0 };
    Ok(vec![in alloc; call; 1]?)
}

/// Carries out words over the files, their script and a sink. The call of this number of what is
/// disturbed fails.
fn end_of(alloc: Global, words: &str, disturbed: &str, call: u64) -> Result<End, Fail> {
    let fails = failing(alloc, disturbed == "files", call)?;
    let mut files = MemFiles::new(four_files(alloc)?, fails);
    let script = script_for(words).as_bytes().to_vec(alloc)?;
    let fails = failing(alloc, disturbed == "source", call)?;
    let mut source = MemSource::new(script, most_given(disturbed), fails);
    let fails = failing(alloc, disturbed.ends_with("sink"), call)?;
    let mut sink = MemSink::short(alloc, 4000, most_taken(disturbed), fails)?;
    let words = words_of(alloc, words)?;
    let status = carried_out(alloc, &words, &mut files, &mut source, &mut sink);
    Ok(End { status, sink })
}

/// Writes the lines of an answer that nothing disturbs.
fn write_whole(words: &str, text: &mut String) -> Result<(), Fail> {
    let end = end_of(*text.allocator(), words, "nothing", 0)?;
    write_lines(end.sink.written(), text)
}

/// Writes an end: the status, and how many lines were written. Fails where what was written is no
/// prefix of the whole answer.
fn write_end(end: &End, whole: &[u8], text: &mut String) -> Result<(), Fail> {
    let written = end.sink.written();
    if !whole.starts_with(written) {
        return Err(Fail::from("a front of the whole answer"));
    }
    let lines = written.iter().filter(|byte| **byte == b'\n').count();
    Ok(write!(text, "{:?}({lines}) ", end.status)?)
}

/// Whether nothing failed.
fn is_undisturbed(status: Status) -> bool {
    matches!(status, Status::Done | Status::Refused)
}

/// Writes how words end while one call of what is disturbed fails after another, until none does.
fn write_ends(asked: &str, text: &mut String) -> Result<(), Fail> {
    let alloc = *text.allocator();
    let (words, disturbed) = asked.split_once(" | ").ok_or("what is disturbed")?;
    let whole = end_of(alloc, words, "nothing", 0)?;
    for call in 1..=100 {
        let end = end_of(alloc, words, disturbed, call)?;
        write_end(&end, whole.sink.written(), text)?;
        if is_undisturbed(end.status) {
            return Ok(());
        }
    }
    Err(Fail::from("an end without a fault"))
}

#[test]
fn whole_answers_are_written(rt: HostRuntime) -> Result<(), Fail> {
    all_rows(rt.alloc(), WHOLE, write_whole)
}

#[test]
fn each_failing_call_has_its_end(rt: HostRuntime) -> Result<(), Fail> {
    all_rows(rt.alloc(), ENDS, write_ends)
}
