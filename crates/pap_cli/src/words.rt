//! The words of the command line.
ghost use Rattle.std.specs.Prelude.{◌≡◌, ◌↔◌, ◌∷◌, [], IfOk, IsTrue, MatchOption, List, ℕ};
ghost use Rattle.payroll_records.specs.declared.values.NamedValue.{NamedValue as Value};
ghost use Rattle.payroll_records.specs.ValueWords.{AreValueWords};
ghost use Rattle.pap_cli.specs.Words.{texts, HasForm, IsBad, sample};
ghost use Rattle.pap_cli.specs.private.WordViews.{form_of, form_on_files, AskNoFiles, AskNoSample};
ghost use Rattle.pap_cli.specs.private.WordViews.{IsInRange, IsSampleWord};

use payroll_records::{InsertFault, NamedValue, Values};
use script_run::MOST_EMPLOYEES;
use std::alloc::{AllocError, Global};

/// What the words ask for.
#[derive(Drop)]
pub(crate) enum Request<'a> {
    /// An answer on two files.
    Files(FileRequest<'a>),
    /// `run`
    Run,
    /// `sample N`, with the number of employees.
    Sample(u32),
    /// `save`
    Save,
}

/// An answer on the file of a plan and a range file.
#[derive(Drop)]
pub(crate) struct FileRequest<'a> {
    /// The name of the plan's file.
    pub plan: &'a str,
    /// The name of the range file.
    pub limits: &'a str,
    /// What is asked of them.
    pub command: Command,
}

/// What is asked of the two files.
#[derive(Drop)]
pub(crate) enum Command {
    /// `check PLAN LIMITS`
    Check,
    /// `once PLAN LIMITS NAME=VALUE ..`, with the values.
    Once(Values),
}

/// What the words ask for. `None` where they have no form.
pub(crate) fn read_words(alloc: Global, words: &[String]) -> Result<Option<Request<'_>>, AllocError>
    ensures { IfOk result (λ found. MatchOption found (IsBad (texts words.now))
        (λ request. HasForm (texts words.now) (form_of request))) }
{
    if is_command(words, "run") {
        return Ok(Some(Request::Run));
    }
    if is_command(words, "save") {
        return Ok(Some(Request::Save));
    }
    if let Some(employees) = read_sample(alloc, words)? {
        return Ok(Some(Request::Sample(employees)));
    }
    match read_file_words(alloc, words)? {
        Some(request) => Ok(Some(Request::Files(request))),
        None => Ok(None),
    }
}

/// Whether the words are this command alone.
fn is_command(words: &[String], name: &str) -> bool
    ensures { IsTrue result ↔ (texts words.now ≡ name.now ∷ []) }
{
    match words {
        [command] => command.as_str() == name,
        _ => false,
    }
}

/// The number of employees of the sample that the words ask for. `None` where they ask for none.
fn read_sample(alloc: Global, words: &[String]) -> Result<Option<u32>, AllocError>
    ensures { IfOk result (λ found. MatchOption found (AskNoSample (texts words.now))
        (λ employees. HasForm (texts words.now) (sample employees))) }
{
    match words {
        [command, count] if command.as_str() == "sample" => read_employees(alloc, count.as_str()),
        _ => Ok(None),
    }
}

/// A number of employees from 1 to 200, in decimal without leading zeros.
fn read_employees(alloc: Global, word: &str) -> Result<Option<u32>, AllocError>
    ensures { IfOk result (λ found. MatchOption found
        ((employees : ℕ) → ¬ (IsSampleWord word.now employees)) (IsSampleWord word.now)) }
{
    let Ok(employees) = word.parse::<u32>() else {
        return Ok(None);
    };
    let spelled = format!(in alloc; "{employees}")?;
    if spelled.as_str() == word {
        return Ok(in_range(employees));
    }
    Ok(None)
}

/// The number of employees, where it is from 1 to 200.
fn in_range(employees: u32) -> Option<u32>
    ensures { MatchOption result (¬ (IsInRange employees))
        (λ found. (found ≡ employees) × IsInRange employees) }
{
    if 1 <= employees && employees <= MOST_EMPLOYEES {
        Some(employees)
    } else {
        None
    }
}

/// The answer on two files that the words ask for. `None` where they ask for none.
fn read_file_words(alloc: Global, words: &[String]) -> Result<Option<FileRequest<'_>>, AllocError>
    ensures { IfOk result (λ found. MatchOption found (AskNoFiles (texts words.now))
        (λ request. HasForm (texts words.now) (form_on_files request))) }
{
    let [command, plan, limits, rest @ ..] = words else {
        return Ok(None);
    };
    let command = match command.as_str() {
        "check" if rest.is_empty() => Command::Check,
        "once" => match read_values(alloc, rest)? {
            Some(values) => Command::Once(values),
            None => return Ok(None),
        },
        _ => return Ok(None),
    };
    Ok(Some(FileRequest {
        plan: plan.as_str(),
        limits: limits.as_str(),
        command,
    }))
}

/// The values of words. `None` where a word is no value word, a name stands twice, or there are more than 256 words.
fn read_values(alloc: Global, words: &[String]) -> Result<Option<Values>, AllocError>
    ensures { IfOk result (λ found. MatchOption found
        ((values : List Value) → ¬ (AreValueWords (texts words.now) values))
        (AreValueWords (texts words.now))) }
{
    let mut values = Values::new(alloc);
    for word in words {
        let Some(value) = NamedValue::read(word.as_bytes()) else {
            return Ok(None);
        };
        match values.insert(value) {
            Ok(()) => {}
            Err(InsertFault::Twice) => return Ok(None),
            Err(InsertFault::Full) => return Ok(None),
            Err(InsertFault::Memory(error)) => return Err(error),
        }
    }
    Ok(Some(values))
}
