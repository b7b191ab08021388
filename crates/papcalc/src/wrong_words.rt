//! What is wrong with the words after the program's name, where they ask for nothing.

use pap_cli::bad_value;
use payroll_records::{InsertFault, NamedValue, Values};
use plain_words::{one_line, value_words};
use std::alloc::{AllocError, Global};

/// Why words that have no form have none, in one line whatever they are. None where no single word can be blamed.
pub fn what_is_wrong(alloc: Global, words: &[String]) -> Result<Option<String>, AllocError> {
    let [command, rest @ ..] = words else {
        return Ok(None);
    };
    let said = match command.as_str() {
        "check" => wrong_files(alloc, rest)?,
        "once" if rest.len() < 2 => {
            let count = rest.len();
            format!(in alloc;
                "`once` takes two words, PLAN and LIMITS, and then values, and has {count} here"
            )?
        }
        "once" => match first_option(&rest[..2]) {
            Some(option) => no_option(alloc, option)?,
            None => return wrong_value(alloc, &rest[2..]),
        },
        "run" | "save" => wrong_script(alloc, command, rest)?,
        "sample" => wrong_count(alloc, rest)?,
        "--help" | "-h" | "help" | "--version" | "-V" => {
            format!(in alloc; "`{command}` stands alone, without a word behind it")?
        }
        _ => {
            let shown = one_line(alloc, command)?;
            format!(in alloc;
                "`{shown}` is not a command; there are check, once, run, save, sample, help and --version"
            )?
        }
    };
    Ok(Some(said))
}

/// Why the words behind `check` aren't the names of two files.
fn wrong_files(alloc: Global, words: &[String]) -> Result<String, AllocError> {
    if let Some(option) = first_option(words) {
        return no_option(alloc, option);
    }
    let count = words.len();
    let [_, _, third, more @ ..] = words else {
        return format!(in alloc; "`check` takes two words, PLAN and LIMITS, and not {count}");
    };
    let shown = one_line(alloc, third)?;
    let many = if more.is_empty() {
        "is one too many"
    } else {
        "and what follows are too many"
    };
    let values = if third.contains('=') {
        "; `once` takes values"
    } else {
        ""
    };
    format!(in alloc;
        "`check` takes two words, PLAN and LIMITS, and not {count}: `{shown}` {many}{values}"
    )
}

/// The first word that is written as an option, as `--json`.
fn first_option(words: &[String]) -> Option<&str> {
    for word in words {
        if word.starts_with('-') && word.len() > 1 {
            return Some(word.as_str());
        }
    }
    None
}

/// Why a word that is written as an option is no file's name, and what helps.
fn no_option(alloc: Global, word: &str) -> Result<String, AllocError> {
    let shown = one_line(alloc, word)?;
    let help = option_help(word);
    format!(in alloc; "`{shown}` is no file; {help}")
}

/// What helps where a word is written as an option.
fn option_help(word: &str) -> &'static str {
    if word.contains("json") {
        "no command has options: write PAPCALC_MESSAGES=json before papcalc for messages as JSON"
    } else {
        "no command has options: take it out, and see what papcalc --help says"
    }
}

/// Why `run` or `save` with words behind it isn't a command.
fn wrong_script(alloc: Global, command: &str, words: &[String]) -> Result<String, AllocError> {
    if let Some(option) = first_option(words) {
        return no_option(alloc, option);
    }
    let [word] = words else {
        let streams = streams_of(command);
        return format!(in alloc;
            "`{command}` takes no word behind it; it reads its script from standard input{streams}"
        );
    };
    let shown = one_line(alloc, word)?;
    if command == "save" {
        let book = if shown.ends_with(".book") {
            shown.as_str()
        } else {
            "BOOK"
        };
        return format!(in alloc;
            "`save` takes no word behind it, and has `{shown}` here; it reads its script from standard input and writes the book to standard output, as papcalc save < SCRIPT > {book}"
        );
    }
    format!(in alloc;
        "`{command}` takes no word behind it, and has `{shown}` here; it reads its script from standard input, as papcalc {command} < {shown}"
    )
}

/// How the streams of `run` or `save` are written.
fn streams_of(command: &str) -> &'static str {
    if command == "save" {
        " and writes the book to standard output, as papcalc save < SCRIPT > BOOK"
    } else {
        ", as papcalc run < SCRIPT"
    }
}

/// What helps where a file of `check` or `once` can't be read, behind a semicolon: an option stands in its place, or of `once` a value.
/// Nothing where it is another word.
pub fn file_help(alloc: Global, words: &[String], file: &str) -> Result<String, AllocError> {
    let [command, plan, ..] = words else {
        return Ok(String::new(alloc));
    };
    if file.starts_with('-') && file.len() > 1 {
        let help = option_help(file);
        return format!(in alloc; "; {help}");
    }
    if command.as_str() != "once" || !file.contains('=') {
        return Ok(String::new(alloc));
    }
    let missing = if plan.as_str() == file {
        "the names of the flowchart's file and of the range file stand"
    } else {
        "the name of the range file stands"
    };
    format!(in alloc; "; {missing} before the values: papcalc once PLAN LIMITS NAME=VALUE ..")
}

/// Why the words behind `sample` aren't a number of employees.
fn wrong_count(alloc: Global, words: &[String]) -> Result<String, AllocError> {
    let [word] = words else {
        let count = words.len();
        return format!(in alloc;
            "`sample` takes one word, the number of employees, 1 to 200, and not {count}"
        );
    };
    let shown = one_line(alloc, word)?;
    format!(in alloc;
        "`sample` takes a number of employees, 1 to 200, without a sign or zeros before it, and not `{shown}`"
    )
}

/// Which of the values of `once` is wrong, and why.
fn wrong_value(alloc: Global, values: &[String]) -> Result<Option<String>, AllocError> {
    if let Some(word) = bad_value(values) {
        return Ok(Some(value_words(alloc, word.as_bytes())?));
    }
    let mut read = Values::new(alloc);
    for word in values {
        let Some(value) = NamedValue::read(word.as_bytes()) else {
            return Ok(None);
        };
        let name = value.name;
        match read.insert(value) {
            Ok(()) => {}
            Err(InsertFault::Twice) => {
                let shown = one_line(alloc, word)?;
                let said = format!(in alloc;
                    "{name} stands twice, again in `{shown}`; give each name once"
                )?;
                return Ok(Some(said));
            }
            Err(InsertFault::Full) => {
                let said = format!(in alloc; "`once` takes at most 256 values")?;
                return Ok(Some(said));
            }
            Err(InsertFault::Memory(error)) => return Err(error),
        }
    }
    Ok(None)
}
