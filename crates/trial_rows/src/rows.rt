//! A table against what is answered to it.
ghost use Rattle.std.specs.Prelude.{◌≡◌, ◌++◌, All, IfOk, OnOk, codes};
ghost use Rattle.std.specs.Str.Lines.{lines};
ghost use Rattle.trial_rows.specs.Rows.{IsRightRow};

use crate::asked::write_asked;
use std::alloc::Global;
use std::test::Fail;

/// Fails at the first row that isn't answered as it says. `answer` takes what is asked, written out
/// as in `write_asked`, and writes into an empty text.
pub fn all_rows<F: Fn(&str, &mut String) -> Result<(), Fail>>(
    alloc: Global,
    table: &str,
    answer: F,
) -> Result<(), Fail>
    requires { F.IsAlwaysCallable answer }
    ensures { OnOk result (All (IsRightRow F.Fn answer) (lines table.now)) }
{
    let mut text = String::new(alloc);
    let mut given = String::new(alloc);
    for row in table.lines() {
        check_row(row, &answer, &mut text, &mut given)?;
    }
    Ok(())
}

/// Fails where a row isn't answered as it says. The texts are those in which it is asked and
/// answered.
fn check_row<F: Fn(&str, &mut String) -> Result<(), Fail>>(
    row: &str,
    answer: &F,
    text: &mut String,
    given: &mut String,
) -> Result<(), Fail>
    requires { F.IsAlwaysCallable answer.now }
    ensures { OnOk result (IsRightRow F.Fn answer.now row.now) }
{
    let (asked, wanted) = sides(row)?;
    text.clear();
    write_asked(asked, text)?;
    given.clear();
    answer(text.as_str(), given)?;
    if given.as_str().trim_end() != wanted {
        return Err(Fail::new(format_args!("{row}\nis answered {given}")));
    }
    Ok(())
}

/// The two sides of a row.
fn sides(row: &str) -> Result<(&str, &str), Fail>
    ensures { IfOk result (λ sides. row.now ≡ sides.0.now ++ (codes " => " ++ sides.1.now)) }
{
    Ok(row.split_once(" => ").ok_or("a row")?)
}
