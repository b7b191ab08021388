//! What stands against a load.
ghost use Rattle.std.specs.Prelude.{◌≡◌, ◌≤◌, IfOk, IfErr, None};
ghost use Rattle.book_edits.specs.Books.{AreInOrder, run_count};
ghost use Rattle.book_edits.specs.Kept.{years_of};
ghost use Rattle.payroll_records.specs.Limits.{most_records};
ghost use Rattle.book_edits.specs.Loads.{CanLoad, IsLoadRefused, first_present};

use crate::refusal::EditRefusal;
use crate::years::Years;
use payroll_records::{MOST_RECORDS, Record};

/// Refuses a load: the first record at whose key a run stands, else too many runs.
pub(crate) fn refused(years: &Years, items: &[Record]) -> Result<(), EditRefusal>
    requires order { AreInOrder (years_of years.now) }
    requires count { years.now.count ≡ run_count (years_of years.now) }
    requires few { years.now.count ≤ most_records }
    ensures ok { IfOk result (λ _. CanLoad (years_of years.now) items.now) }
    ensures err { IfErr result (IsLoadRefused (years_of years.now) items.now) }
{
    present(years, items)?;
    if MOST_RECORDS - years.count < items.len() {
        return Err(EditRefusal::Records);
    }
    Ok(())
}

/// Refuses the first record at whose key a run stands.
fn present(years: &Years, items: &[Record]) -> Result<(), EditRefusal>
    requires { AreInOrder (years_of years.now) }
    ensures ok { IfOk result (λ _. first_present (years_of years.now) items.now ≡ None) }
    ensures err { IfErr result (IsLoadRefused (years_of years.now) items.now) }
{
    for item in items {
        let key = item.key();
        if years.find(&key).is_some() {
            return Err(EditRefusal::Present { key });
        }
    }
    Ok(())
}
