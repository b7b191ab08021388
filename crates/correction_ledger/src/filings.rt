//! What is owed, and what is filed with it: one pass over the balances each.
ghost use Rattle.std.specs.Prelude.{◌≡◌, IfOk, map};
ghost use Rattle.std.specs.List.{AllByRecursion, filter_map};
ghost use Rattle.correction_ledger.specs.private.BalanceViews.{AreBothBounded, owed_of, settled_of};
ghost use Rattle.correction_ledger.specs.Filings.{entry_with};

use crate::balances::Balances;
use crate::due::{Due, Entry};
use payroll_records::Month;
use std::alloc::{AllocError, Global};

/// What is owed.
pub(crate) fn owed(alloc: Global, balances: Balances) -> Result<Vec<Due>, AllocError>
    requires { AllByRecursion AreBothBounded balances }
    ensures { IfOk result (λ dues. dues.items ≡ filter_map owed_of balances.entry) }
{
    let mut dues = Vec::new(alloc);
    for balance in balances {
        if let Some(due) = balance.due() {
            dues.push(due)?;
        }
    }
    Ok(dues)
}

/// What is filed of each output once what is owed is filed.
pub(crate) fn settled(alloc: Global, balances: Balances) -> Result<Vec<Due>, AllocError>
    requires { AllByRecursion AreBothBounded balances }
    ensures { IfOk result (λ sums. sums.items ≡ map settled_of balances.entry) }
{
    let mut sums = Vec::new(alloc);
    for balance in balances {
        sums.push(balance.settled())?;
    }
    Ok(sums)
}

/// The entries of what is owed, with the month that is filed.
pub(crate) fn entries_of(
    alloc: Global,
    month: Month,
    dues: &[Due],
) -> Result<Vec<Entry>, AllocError>
    ensures { IfOk result (λ entries. entries.items ≡ map (entry_with month) dues.now) }
{
    let mut entries = Vec::new(alloc);
    for due in dues {
        entries.push(Entry { month, due: *due })?;
    }
    Ok(entries)
}
