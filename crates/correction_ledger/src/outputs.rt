//! The outputs of one run, in order of their names.
ghost use Rattle.std.specs.Prelude.{◌≡◌, [], OnOk};
ghost use Rattle.std.specs.List.Sorted.{IsPermutation, IsSortedByKey};
ghost use Rattle.payroll_records.specs.NamedValues.{name_cmp};
ghost use Rattle.recalc_engine.specs.RowLaws.{HaveNames};
ghost use Rattle.correction_ledger.specs.private.RowViews.{AreListed, due_name, dues_of};

use crate::due::Due;
use payroll_records::{Key, NamedValue};
use std::alloc::AllocError;

/// Puts the outputs of a run into an empty list, in order of their names.
pub(crate) fn list_outputs(
    dues: &mut Vec<Due>,
    key: &Key,
    outputs: &[NamedValue],
) -> Result<(), AllocError>
    requires empty { dues.old.items ≡ [] }
    requires named { HaveNames outputs.now }
    ensures { OnOk result (AreListed key.now outputs.now dues.new.items) }
{
    push_outputs(dues, key, outputs)?;
    sort(dues);
    Ok(())
}

/// Puts the outputs of a run into an empty list.
fn push_outputs(dues: &mut Vec<Due>, key: &Key, outputs: &[NamedValue]) -> Result<(), AllocError>
    requires { dues.old.items ≡ [] }
    ensures { OnOk result (dues.new.items ≡ dues_of key.now outputs.now) }
{
    for output in outputs {
        dues.push(Due {
            key: *key,
            name: output.name,
            amount: output.value,
        })?;
    }
    Ok(())
}

/// Puts the dues of one run in order of their names.
fn sort(dues: &mut Vec<Due>)
    ensures same { IsPermutation dues.old.items dues.new.items }
    ensures sorted { IsSortedByKey due_name name_cmp dues.new.items }
{
    dues.sort_unstable_by_key(|due| due.name);
}
