//! Lines that edit the book.
ghost use Rattle.std.specs.Prelude.{◌≡◌, IfOk, OnErr};
ghost use Rattle.script_steps.specs.private.Replies.{reply_of};
ghost use Rattle.recalc_engine.specs.EditAnswers.{add, change, drop, withdraw};
ghost use Rattle.script_steps.specs.LineSteps.{IsEditStep};
ghost use Rattle.script_steps.specs.LineTexts.{ok_line};
ghost use Rattle.script_steps.specs.Standings.{StaysOrSteps, more_work};
ghost use Rattle.script_steps.specs.private.StepViews.{IsEditReply, IsLost, IsMade, work_behind};

use crate::refusals::edit_refusal;
use crate::reply::{LineReply, answered};
use crate::script::Script;
use payroll_records::{Day, Employee, Record, When};
use recalc_engine::{EditRefusal, Work};
use std::alloc::{AllocError, Global};
use std::sync::ledger::Ledger;
use steps::Steps;

/// What is answered to an edit that is accepted.
pub(crate) const OK: &[u8] = b"ok\n";

/// What is answered to an edit that the book has made, with this text, or has refused. The work of one that it has made
/// joins that of all edits.
pub(crate) fn edit_reply(
    alloc: Global,
    total: &mut Work,
    text: &[u8],
    made: Result<Work, EditRefusal>,
) -> Result<LineReply, AllocError>
    ensures reply { IfOk result (λ reply. IsEditReply text.now made (reply_of reply)) }
    ensures total { total.new ≡ work_behind total.old made }
{
    match made {
        Ok(work) => {
            *total = more_work(*total, work);
            Ok(answered(Vec::from_slice(alloc, text)?, work.steps))
        }
        Err(EditRefusal::Memory(error)) => Err(error),
        Err(why) => edit_refusal(alloc, &why),
    }
}

/// Work and more work, each total no more than the greatest number of 64 bits.
fn more_work(made: Work, work: Work) -> Work
    ensures { result ≡ more_work made work }
{
    Work {
        runs: made.runs.saturating_add(work.runs),
        steps: made.steps.saturating_add(work.steps),
    }
}

/// The line `add`.
pub(crate) fn add<L: Ledger>(
    alloc: Global,
    script: &mut Script,
    run: Record,
    steps: &mut Steps<L>,
) -> Result<LineReply, AllocError>
    ensures made { IfOk result (λ reply. IsMade (IsEditStep ok_line script.old (add run))
        script.new steps.old steps.new (reply_of reply)) }
    ensures lost { OnErr result
        (IsLost (IsEditStep ok_line script.old (add run)) steps.old steps.new) }
    ensures left { OnErr result
        (StaysOrSteps (IsEditStep ok_line script.old (add run)) script.old script.new) }
{
    let made = script.book.add(run, steps);
    edit_reply(alloc, &mut script.made, OK, made)
}

/// The line `change`.
pub(crate) fn change<L: Ledger>(
    alloc: Global,
    script: &mut Script,
    run: Record,
    steps: &mut Steps<L>,
) -> Result<LineReply, AllocError>
    ensures made { IfOk result (λ reply. IsMade (IsEditStep ok_line script.old (change run))
        script.new steps.old steps.new (reply_of reply)) }
    ensures lost { OnErr result
        (IsLost (IsEditStep ok_line script.old (change run)) steps.old steps.new) }
    ensures left { OnErr result
        (StaysOrSteps (IsEditStep ok_line script.old (change run)) script.old script.new) }
{
    let made = script.book.change(run, steps);
    edit_reply(alloc, &mut script.made, OK, made)
}

/// The line `withdraw`.
pub(crate) fn withdraw<L: Ledger>(
    alloc: Global,
    script: &mut Script,
    employee: Employee,
    when: When,
    steps: &mut Steps<L>,
) -> Result<LineReply, AllocError>
    ensures made { IfOk result (λ reply. IsMade
        (IsEditStep ok_line script.old (withdraw employee when))
        script.new steps.old steps.new (reply_of reply)) }
    ensures lost { OnErr result
        (IsLost (IsEditStep ok_line script.old (withdraw employee when)) steps.old steps.new) }
    ensures left { OnErr result
        (StaysOrSteps (IsEditStep ok_line script.old (withdraw employee when))
        script.old script.new) }
{
    let made = script.book.withdraw(employee, when, steps);
    edit_reply(alloc, &mut script.made, OK, made)
}

/// The line `drop`.
pub(crate) fn drop_plan<L: Ledger>(
    alloc: Global,
    script: &mut Script,
    day: Day,
    steps: &mut Steps<L>,
) -> Result<LineReply, AllocError>
    ensures made { IfOk result (λ reply. IsMade (IsEditStep ok_line script.old (drop day))
        script.new steps.old steps.new (reply_of reply)) }
    ensures lost { OnErr result
        (IsLost (IsEditStep ok_line script.old (drop day)) steps.old steps.new) }
    ensures left { OnErr result
        (StaysOrSteps (IsEditStep ok_line script.old (drop day)) script.old script.new) }
{
    let made = script.book.drop_plan(day, steps);
    edit_reply(alloc, &mut script.made, OK, made)
}
