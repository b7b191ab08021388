//! Why nothing is covered.
ghost use Rattle.std.specs.Prelude.{◌≡◌};

use pap_plan::PlanRefusal;
use payroll_records::TableFault;
use std::alloc::AllocError;

/// Why the runs of a table aren't followed through a plan.
#[derive(Debug, Drop)]
pub enum CoverRefusal {
    /// The plan and its range file are refused.
    Plan(PlanRefusal),
    /// The table is refused.
    Table(TableFault),
    /// The table has more runs than a book may have, which is 50,000.
    Records,
    /// Memory ran out.
    Memory(AllocError),
}

impl From<AllocError> for CoverRefusal {
    ghost use Rattle.table_coverage.specs.declared.refusal.CoverRefusal.TheVariants.{Memory};

    ghost from_gives = { λ error refusal. refusal ≡ Memory error };

    fn from(error: AllocError) -> Self {
        CoverRefusal::Memory(error)
    }
}

impl From<PlanRefusal> for CoverRefusal {
    ghost use Rattle.table_coverage.specs.Refusals.{refusal_of_plan};

    ghost from_gives = { λ why refusal. refusal ≡ refusal_of_plan why };

    fn from(why: PlanRefusal) -> Self {
        match why {
            PlanRefusal::Memory => CoverRefusal::Memory(AllocError),
            why => CoverRefusal::Plan(why),
        }
    }
}

impl From<TableFault> for CoverRefusal {
    ghost use Rattle.table_coverage.specs.Refusals.{refusal_of_table};

    ghost from_gives = { λ fault refusal. refusal ≡ refusal_of_table fault };

    fn from(fault: TableFault) -> Self {
        match fault {
            TableFault::Memory(error) => CoverRefusal::Memory(error),
            fault => CoverRefusal::Table(fault),
        }
    }
}
