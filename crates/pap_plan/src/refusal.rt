//! Why the two texts of a plan are refused.
ghost use Rattle.std.specs.Prelude.{◌≡◌};
ghost use Rattle.pap_plan.specs.declared.refusal.PlanRefusal.TheVariants.{Memory};
ghost use Rattle.pap_plan.specs.StageRefusals.{text_refusal, type_refusal, order_refusal, limits_refusal, range_refusal};

use call_order::OrderFault;
use interval_analysis::RangeFault;
use limits_file::LimitsFault;
use pap_expr::ExprFault;
use pap_reader::ReadFault;
use pap_tree::Name;
use pap_types::TypeFault;
use plan_text::{PlanFault, Spot};
use std::alloc::{AllocError, AllocFailed};
use thiserror::Error;

/// Why two texts are refused, in the order in which it is tried; `Memory` may come at any stage. Its texts are for a plan's
/// author, and say what is wrong without the place.
#[derive(Debug, Drop, Error)]
pub enum PlanRefusal {
    /// The elements of the plan.
    #[error("{0}")]
    Read(ReadFault),
    /// The first expression of the plan that isn't one.
    #[error("{fault}")]
    Expr { spot: Spot, fault: ExprFault },
    /// The plan's names and kinds.
    #[error("{0}")]
    Types(TypeFault),
    /// The order of the plan's methods, and its length.
    #[error("{0}")]
    Order(OrderFault),
    /// The range file.
    #[error("{0}")]
    Limits(LimitsFault),
    /// An input without a limit, or a limit of no input.
    #[error("the INPUT {name}, or its entry [input.{name}] in the range file, is missing")]
    LimitName { name: Name },
    /// An input whose limit doesn't suit its type.
    #[error("the range of the entry [input.{name}] doesn't suit the type of the INPUT {name}")]
    LimitKind { name: Name },
    /// A binding of no input, or to no output.
    #[error("there is no INPUT {name} for the entry [bind.{name}], or no OUTPUT of the name that it \
        gives")]
    Bind { name: Name },
    /// The ranges of the plan's values.
    #[error("{0}")]
    Range(RangeFault),
    /// Memory ran out.
    #[error("out of memory")]
    Memory,
}

impl From<AllocError> for PlanRefusal {
    ghost from_gives = { λ _ refusal. refusal ≡ Memory };

    fn from(_e: AllocError) -> PlanRefusal {
        PlanRefusal::Memory
    }
}

impl<T: Drop> From<AllocFailed<T>> for PlanRefusal {
    ghost from_gives = { λ _ refusal. refusal ≡ Memory };

    fn from(_e: AllocFailed<T>) -> PlanRefusal {
        PlanRefusal::Memory
    }
}

impl From<PlanFault> for PlanRefusal {
    ghost from_gives = { λ fault refusal. refusal ≡ text_refusal fault };

    fn from(fault: PlanFault) -> PlanRefusal {
        match fault {
            PlanFault::Read(fault) => PlanRefusal::Read(fault),
            PlanFault::Expr { spot, fault } => PlanRefusal::Expr { spot, fault },
            PlanFault::Memory => PlanRefusal::Memory,
        }
    }
}

impl From<TypeFault> for PlanRefusal {
    ghost from_gives = { λ fault refusal. refusal ≡ type_refusal fault };

    fn from(fault: TypeFault) -> PlanRefusal {
        match fault {
            TypeFault::Memory(_) => PlanRefusal::Memory,
            fault => PlanRefusal::Types(fault),
        }
    }
}

impl From<OrderFault> for PlanRefusal {
    ghost from_gives = { λ fault refusal. refusal ≡ order_refusal fault };

    fn from(fault: OrderFault) -> PlanRefusal {
        match fault {
            OrderFault::Memory(_) => PlanRefusal::Memory,
            fault => PlanRefusal::Order(fault),
        }
    }
}

impl From<LimitsFault> for PlanRefusal {
    ghost from_gives = { λ fault refusal. refusal ≡ limits_refusal fault };

    fn from(fault: LimitsFault) -> PlanRefusal {
        match fault {
            LimitsFault::Memory(_) => PlanRefusal::Memory,
            fault => PlanRefusal::Limits(fault),
        }
    }
}

impl From<RangeFault> for PlanRefusal {
    ghost from_gives = { λ fault refusal. refusal ≡ range_refusal fault };

    fn from(fault: RangeFault) -> PlanRefusal {
        match fault {
            RangeFault::Memory(_) => PlanRefusal::Memory,
            fault => PlanRefusal::Range(fault),
        }
    }
}
