//! Why a plan's text is not read.
ghost use Rattle.std.specs.Prelude.{◌≡◌};
ghost use Rattle.plan_text.specs.declared.fault.PlanFault.TheVariants.{Memory};
ghost use Rattle.plan_text.specs.private.Views.{fault_at};

use pap_expr::ExprFault;
use pap_reader::ReadFault;
use pap_tree::Name;
use std::alloc::{AllocError, AllocFailed};
use std::fmt;
use thiserror::Error;

/// Where an expression's text stands.
#[derive(Clone, Copy, Debug, PartialEq, Eq)]
pub enum Spot {
    /// In a statement. Statements of a method are numbered from 0 in the order of the text; MAIN's name is `MAIN`.
    Statement { method: Name, stmt: u32 },
    /// In the attribute `default` or `value` of a declared name.
    Declared { name: Name },
}

impl fmt::Display for Spot {
    ghost use Rattle.std.specs.Prelude.{Some};
    ghost use Rattle.plan_text.specs.Spots.{spot_text};

    ghost output = { λ spot. Some (spot_text spot) };

    /// `METHOD:STATEMENT`, or the declared name.
    fn fmt<W: fmt::Write>(&self, f: &mut fmt::Formatter<W>) -> fmt::Result {
        match self {
            Spot::Statement { method, stmt } => write!(f, "{method}:{stmt}"),
            Spot::Declared { name } => write!(f, "{name}"),
        }
    }
}

/// Why the bytes of a plan's file are not read. Its texts are for a plan's author, and say what is wrong without
/// the place.
#[derive(Clone, Copy, Debug, PartialEq, Eq, Error)]
pub enum PlanFault {
    /// The elements aren't those of a plan.
    #[error("{0}")]
    Read(ReadFault),
    /// The first expression that isn't one, and the byte of its attribute's text.
    #[error("{fault}")]
    Expr { spot: Spot, fault: ExprFault },
    /// Memory ran out.
    #[error("out of memory")]
    Memory,
}

impl From<AllocError> for PlanFault {
    ghost from_gives = { λ _ fault. fault ≡ Memory };

    fn from(_e: AllocError) -> PlanFault {
        PlanFault::Memory
    }
}

impl<T: Drop> From<AllocFailed<T>> for PlanFault {
    ghost from_gives = { λ _ fault. fault ≡ Memory };

    fn from(_e: AllocFailed<T>) -> PlanFault {
        PlanFault::Memory
    }
}

/// The fault of an expression's text; lack of memory is its own.
pub(crate) fn expr_fault(spot: Spot, fault: ExprFault) -> PlanFault
    ensures { result ≡ fault_at spot fault }
{
    match fault {
        ExprFault::Memory => PlanFault::Memory,
        fault => PlanFault::Expr { spot, fault },
    }
}
