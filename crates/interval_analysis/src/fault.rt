//! Why a plan's ranges are refused.
ghost use Rattle.std.specs.Prelude.{◌≡◌};
ghost use Rattle.interval_analysis.specs.declared.fault.RangeFault.TheVariants.{Memory};

use interval_num::RangeCause;
use pap_tree::{Name, Place};
use std::alloc::AllocError;
use thiserror::Error;

/// Why a plan has no ranges. Its texts are for a plan's author, and say what is wrong without the place.
#[derive(Debug, Drop, Error)]
pub enum RangeFault {
    /// The first node that may fail for some admitted inputs.
    #[error("{cause} on inputs within their ranges")]
    At { place: Place, cause: RangeCause },
    /// The first output that may have more than 12 digits after its point, or a magnitude above 10^20.
    #[error("the OUTPUT {name} may have more than 12 digits after its point, or be beyond 10^20, on \
        inputs within their ranges")]
    Output { name: Name },
    /// Memory ran out.
    #[error("out of memory")]
    Memory(AllocError),
}

impl From<AllocError> for RangeFault {
    ghost from_gives = { λ error fault. fault ≡ Memory error };

    fn from(error: AllocError) -> RangeFault {
        RangeFault::Memory(error)
    }
}
