//! Where a run fails.

use crate::FailureCause;
use pap_tree::{Name, Place};

/// Where a run fails, and why.
#[derive(Clone, Copy, Debug, PartialEq, Eq)]
pub enum RunFailure {
    /// The node to which the run comes, and at which it has no value or meets a number beyond a limit.
    At { place: Place, cause: FailureCause },
    /// A method is executed behind 64 others, each of which executes the next.
    Chain { method: Name },
}

/// The same of a node of an expression.
#[derive(Clone, Copy)]
pub(crate) struct NodeFailure {
    pub node: u32,
    pub cause: FailureCause,
}
