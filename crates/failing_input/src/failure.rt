//! What goes wrong in a run on admitted inputs.

use checked_run::FailureCause;
use pap_tree::{Name, Place};

/// What goes wrong in a run on admitted inputs.
#[derive(Clone, Copy, Debug, PartialEq, Eq)]
pub enum Failure {
    /// The run comes to this node, which fails for this cause.
    Node { place: Place, cause: FailureCause },
    /// The run ends, and this output has more than 12 digits after its point or is beyond 10^20.
    Output { name: Name },
}
