//! A step of a trace.

use pap_tree::Name;
use scaled_decimal::Dec;

/// A statement that was executed, with its place: the method, of which MAIN's name is `MAIN`, and the number of the
/// statement in it, from 0 in the order of the text, an IF before its lists.
#[derive(Clone, Copy, Debug, PartialEq, Eq)]
pub enum TraceStep {
    /// An assignment: its target, and the value that was put there.
    Set {
        method: Name,
        stmt: u32,
        target: Name,
        value: Dec,
    },
    /// An IF, and whether its test held.
    Test {
        method: Name,
        stmt: u32,
        yes: bool,
    },
    /// An EXECUTE, and its method.
    Enter {
        method: Name,
        stmt: u32,
        callee: Name,
    },
}
