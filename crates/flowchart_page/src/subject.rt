//! What a page shows.

/// What a page shows beside the drawings: its title says so.
#[derive(Clone, Copy)]
pub enum Subject {
    /// The flowchart alone, with what is known of all runs or without.
    Flowchart,
    /// A run, or why there is none.
    Run,
    /// To which statements the runs of a table came.
    Coverage,
}
