//! The trace of a run: each statement that was executed, with what it did.
#![tactic(auto)]

mod book;
mod expressions;
mod operations;
mod refusal;
mod run;
mod statements;
mod step;

pub use book::trace;
pub use refusal::TraceRefusal;
pub use run::{trace_laws, trace_run};
pub use step::TraceStep;
