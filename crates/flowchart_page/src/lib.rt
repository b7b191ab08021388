//! A flowchart as one page of HTML: its verdict, its methods, its declarations, and each method drawn.
#![tactic(auto)]

mod chart;
mod declarations;
mod header;
mod index;
mod ranges;
mod site;
mod subject;
mod verdict;

pub use chart::{Chart, RunShown, draw_chart, draw_judged, draw_ranged, draw_stopped};
pub use index::Marking;
pub use subject::Subject;
pub use verdict::{Reason, Verdict, judge};
