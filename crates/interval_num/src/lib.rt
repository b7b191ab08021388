//! Intervals of decimals and of whole numbers: what each operation of the flowchart makes of ranges of values, or why
//! some values of the ranges would leave its limits.
#![tactic(auto)]

mod alignment;
mod cause;
mod decimals;
mod hull;
mod interval;
mod items;
mod quotients;
mod refinement;
mod sign_set;
mod wholes;

pub use cause::RangeCause;
pub use decimals::{abs_abs, abs_add, abs_cmp, abs_max, abs_min, abs_mul, abs_neg, abs_sub, join};
pub use interval::Abs;
pub use items::{ItemRanges, abs_item};
pub use quotients::{abs_div, abs_div_exact, abs_set_scale};
pub use refinement::refine;
pub use sign_set::{SignSet, signs};
pub use wholes::{
    int_add, int_div, int_mul, int_neg, int_rem, int_sub, long_add, long_div, long_mul, long_neg,
    long_rem, long_sub,
};
