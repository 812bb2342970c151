//! What finds the best candidate of a shape (C.04.3 B.8, C.4 to C.19): passes over the candidates.
//!
//! A pass looks at the candidates one by one, as a guide draws them. A guide may leave out candidates that are pruned;
//! what the passes end with is the same with every guide. The last 64 values of C.7 are kept on the heap; if memory is
//! refused for one, it is merely not kept.
#![tactic(auto)]

mod guide;
mod incumbent;
mod next_of_all;
mod pass;
mod passes;
mod remembered;
mod target;

pub use guide::{Guide, Workroom};
pub use incumbent::Incumbent;
pub use pass::{Pass, PassSoFar, is_barred, is_barred_with, loses};
pub use passes::{PassRoom, best_in_time};
pub use remembered::{Look, LookAhead, PassState, look_below};
pub use target::Target;
