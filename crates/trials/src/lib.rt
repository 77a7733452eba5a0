// Trials: the numbers that programs try things with, and how long a step takes.
#![tactic(auto)]

mod random;
mod time;

pub use random::{Random, fill, generator};
pub use time::best_of;
