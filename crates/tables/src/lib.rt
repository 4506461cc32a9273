// The levels of a machine's three tables, and a guard that restores them.
#![tactic(auto)]

mod guard;
mod levels;

pub use guard::Guard;
pub use levels::{Level, Levels};
