// The rows of the closure machine's tables, and positions of the term that stands in them.
// What tables present, a state of the abstract machine, and what stands at a position are definitions of specs/.
#![tactic(auto)]

mod positions;
mod rows;

pub use positions::{Position, Spot};
pub use rows::{Argument, Cell, Entry};
