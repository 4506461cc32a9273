// Reads codes: one reading for any receiver of nodes, and the count of an ingredient.
#![tactic(auto)]

mod counter;
mod counts;
mod frontier;
mod reads;
mod receiver;
mod right_sides;

pub use counts::{CountFault, count};
pub use reads::read;
pub use receiver::Receiver;
