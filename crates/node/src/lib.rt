// One node of a code: how bytes spell it, the checks at it, the faults, and what a reading hands over.
#![tactic(auto)]

mod checks;
mod faults;
mod nodes;
mod spells;

pub use checks::{LAST_INGREDIENT, Site};
pub use faults::Fault;
pub use nodes::{Located, Misspelling, Node, Part};
pub use spells::spell;
