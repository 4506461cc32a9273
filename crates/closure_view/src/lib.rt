// A look at the closure machine's tables: the standing term, position by position.
#![tactic(auto)]

mod heads;
mod links;
mod looks;
mod positions;
mod views;

pub use links::link;
pub use views::View;
