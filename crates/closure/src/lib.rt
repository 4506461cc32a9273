// The closure machine: terms are not copied, a closure is a node with a chain of entries.
#![tactic(auto)]

mod state;

pub use state::Closure;
