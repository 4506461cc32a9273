// The interface of a machine: what it means, its calls, and their refusals. The rules are definitions of specs/.
#![tactic(auto)]

mod faults;
mod machines;
mod outcomes;
mod transitions;

pub use faults::MachineFault;
pub use machines::Machine;
pub use outcomes::{Outcome, Table};
pub use transitions::Transition;
