// The writer of codes: one text for every machine whose terms can be looked at position by position.
#![tactic(auto)]

mod heads;
mod pending;
mod sheet;
mod unfolding;
mod writes;

pub use heads::Head;
pub use unfolding::Unfolding;
pub use writes::write_code;
