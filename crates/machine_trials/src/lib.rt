// Trials of machines through their interface. The crate has nothing but tests.
#![tactic(auto)]

#[cfg(test)]
mod runs;
