// Trials of the libraries on codes with known ends. The crate has nothing but tests.
#![tactic(auto)]

#[cfg(test)]
mod codes;
#[cfg(test)]
mod counting;
#[cfg(test)]
mod handing;
#[cfg(test)]
mod limits;
#[cfg(test)]
mod storing;
#[cfg(test)]
mod writing;
