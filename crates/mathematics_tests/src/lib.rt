//! Tests of the crates of the floor of mathematics, in a crate of their own: a crate with tests is
//! proved twice, and each crate with tests is linked and proved down to the machine.
#![tactic(auto)]

#[cfg(test)]
mod base;
#[cfg(test)]
mod codes;
#[cfg(test)]
mod derived;
#[cfg(test)]
mod foldovers;
#[cfg(test)]
mod galois;
#[cfg(test)]
mod matrices;
#[cfg(test)]
mod runs;
#[cfg(test)]
mod vectors;
