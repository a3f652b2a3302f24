//! Tests of crates with bodies, through what they export: in those crates each would have its crate proved twice.
#![tactic(auto)]

#[cfg(test)]
mod printing;
#[cfg(test)]
mod streams;
#[cfg(test)]
mod tokens;
