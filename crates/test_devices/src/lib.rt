//! Tests of the crates between devices and a store, through what they export.
#![tactic(auto)]

#[cfg(test)]
mod decisions;
#[cfg(test)]
mod disks;
#[cfg(test)]
mod fake_files;
#[cfg(test)]
mod files;
#[cfg(test)]
mod partition;
#[cfg(test)]
mod rows;
