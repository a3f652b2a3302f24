//! Programs that read from each other and finish.

use salt_deps::Deps;
use salt_ranges::KeyRange;
use salt_values::{Id, Key, Value};
use std::alloc::{AllocError, Global};

/// Who reads from whom, and in which order they finish.
#[derive(Clone, Copy, Debug, PartialEq, Eq)]
pub enum Shape {
    /// Each from the one before it; the last finishes first.
    Chain,
    /// All from the first; the last finishes first.
    Star,
    /// Each from the one before it; the first finishes first.
    Hot,
    /// Each from the one before it; the second finishes first, and the first last.
    Late,
}

const fn id(seq: u64) -> Id {
    Id { boot: 1, seq }
}

/// The program of a number reads, then writes.
fn add(deps: &mut Deps, seq: u64, shape: Shape) -> Result<(), AllocError> {
    let key: Key = Value::Int(7);
    let range = KeyRange { lo: None, hi: None };
    deps.read(id(seq), 0, &range)?;
    if shape != Shape::Star || seq == 0 {
        deps.wrote(Some(id(seq)), 0, &key)?;
    }
    Ok(())
}

/// Which one finishes after so many.
fn turn(shape: Shape, many: u64, seq: u64) -> u64 {
    match shape {
        Shape::Hot => seq,
        Shape::Late => {
            let next = seq.saturating_add(1);
            if next < many { next } else { 0 }
        }
        Shape::Chain | Shape::Star => many.saturating_sub(seq).saturating_sub(1),
    }
}

/// So many read and write, and then all finish. How many were released.
fn once(alloc: Global, many: u64, shape: Shape) -> Result<u64, AllocError> {
    let mut deps = Deps::new(alloc);
    for seq in 0..many {
        add(&mut deps, seq, shape)?;
    }
    let mut released: u64 = 0;
    for seq in 0..many {
        let names = deps.finished(id(turn(shape, many, seq)))?;
        released = released.saturating_add(names.len() as u64);
    }
    Ok(released)
}

/// So many programs, made and finished so often; how many were released in all.
pub fn released(alloc: Global, many: u32, times: u32, shape: Shape) -> Result<u64, AllocError> {
    let mut released: u64 = 0;
    for _ in 0..times {
        released = released.saturating_add(once(alloc, u64::from(many), shape)?);
    }
    Ok(released)
}
