//! What the coordinator's log keeps, for who opens it.

ghost use Rattle.salt_decisions.specs.Header.{numbered_of};
ghost use Rattle.salt_decisions.specs.Said.{text_of};
ghost use Rattle.std.specs.Prelude.{IfOk, map, ◌≡◌};

use crate::header::Definition;
use salt_values::{Bytes, Conts, Ids, TryCopy};
use sqlite_items::Items;
use std::alloc::{AllocError, Global};

/// Texts, each as its bytes.
pub type Texts = Items<Bytes>;

/// What the coordinator's log says. Texts and moves are bytes, and continuations plain data, that no definition was read for.
#[derive(Drop)]
pub struct Kept {
    /// The last boot, 0 before the first.
    pub boot: u64,
    /// The number of the last decision or definition.
    pub decisions: u64,
    /// The canonical texts of the definitions, in the order of their numbers.
    pub definitions: Texts,
    /// The units that were decided since the last snapshot.
    pub decided: Ids,
    /// For each of these units, bit p set where partition p has changes of it.
    pub masks: Bytes,
    /// What each of these units does to the continuations, as it is spelled under `format`.
    pub moves: Texts,
    /// The continuations of the last snapshot.
    pub conts: Conts,
    /// The format of the header.
    pub format: u8,
    /// The device of the log, 0 or 1.
    pub device: u32,
}

/// Copies of the texts of definitions.
pub fn texts_of(alloc: Global, definitions: &[Definition]) -> Result<Texts, AllocError>
    ensures { IfOk result (λ texts. texts ≡ map (λ d. text_of (numbered_of d)) definitions.now) }
{
    let mut texts = Items::new(alloc);
    for definition in definitions {
        texts.push(definition.text.copy(alloc)?)?;
    }
    Ok(texts)
}
