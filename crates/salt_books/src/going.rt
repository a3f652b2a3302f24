//! The continuations, of which the oldest goes first as a rule.

ghost use Rattle.salt_values.specs.declared.cont.Cont.{Cont};
ghost use Rattle.std.specs.List.{remove};
ghost use Rattle.std.specs.Prelude.{IsTrue, OnOk, [], drop, length, slice_set, ◌++◌, ◌<◌, ◌∷◌, ◌≡◌, ◌↔◌};

use salt_values::{Cont, Conts, copies};
use sqlite_items::Items;
use std::alloc::{AllocError, Global};
use std::marker::Model;

/// Continuations in a list whose first ones go at no cost: they are only counted as gone, until all are gone, or one is put behind a list
/// of which more than half is gone. So each that goes makes one copy of another at most, taken over all.
#[derive(Drop)]
pub struct Going {
    items: Conts,
    gone: usize,
}

impl Model for Going {
    ghost use Rattle.salt_values.specs.declared.cont.Cont.{Cont};
    ghost use Rattle.std.specs.Prelude.{List, drop, length, ◌≤◌};

    ghost Value = { List Cont };

    ghost view = { λ g. drop g.gone g.items };

    ghost invariant = { λ g. g.gone ≤ length g.items };
}

impl Going {
    /// These continuations.
    pub fn from_items(items: Conts) -> Going
        ensures { result ≡ items }
    {
        Going { items, gone: 0 }
    }

    /// The continuations.
    pub fn as_slice(&self) -> &[Cont]
        ensures { result.now ≡ self.now }
    {
        &self.items.as_slice()[self.gone..]
    }

    /// How many there are.
    pub fn len(&self) -> usize
        ensures { result ≡ length self.now }
    {
        self.items.len() - self.gone
    }

    /// Whether there is none.
    pub fn is_empty(&self) -> bool
        ensures { IsTrue result ↔ (self.now ≡ []) }
    {
        self.as_slice().is_empty()
    }

    /// Lets go of those that are gone, where they are more than half.
    fn sweep(&mut self, alloc: Global) -> Result<(), AllocError>
        ensures { OnOk result (self.new ≡ self.old) }
    {
        if self.gone > self.items.len() / 2 {
            self.items = copies(alloc, self.as_slice())?;
            self.gone = 0;
        }
        Ok(())
    }

    /// Puts one behind the others.
    pub fn push(&mut self, alloc: Global, cont: Cont) -> Result<(), AllocError>
        ensures { OnOk result (self.new ≡ self.old ++ cont ∷ []) }
    {
        self.sweep(alloc)?;
        self.items.push(cont)
    }

    /// Puts one in the place of another.
    pub fn set(&mut self, at: usize, cont: Cont)
        requires { at < length self.old }
        ensures { self.new ≡ slice_set self.old at cont }
    {
        // For the proof alone: all can be counted, so that the sum fits.
        let _count = self.items.len();
        self.items.set(self.gone + at, cont);
    }

    /// The first goes.
    fn remove_first(&mut self, alloc: Global)
        requires { 0 < length self.old }
        ensures { self.new ≡ remove self.old 0 }
    {
        let count = self.items.len();
        self.gone += 1;
        if self.gone == count {
            self.items = Items::new(alloc);
            self.gone = 0;
        }
    }

    /// The one at a place goes.
    pub fn remove(&mut self, alloc: Global, at: usize)
        requires { at < length self.old }
        ensures { self.new ≡ remove self.old at }
    {
        if at == 0 {
            self.remove_first(alloc);
        } else {
            // For the proof alone, as in `set`.
            let _count = self.items.len();
            let _cont = self.items.remove(self.gone + at);
        }
    }
}
