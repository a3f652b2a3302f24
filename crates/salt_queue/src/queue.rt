//! A list whose first items go at no cost.

ghost use Rattle.std.specs.List.{remove};
ghost use Rattle.std.specs.Prelude.{OnErr, OnOk, [], drop, length, slice_set, vec_len, ◌++◌, ◌<◌, ◌∷◌, ◌≡◌, ◌≤◌};

use std::alloc::{AllocError, Global};
use std::marker::Model;

/// A list that is seen as a slice, and whose first items go as a rule. They are only counted as gone, until they are more than
/// half of what is kept: so an item that goes from the front moves two others at most, taken over all.
#[derive(Drop)]
pub struct Queue<T> {
    items: Vec<T>,
    gone: usize,
}

impl<T> Model for Queue<T> {
    ghost use Rattle.std.specs.Prelude.{List, drop, length, ◌≤◌};

    ghost Value = { List T };

    ghost view = { λ q. drop q.gone q.items.items };

    ghost invariant = { λ q. q.gone ≤ length q.items.items };
}

/// The first items go.
fn sweep<T: Drop>(items: &mut Vec<T>, gone: usize)
    requires { gone ≤ vec_len items.old }
    ensures { items.new.items ≡ drop gone items.old.items }
{
    items.rotate_left(gone);
    items.truncate(items.len() - gone);
}

impl<T> Queue<T> {
    /// No items.
    pub fn new(alloc: Global) -> Queue<T>
        ensures { result ≡ [] }
    {
        Queue::from_vec(Vec::new(alloc))
    }

    /// These items.
    pub fn from_vec(items: Vec<T>) -> Queue<T>
        ensures { result ≡ items.items }
    {
        Queue { items, gone: 0 }
    }

    /// The items.
    pub fn as_slice(&self) -> &[T]
        ensures { result.now ≡ self.now }
    {
        &self.items.as_slice()[self.gone..]
    }

    /// Puts an item behind the others. An error leaves them.
    pub fn push(&mut self, item: T) -> Result<(), AllocError>
    where
        T: Drop,
        ensures ok { OnOk result (self.new ≡ self.old ++ item ∷ []) }
        ensures err { OnErr result (self.new ≡ self.old) }
    {
        self.items.push(item)?;
        Ok(())
    }

    /// Puts an item in the place of another.
    pub fn set(&mut self, at: usize, item: T)
    where
        T: Drop,
        requires { at < length self.old }
        ensures { self.new ≡ slice_set self.old at item }
    {
        self.items[self.gone + at] = item;
    }

    /// Takes out the item at a place; the first is only counted.
    pub fn remove(&mut self, at: usize)
    where
        T: Drop,
        requires { at < length self.old }
        ensures { self.new ≡ remove self.old at }
    {
        if at > 0 {
            let _item = self.items.remove(self.gone + at);
            return;
        }
        self.gone += 1;
        if self.gone > self.items.len() / 2 {
            sweep(&mut self.items, self.gone);
            self.gone = 0;
        }
    }

    /// The items, in a `Vec` of their own.
    pub fn into_vec(mut self) -> Vec<T>
    where
        T: Drop,
        ensures { result.items ≡ self }
    {
        sweep(&mut self.items, self.gone);
        self.items
    }
}
