//! The accepted programs that are not released.

ghost use Rattle.law_states.specs.Rising.{AreInOrder, Rising};
ghost use Rattle.salt_values.specs.Id.{has_id, in_order, insert_id, is_older, without};
ghost use Rattle.salt_values.specs.declared.id.Id.{Id};
ghost use Rattle.std.specs.List.Sorted.{IsPartitionPoint};
ghost use Rattle.std.specs.Prelude.{IfOk, IsTrue, OnOk, [], false, get_or, length, true, ◌++◌, ◌<◌, ◌∷◌, ◌≡◌, ◌≤◌};

use salt_queue::Queue;
use salt_values::{Id, drop_ids, has_id, in_order, insert_id, is_older, is_same_id};
use std::alloc::{AllocError, Global};
use std::mem;

/// Names of programs. Where it is known that they are in order one is found by halves, and one that is younger than all is put
/// behind them at once.
#[derive(Drop)]
pub struct Programs {
    pub names: Queue<Id>,
    /// Whether it is known that the names are in order, each once.
    pub rising: bool,
    ghost known: { IsTrue rising → AreInOrder names },
}

/// How many of the names are older than one.
fn count_older(names: &[Id], name: Id) -> usize
    requires { Rising names.now }
    ensures counted { IsPartitionPoint (λ v. is_older v name ≡ true) (λ v. is_older v name ≡ false) names.now result }
    ensures bound { result ≤ length names.now }
{
    names.partition_point(
        |other: &Id| -> bool
            ensures { result ≡ is_older other.now name }
        { is_older(*other, name) },
    )
}

/// Whether a name stands at a place.
fn is_at(names: &[Id], at: usize, name: Id) -> bool
    ensures there { result ≡ true → (at < length names.now) × ((d : Id) → get_or names.now at d ≡ name) }
    ensures another { result ≡ false → at < length names.now → (d : Id) → get_or names.now at d ≡ name → ⊥ }
{
    if at < names.len() {
        is_same_id(names[at], name)
    } else {
        false
    }
}

/// Whether a name is among names in order.
fn is_among(names: &[Id], name: Id) -> bool
    requires { Rising names.now }
    ensures { result ≡ has_id name names.now }
{
    let at = count_older(names, name);
    is_at(names, at, name)
}

/// Whether all of names in order are older than a name, so that they are in order with it behind them.
fn are_all_older(names: &[Id], name: Id) -> bool
    requires { Rising names.now }
    ensures { result ≡ true → Rising (names.now ++ name ∷ []) }
{
    count_older(names, name) == names.len()
}

/// Takes a name out of names in order, if it is there.
fn drop_one(names: &mut Queue<Id>, name: Id)
    requires { Rising names.old }
    ensures rising { Rising names.new }
    ensures dropped { names.new ≡ without (name ∷ []) names.old }
{
    let at = count_older(names.as_slice(), name);
    if !is_at(names.as_slice(), at, name) {
        return;
    }
    names.remove(at);
}

/// Takes names out of names in order.
fn drop_each(names: &mut Queue<Id>, gone: &[Id])
    requires { Rising names.old }
    ensures rising { Rising names.new }
    ensures dropped { names.new ≡ without gone.now names.old }
{
    for name in gone {
        drop_one(names, *name);
    }
}

impl Programs {
    /// These names.
    pub fn new(names: Vec<Id>) -> Programs
        ensures { result.names ≡ names.items }
    {
        let rising = names.as_slice().is_empty();
        Programs {
            names: Queue::from_vec(names),
            rising,
        }
    }

    /// The names.
    pub fn names(&self) -> &[Id]
        ensures { result.now ≡ self.now.names }
    {
        self.names.as_slice()
    }

    /// Whether a name is among them.
    pub fn has(&self, name: Id) -> bool
        ensures { result ≡ has_id name self.now.names }
    {
        if self.rising {
            is_among(self.names.as_slice(), name)
        } else {
            has_id(self.names.as_slice(), name)
        }
    }

    /// The names in order, each once.
    pub fn in_order(&self, alloc: Global) -> Result<Vec<Id>, AllocError>
        ensures { IfOk result (λ ids. ids.items ≡ in_order self.now.names) }
    {
        if self.rising {
            Vec::from_slice(alloc, self.names.as_slice())
        } else {
            in_order(alloc, self.names.as_slice())
        }
    }

    /// Whether it is known that all are older than a name, and in order.
    fn are_older(&self, name: Id) -> bool
        ensures { result ≡ true → Rising (self.now.names ++ name ∷ []) }
    {
        if self.rising {
            are_all_older(self.names.as_slice(), name)
        } else {
            false
        }
    }

    /// Puts a name among them, in its order. Where memory runs out they are in no state that is told.
    pub fn insert(&mut self, alloc: Global, name: Id) -> Result<(), AllocError>
        ensures { OnOk result (self.new.names ≡ insert_id name self.old.names) }
    {
        if self.are_older(name) {
            self.names.push(name)?;
            return Ok(());
        }
        let rising = self.rising;
        self.rising = false;
        let mut names = mem::replace(&mut self.names, Queue::new(alloc)).into_vec();
        insert_id(&mut names, name)?;
        self.names = Queue::from_vec(names);
        self.rising = rising;
        Ok(())
    }

    /// Takes those of some names out that are among them.
    pub fn strike(&self, others: &mut Vec<Id>)
        ensures { others.new.items ≡ without self.now.names others.old.items }
    {
        others.retain(|name| !self.has(*name));
    }

    /// Takes names out of them.
    pub fn drop_all(&mut self, alloc: Global, gone: &[Id])
        ensures { self.new.names ≡ without gone.now self.old.names }
    {
        if self.rising {
            drop_each(&mut self.names, gone);
        } else {
            let mut names = mem::replace(&mut self.names, Queue::new(alloc)).into_vec();
            drop_ids(&mut names, gone);
            self.names = Queue::from_vec(names);
        }
    }
}
