//! A database over its devices.

ghost use Rattle.salt_devices.specs.Remembering.{numbers_known};
ghost use Rattle.salt_devices.specs.declared.pending.Pending.TheVariants.{Nothing};
ghost use Rattle.std.specs.Prelude.{None, true, ◌≡◌};

use crate::again::{numbers_of, open_again};
use crate::held::{begin_boot, decide_definition, decide_unit, load_rows, put_over, reject};
use crate::open::open_first;
use crate::pending::{Pending, pending_opening};
use salt_bytes::Move;
use salt_commit::Store;
use salt_disk::Disks;
use salt_loaded::Loaded;
use salt_model::Reach;
use salt_net::Net;
use salt_place::{PlaceKind, Placement, Shape};
use salt_schema::Schema;
use salt_storage::{Found, Halt, Numbers, OpenErr, Storage};
use salt_values::{Change, Id, Key};
use std::alloc::{AllocError, Global};

/// A database over devices, in the shape that is asked for: a store that stands on them, from an opening to the next error or
/// restart. Behind that its numbers alone are remembered, and what was being written, until it is reopened. Where commits go over
/// messages, each opening begins a new net.
#[derive(Drop)]
pub struct Devices {
    alloc: Global,
    shape: Shape,
    // whether commits go over messages
    over_net: bool,
    // whether the devices were started, and nothing was called since
    started: bool,
    store: Option<Store>,
    // the numbers of a store that was given up
    numbers: Numbers,
    // and what was being written then
    pending: Pending,
}

impl Devices {
    /// Devices that are not opened yet.
    pub fn new(alloc: Global, shape: Shape, over_net: bool) -> Devices
        ensures shape { result.shape ≡ shape }
        ensures over_net { result.over_net ≡ over_net }
        ensures started { result.started ≡ true }
        ensures store { result.store ≡ None }
        ensures pending { result.pending ≡ Nothing }
    {
        Devices {
            alloc,
            shape,
            over_net,
            started: true,
            store: None,
            numbers: Numbers {
                boot: 0,
                decisions: 0,
            },
            pending: Pending::Nothing,
        }
    }

    /// The numbers that are known: of the store, as long as it stands, and else those that are remembered.
    fn known(&self) -> Numbers
        ensures { result ≡ numbers_known self.now.store self.now.numbers }
    {
        match &self.store {
            Some(store) => numbers_of(store),
            None => self.numbers,
        }
    }

    /// The store is given up behind a call that failed: these are its numbers before that, and this was being written.
    fn forget(&mut self, numbers: Numbers, pending: Pending)
        ensures { self.new ≡ record self.old { store = None; numbers = numbers; pending = pending } }
    {
        self.store = None;
        self.numbers = numbers;
        self.pending = pending;
    }
}

impl Storage for Devices {
    ghost use Rattle.salt_devices.specs.Filling.{FillsIn};
    ghost use Rattle.salt_devices.specs.Holding.{IsCallable, IsNewWith, net_in, setup_in};
    ghost use Rattle.salt_devices.specs.Refusing.{FindsKept, RefusesDevices};
    ghost use Rattle.salt_devices.specs.Standing.{RestsAs, StandsHeld, StandsLeft, StandsStarted};
    ghost use Rattle.salt_devices.specs.declared.pending.Pending.TheVariants.{Opening};

    ghost holds = { λ d x k. StandsHeld x.shape x.started x.store x.pending d k };

    ghost leaves = { λ d x a b. StandsLeft x.shape x.started x.store x.numbers x.pending d a b };

    ghost rests = { λ d x k. RestsAs x.shape x.started d k };

    ghost settled = { λ d x. StandsStarted x.shape x.started x.store x.pending d };

    ghost unopened = { λ x. x.store ≡ None };

    ghost tried = { λ d x. x.pending ≡ Opening };

    ghost able = { λ d x. IsCallable x.shape x.started x.store x.pending d };

    ghost is_new = { λ d x u. IsNewWith d x.store u };

    ghost refuses = { λ d x e. RefusesDevices d x.started x.shape e };

    ghost finds = { λ d x k. FindsKept d x.started x.shape k };

    ghost asked = { λ x. setup_in x.shape x.over_net };

    ghost net = { λ x. net_in x.store };

    ghost fills = { λ d x w dev. FillsIn d x.shape w dev };

    fn open<D: Disks, F: Fn(PlaceKind, &Key, u32) -> u32>(
        &mut self,
        disks: &mut D,
        place: &Placement<F>,
    ) -> Result<Found, OpenErr> {
        self.started = false;
        match open_first(self.alloc, disks, place, self.shape, self.pending) {
            Ok((store, found)) => {
                self.store = Some(put_over(store, self.over_net));
                self.pending = Pending::Nothing;
                Ok(found)
            }
            Err(e) => {
                self.pending = pending_opening(e);
                Err(e)
            }
        }
    }

    fn reopen<D: Disks, F: Fn(PlaceKind, &Key, u32) -> u32>(
        &mut self,
        disks: &mut D,
        place: &Placement<F>,
    ) -> Result<Numbers, OpenErr> {
        self.started = false;
        let (numbers, pending) = (self.numbers, self.pending);
        match open_again(self.alloc, disks, place, self.shape, numbers, pending) {
            Ok(store) => {
                let found = numbers_of(&store);
                self.store = Some(put_over(store, self.over_net));
                self.pending = Pending::Nothing;
                Ok(found)
            }
            Err(e) => Err(e),
        }
    }

    fn boot<D: Disks>(&mut self, disks: &mut D) -> Result<u64, Halt> {
        let Some(store) = &mut self.store else {
            return Err(reject(disks));
        };
        let before = numbers_of(store);
        match begin_boot(store, disks) {
            Ok(boot) => Ok(boot),
            Err(e) => {
                self.forget(before, Pending::Boot);
                Err(e)
            }
        }
    }

    fn load<D: Disks, F: Fn(PlaceKind, &Key, u32) -> u32>(
        &mut self,
        disks: &mut D,
        place: &Placement<F>,
        schema: &Schema,
        reach: &Reach,
    ) -> Result<Loaded, Halt> {
        let Some(store) = &mut self.store else {
            return Err(reject(disks));
        };
        let before = numbers_of(store);
        match load_rows(store, disks, place, schema, reach) {
            Ok(rows) => Ok(rows),
            Err(e) => {
                self.forget(before, Pending::Nothing);
                Err(e)
            }
        }
    }

    fn commit<D: Disks, F: Fn(PlaceKind, &Key, u32) -> u32>(
        &mut self,
        disks: &mut D,
        place: &Placement<F>,
        unit: Id,
        changes: &[Change],
        made: &Move,
    ) -> Result<u64, Halt> {
        let Some(store) = &mut self.store else {
            return Err(reject(disks));
        };
        let before = numbers_of(store);
        match decide_unit(self.alloc, store, disks, place, unit, changes, made) {
            Ok(number) => Ok(number),
            Err(e) => {
                self.forget(before, Pending::Decision);
                Err(e)
            }
        }
    }

    fn define<D: Disks, F: Fn(PlaceKind, &Key, u32) -> u32>(
        &mut self,
        disks: &mut D,
        place: &Placement<F>,
        text: &[u8],
    ) -> Result<u64, Halt> {
        let Some(store) = &mut self.store else {
            return Err(reject(disks));
        };
        let before = numbers_of(store);
        match decide_definition(store, disks, place, text) {
            Ok(number) => Ok(number),
            Err(e) => {
                self.forget(before, Pending::Decision);
                Err(e)
            }
        }
    }

    fn arm<D: Disks>(&mut self, disks: &mut D, calls: u64, pick: u8) -> Result<(), AllocError> {
        disks.arm(calls, pick)
    }

    fn arm_net<D: Disks>(&mut self, _disks: &D, pairs: &[(u64, u8)]) -> Result<(), AllocError> {
        match &mut self.store {
            Some(store) => store.arm_net(pairs),
            None => Ok(()),
        }
    }

    fn over_net(&self) -> bool {
        self.over_net
    }

    fn reject<D: Disks>(&self, disks: &mut D) -> Halt {
        reject(disks)
    }

    fn restart<D: Disks>(&mut self, disks: &mut D) {
        self.numbers = self.known();
        self.store = None;
        disks.restart();
        self.started = true;
    }

    fn stands<D: Disks>(&self, disks: &D) {
        let _ = disks;
    }

    fn into_net<D: Disks>(self, _disks: &D) -> Option<Net> {
        let store = self.store;
        match store {
            Some(store) => store.into_net(),
            None => None,
        }
    }
}
