//! What `show locks` and `show bases` show.

ghost use Rattle.std.specs.Prelude.{◌≡◌, IfOk, Some, map};
ghost use Rattle.law_states.specs.Members.{In};
ghost use Rattle.law_states.specs.Readings.{base_at_by, base_item_by, items_by, under_way_by};
ghost use Rattle.law_states.specs.States.{State};
ghost use Rattle.salt_model.specs.Words.{Every};
ghost use Rattle.salt_model.specs.declared.events.Event.{Event};

use crate::follow::Follow;
use crate::scheduler::Scheduler;
use salt_ast::Line;
use salt_model::{BaseAt, Event, Item, Items};
use salt_values::{Id, Name, TryCopy, both_in_order, in_order};
use std::alloc::AllocError;

impl Scheduler {
    ghost use Rattle.salt_scheduler.specs.Standing.{DoesNext, StandsForState};

    /// The programs in their first part, or accepted and not released, in order of their names.
    pub(crate) fn under_way(&self) -> Result<Vec<Id>, AllocError>
        ensures { IfOk result (λ bases. (s : State) → StandsForState self.now s → bases.items ≡ under_way_by s) }
    {
        let beginning = self.books.first_parts()?;
        if beginning.as_slice().is_empty() {
            return self.watch.programs_in_order();
        }
        both_in_order(self.alloc, self.watch.programs(), beginning.as_slice())
    }

    /// Where a program stands.
    fn base_at(&self, base: Id) -> BaseAt
        ensures { (s : State) → StandsForState self.now s → result ≡ base_at_by s base }
    {
        match self.books.known().cont(base) {
            Some(cont) => BaseAt::Next(cont.next),
            None => {
                if self.watch.is_finished(base) {
                    BaseAt::Finished
                } else {
                    BaseAt::First
                }
            }
        }
    }

    /// A program that is under way, as it is shown.
    fn base_item(&self, base: Id) -> Result<Item, AllocError>
        ensures { IfOk result (λ item. (s : State) → StandsForState self.now s → In base (under_way_by s) → item ≡ base_item_by s base) }
    {
        let at = self.base_at(base);
        let Some(name) = self.called.name(base) else {
            // Each was called by a name: without one it would show none.
            let program = Name::new(self.alloc);
            return Ok(Item::Base { base, program, at });
        };
        let program = name.copy(self.alloc)?;
        Ok(Item::Base { base, program, at })
    }

    /// Programs that are under way, as they are shown.
    fn base_items(&self, bases: &[Id]) -> Result<Items, AllocError>
        ensures { IfOk result (λ items. (s : State) → StandsForState self.now s → Every (λ b. In b (under_way_by s)) bases.now → items ≡ map (base_item_by s) bases.now) }
    {
        let mut items = Items::new(self.alloc);
        for base in bases {
            items.push(self.base_item(*base)?)?;
        }
        Ok(items)
    }

    /// The programs that are under way are shown.
    pub(crate) fn show_bases(&mut self, line: &Line) -> Result<Event, AllocError>
        ensures { IfOk result (λ e. DoesNext (λ s r. Some (Event.Shown (items_by s r).bases)) line.now self.old self.new e) }
    {
        let bases = self.under_way()?;
        let items = self.base_items(bases.as_slice())?;
        self.follow = Follow::Nothing;
        Ok(Event::Shown(items))
    }

    /// The locks that are held are shown.
    pub(crate) fn show_locks(&mut self, line: &Line) -> Result<Event, AllocError>
        ensures { IfOk result (λ e. DoesNext (λ s r. Some (Event.Shown (items_by s r).locks)) line.now self.old self.new e) }
    {
        let units = in_order(self.alloc, self.books.names()?.as_slice())?;
        let items = self.watch.lock_items(units.as_slice())?;
        self.follow = Follow::Nothing;
        Ok(Event::Shown(items))
    }
}
