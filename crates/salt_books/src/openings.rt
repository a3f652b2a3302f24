//! Stops and openings.

ghost use Rattle.salt_books.specs.Books.{AreBooks};
ghost use Rattle.salt_books.specs.Held.{seen};
ghost use Rattle.salt_books.specs.declared.held.Held.{Held};
ghost use Rattle.law_states.specs.Follows.{cut_in};
ghost use Rattle.law_states.specs.OpenUnits.{UnitState, names_in};
ghost use Rattle.law_states.specs.Rising.{Rising};
ghost use Rattle.law_states.specs.Steps.{units_after};
ghost use Rattle.salt_model.specs.Words.{first_of_list};
ghost use Rattle.salt_model.specs.declared.events.Event.{Event};
ghost use Rattle.salt_model.specs.declared.events.Why.{Why};
ghost use Rattle.std.specs.List.{find};
ghost use Rattle.std.specs.Option.{option_copied};
ghost use Rattle.std.specs.Prelude.{nat_lt, ℕ, ◌≡◌};

use crate::books::Books;
use crate::held::Held;
use salt_queue::Queue;
use salt_values::{Cont, Id, Ids};

fn first_before(units: &[Held], boot: u64) -> Option<&Held>
    ensures { option_copied result ≡ find (λ (h : Held). nat_lt (seen h).unit.boot boot) units.now }
{
    units.iter().find(|held| held.began_before(boot))
}

impl Books {
    /// The run has fallen: no program has a turn any more. The open units stay, until an opening cuts them.
    pub fn fall(&mut self)
        ensures { (s : UnitState) (why : Why) → AreBooks self.old s → AreBooks self.new (units_after (Event.Down why) s) }
    {
        self.to_go = Queue::new(self.alloc);
        self.owes = false;
    }

    /// A boot of this number begins, in which no unit and no program has begun.
    pub fn begin_boot(&mut self, boot: u64)
        ensures { (s : UnitState) (decisions : ℕ) → AreBooks self.old s → AreBooks self.new (units_after (Event.Opened boot decisions) s) }
    {
        self.known.begin_boot(boot);
        self.unit_count = 0;
        self.base_count = 0;
    }

    /// The unit of an earlier boot that an opening cuts next.
    pub fn next_cut(&self) -> Option<Id>
        ensures { (s : UnitState) → AreBooks self.now s → Rising (names_in s.units) → result ≡ first_of_list (cut_in s) }
    {
        let held = first_before(self.units.as_slice(), self.known.boot())?;
        Some(held.open.unit)
    }

    /// Whether openings may be early.
    pub fn opens_early(&self) -> bool
        ensures { (s : UnitState) → AreBooks self.now s → result ≡ s.early }
    {
        self.early
    }

    /// The programs that the last early opening names, in order of their names.
    pub fn named(&self) -> &[Id]
        ensures { (s : UnitState) → AreBooks self.now s → result.now ≡ s.named }
    {
        self.named.as_slice()
    }

    /// An opening ends while these programs are unfinished.
    pub fn open_early(&mut self, named: Ids)
        ensures { (s : UnitState) → AreBooks self.old s → AreBooks self.new (units_after (Event.Early named) s) }
    {
        self.named = named;
    }

    /// The program that an opening takes on next.
    pub fn next_drained(&self) -> Option<&Cont>
        ensures { (s : UnitState) → AreBooks self.now s → option_copied result ≡ first_of_list s.kept.conts }
    {
        self.known.conts().first()
    }
}
