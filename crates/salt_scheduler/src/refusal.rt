//! What is refused of a line.

ghost use Rattle.std.specs.Prelude.{◌≡◌, IfOk, Ok, false};
ghost use Rattle.salt_ast.specs.ProgramJudgement.{line_fault};
ghost use Rattle.salt_books.specs.Held.{seen};
ghost use Rattle.salt_scheduler.specs.Refused.{IsCountFor, calls, is_turn, refusal_by_state};
ghost use Rattle.salt_scheduler.specs.Refusals.{HasFewParts, told};
ghost use Rattle.law_states.specs.KeptWaits.{AreDistinct};
ghost use Rattle.law_states.specs.Nexts.{refusal_of};
ghost use Rattle.law_states.specs.Readings.{under_way_of};
ghost use Rattle.law_states.specs.OpenUnits.{unit_of_session};
ghost use Rattle.law_states.specs.Refused.{busy_in, held_back_in, known_in, wrong_for, wrong_in};
ghost use Rattle.law_states.specs.States.{State};
ghost use Rattle.salt_model.specs.Programs.{shares};
ghost use Rattle.salt_model.specs.Refusals.{defines, has_block};
ghost use Rattle.salt_model.specs.Trace.{Tree};

use crate::judge::line_refusal;
use crate::scheduler::Scheduler;
use salt_ast::{Act, Line};
use salt_books::Held;
use salt_model::{Refusal, UnitKind};
use salt_values::{Id, has_id, in_order};
use std::alloc::AllocError;

/// Whether a unit of this kind has the statements of a program or part.
fn has_block(kind: &UnitKind) -> bool
    ensures { result ≡ has_block kind.now }
{
    match kind {
        UnitKind::Acid { .. } => false,
        UnitKind::Call { .. } => true,
        UnitKind::First { .. } => true,
        UnitKind::Later { .. } => true,
    }
}

/// Whether an act does not fit how the open unit of its session stands.
fn is_wrong_in(held: &Held, act: &Act) -> bool
    ensures { result ≡ wrong_for (Some (seen held.now)) act.now }
{
    match act {
        Act::Begin => true,
        Act::Call { .. } => true,
        Act::Do(_) => held.waiting || has_block(&held.kind),
        Act::Step => held.waiting || !has_block(&held.kind),
        Act::Commit => held.waiting || has_block(&held.kind),
        Act::Rollback => false,
    }
}

/// Whether an act needs an open unit of its session.
fn is_wrong_outside(act: &Act) -> bool
    ensures { result ≡ wrong_for None act.now }
{
    match act {
        Act::Step => true,
        Act::Commit => true,
        Act::Rollback => true,
        Act::Begin => false,
        Act::Call { .. } => false,
        Act::Do(_) => false,
    }
}

/// Whether a line defines a table or a program.
fn defines(line: &Line) -> bool
    ensures { result ≡ defines line.now }
{
    match line {
        Line::Table(_) => true,
        Line::Program(_) => true,
        _ => false,
    }
}

/// Whether a line calls a program: of no other line it is asked how many programs are under way.
fn calls(line: &Line) -> bool
    ensures { result ≡ calls line.now }
{
    match line {
        Line::Session { act, .. } => match act {
            Act::Call { .. } => true,
            _ => false,
        },
        _ => false,
    }
}

/// Whether some of these names is among the others.
pub fn shares(ids: &[Id], others: &[Id]) -> bool
    ensures { result ≡ shares ids.now others.now }
{
    ids.iter().any(|id| has_id(others, *id))
}

impl Scheduler {
    ghost use Rattle.salt_scheduler.specs.Standing.{IsDefinable, StandsForState, books_of};

    /// Whether a program that the last early opening names is not released.
    fn covers(&self) -> bool
        ensures { (s : State) → StandsForState self.now s → result ≡ (under_way_of s).covers }
    {
        shares(self.books.named(), self.watch.programs())
    }

    /// Whether an act is the call of a BASE program, for which it is too early.
    fn is_held_back(&self, act: &Act) -> bool
        ensures { (s : State) → StandsForState self.now s → result ≡ held_back_in s.units (under_way_of s) act.now }
    {
        match act {
            Act::Call { program, .. } => self.covers() && self.books.known().is_base(program),
            _ => false,
        }
    }

    /// Whether an act does not fit how its session stands.
    fn is_wrong_for(&self, session: u8, act: &Act) -> bool
        ensures { (s : State) → StandsForState self.now s → result ≡ wrong_for (unit_of_session session s.units) act.now }
    {
        match self.books.unit_of_session(session) {
            Some(held) => is_wrong_in(held, act),
            None => is_wrong_outside(act),
        }
    }

    /// Whether a session, a program, the disks or the messages are in no state for a line.
    fn is_wrong(&self, line: &Line, can_stop: bool, over_net: bool) -> bool
        ensures { (s : State) → StandsForState self.now s → s.can_stop ≡ can_stop → s.over_net ≡ over_net
            → result ≡ wrong_in s.units (under_way_of s) line.now }
    {
        match line {
            Line::Session { session, act } => {
                self.is_wrong_for(*session, act) || self.is_held_back(act)
            }
            Line::Go(base) => match self.books.unit_of_program(*base) {
                Some(held) => held.waiting,
                None => false,
            },
            Line::Crash(_) => !can_stop,
            Line::Net(_) => !over_net,
            _ => false,
        }
    }

    /// Whether a unit is open or a program is not released: then nothing is defined.
    fn is_busy(&self) -> bool
        ensures { (s : State) → StandsForState self.now s → result ≡ busy_in s.units (under_way_of s) }
    {
        self.books.count() > 0 || !self.watch.programs().is_empty()
    }

    /// How many programs are under way. That no program is unreleased twice comes of the order of the unreleased ones.
    fn count_under_way(&self) -> Result<usize, AllocError>
        ensures { IfOk result (λ count. (s : State) → StandsForState self.now s → AreDistinct s.watch.programs → count ≡ (under_way_of s).count) }
    {
        let beginning = self.books.first_parts()?;
        let mut others = in_order(self.alloc, beginning.as_slice())?;
        self.watch.strike_unreleased(&mut others);
        Ok(self.watch.programs().len() + others.len())
    }

    /// How many programs are under way, if the line calls one; else none are counted.
    fn count_for(&self, line: &Line) -> Result<usize, AllocError>
        ensures { IfOk result (λ count. (s : State) → StandsForState self.now s → AreDistinct s.watch.programs → IsCountFor line.now (under_way_of s).count count) }
    {
        if calls(line) {
            self.count_under_way()
        } else {
            Ok(0)
        }
    }

    /// Whether a line is a turn of a program that goes on.
    fn is_turn(&self, line: &Line) -> bool
        ensures { (s : State) → StandsForState self.now s → result ≡ is_turn s.units.kept line.now }
    {
        match line {
            Line::Go(base) => self.books.known().cont(*base).is_some(),
            _ => false,
        }
    }

    /// What is refused of a line by what is defined and, of a call, how many programs are under way. Of a turn nothing is, where its
    /// program goes on; so this one alone is looked for, and behind that it is no matter which programs go on.
    fn fault(&self, line: &Line) -> Result<Option<Refusal>, AllocError>
        requires { HasFewParts line.now }
        ensures { IfOk result (λ refusal. (s : State) → StandsForState self.now s → AreDistinct s.watch.programs →
            refusal ≡ told (line_fault (known_in s.units (under_way_of s)) line.now)) }
    {
        if self.is_turn(line) {
            return Ok(None);
        }
        let known = self.books.known();
        let count = self.count_for(line)?;
        line_refusal(self.alloc, known.schema(), known.catalogue(), count, line)
    }

    /// Whether what a line defines is refused by what is defined already.
    pub fn is_refused(&self, line: &Line) -> Result<bool, AllocError>
        requires { HasFewParts line.now }
        ensures { result ≡ Ok false → IsDefinable line.now (books_of self.now) }
    {
        let known = self.books.known();
        let refusal = line_refusal(self.alloc, known.schema(), known.catalogue(), 0, line)?;
        Ok(refusal.is_some())
    }

    /// What is refused of a line without a fault, by the state of sessions, programs, disks and messages.
    fn refusal_by_state(&self, line: &Line, can_stop: bool, over_net: bool) -> Option<Refusal>
        ensures { (s : State) → StandsForState self.now s → s.can_stop ≡ can_stop → s.over_net ≡ over_net → result ≡ refusal_by_state s line.now }
    {
        if self.is_wrong(line, can_stop, over_net) {
            Some(Refusal::State)
        } else if defines(line) && self.is_busy() {
            Some(Refusal::Busy)
        } else {
            None
        }
    }

    /// What is refused of a line that passes no limit of its text, where devices can be stopped or not, and commits go over messages
    /// or not.
    pub fn refusal(
        &self,
        line: &Line,
        can_stop: bool,
        over_net: bool,
    ) -> Result<Option<Refusal>, AllocError>
        requires { HasFewParts line.now }
        ensures { IfOk result (λ refusal. (s : State) → StandsForState self.now s → s.can_stop ≡ can_stop → s.over_net ≡ over_net
            → AreDistinct s.watch.programs → refusal ≡ refusal_of s (Tree line.now)) }
    {
        match self.fault(line)? {
            Some(refusal) => Ok(Some(refusal)),
            None => Ok(self.refusal_by_state(line, can_stop, over_net)),
        }
    }
}
