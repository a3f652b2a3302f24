//! The pairs of numbers that a line arms.

ghost use Rattle.std.specs.Prelude.{◌≡◌, ◌<◌, ◌++◌, ◌∷◌, IfNone, List, None, Ok, OnOk, OnSome, [], false, length, option_map, true, ℕ};
ghost use Rattle.salt_script.specs.Answers.{GivesOrLimit};
ghost use Rattle.salt_script.specs.Literals.{HoldsPairs, IsPairTaken, ended_at, pair_at, pair_passed, pairs_at, pairs_passed};
ghost use Rattle.salt_ast.specs.ProgramLimits.{stop_passed, twist_passed};
ghost use Rattle.salt_ast.specs.Symbols.{symbols_in};

use salt_ast::{Lexeme, LimitName, Pairs};
use salt_parse::ParseErr;
use salt_values::limits::{CRASH_MOST, PAIRS_MOST, PICK_MOST, TURN_MOST, TWIST_MOST};
use sqlite_items::Items;
use std::alloc::{AllocError, Global};

/// What the pairs of a line stand for.
#[derive(Clone, Copy)]
pub enum Armed {
    /// Stops of the disks, each by its call and what it leaves.
    Stops,
    /// What befalls messages, each by its turn and what happens there.
    Twists,
}

/// The tokens of the pairs that are to be read, those that were read, while none passes a limit, and the first limit that one passes.
#[derive(Drop)]
pub struct Arming<'a> {
    armed: Armed,
    rest: &'a [Lexeme<'a>],
    pairs: Pairs,
    passed: Option<LimitName>,
}

/// The limit that a stop passes: at this call, with this pick.
fn stop_limit(call: u64, pick: u64) -> Option<LimitName>
    ensures limit { result ≡ stop_passed (call, pick) }
    ensures fits { IfNone result (pick < 256) }
{
    if call < 1 || CRASH_MOST < call {
        return Some(LimitName::Crash);
    }
    if PICK_MOST < pick {
        return Some(LimitName::Pick);
    }
    None
}

/// The limit that what befalls a message passes: at this turn, this act.
fn twist_limit(turn: u64, act: u64) -> Option<LimitName>
    ensures limit { result ≡ twist_passed (turn, act) }
    ensures fits { IfNone result (act < 256) }
{
    if turn < 1 || TURN_MOST < turn {
        return Some(LimitName::Net);
    }
    if TWIST_MOST < act {
        return Some(LimitName::Act);
    }
    None
}

/// The limit that a pair passes.
fn pair_limit(armed: Armed, first: u64, second: u64) -> Option<LimitName>
    ensures limit { result ≡ pair_passed armed (first, second) }
    ensures fits { IfNone result (second < 256) }
{
    match armed {
        Armed::Stops => stop_limit(first, second),
        Armed::Twists => twist_limit(first, second),
    }
}

impl<'a> Arming<'a> {
    /// Keeps a pair behind those that were read.
    fn keep(&mut self, first: u64, second: u64) -> Result<(), AllocError>
        ensures holds { OnOk result ((pairs : List (ℕ × ℕ)) → HoldsPairs self.old pairs → HoldsPairs self.new (pairs ++ (first, second) ∷ [])) }
        ensures kept { (self.new.armed ≡ self.old.armed) × (self.new.rest ≡ self.old.rest) }
    {
        if self.passed.is_some() {
            return Ok(());
        }
        if self.pairs.len() == PAIRS_MOST {
            self.passed = Some(LimitName::Pairs);
            return Ok(());
        }
        match pair_limit(self.armed, first, second) {
            Some(limit) => {
                self.passed = Some(limit);
                Ok(())
            }
            None => self.pairs.push((first, second as u8)),
        }
    }

    /// The two numbers of the pair that comes next, if one does.
    fn next_pair(&mut self) -> Option<(u64, u64)>
        ensures reads { pair_at (symbols_in self.old.rest.now) ≡ option_map (λ s. (s, symbols_in self.new.rest.now)) result }
        ensures kept { (self.new.armed ≡ self.old.armed) × (self.new.pairs ≡ self.old.pairs) × (self.new.passed ≡ self.old.passed) }
        ensures shrinks { OnSome result (length self.new.rest.now < length self.old.rest.now) }
        ensures stays { IfNone result (self.new ≡ self.old) }
    {
        match self.rest {
            [Lexeme::Int(first), Lexeme::Int(second), rest @ ..] => {
                self.rest = rest;
                Some((*first, *second))
            }
            _ => None,
        }
    }

    /// Takes the pair that comes next, if one does.
    fn take(&mut self) -> Result<bool, AllocError>
        ensures taken { result ≡ Ok true → IsPairTaken self.old self.new }
        ensures stays { result ≡ Ok false → (pair_at (symbols_in self.old.rest.now) ≡ None) × (self.new ≡ self.old) }
        ensures shrinks { result ≡ Ok true → length self.new.rest.now < length self.old.rest.now }
    {
        let Some((first, second)) = self.next_pair() else {
            return Ok(false);
        };
        self.keep(first, second)?;
        Ok(true)
    }

    /// All of them where no token is left, or the first limit that one passes.
    fn close(self) -> Result<Result<Pairs, LimitName>, ParseErr>
        ensures { (pairs : List (ℕ × ℕ)) → HoldsPairs self.entry pairs → GivesOrLimit (pairs_passed self.entry.armed) result (ended_at pairs (symbols_in self.entry.rest.now)) }
    {
        let Arming {
            armed: _armed,
            rest,
            pairs,
            passed,
        } = self;
        match (rest, passed) {
            ([], None) => Ok(Ok(pairs)),
            ([], Some(limit)) => Ok(Err(limit)),
            _ => Err(ParseErr::Syntax),
        }
    }
}

/// Pairs up to the end of the row.
pub fn armed_pairs<'a>(
    alloc: Global,
    armed: Armed,
    tokens: &'a [Lexeme<'a>],
) -> Result<Result<Pairs, LimitName>, ParseErr>
    ensures { GivesOrLimit (pairs_passed armed) result (pairs_at (symbols_in tokens.now)) }
{
    let mut arming = Arming {
        armed,
        rest: tokens,
        pairs: Items::new(alloc),
        passed: None,
    };
    'pairs: while arming.take()? {}
    arming.close()
}
