//! The lines of a transcript, read and judged one after another.

ghost use Rattle.law_texts.specs.EventLines.{Inline};
ghost use Rattle.salt_audit.specs.Transcripts.{IsVerdict, SoFar, text_so_far};
ghost use Rattle.salt_audit.specs.declared.verdict.Law.{Law};
ghost use Rattle.salt_cont.specs.Catalogues.{AllLeadOn};
ghost use Rattle.salt_transcript.specs.Reading.{EndsAs, EndsBroken, EndsUnformed, GoesNowhere, GoesOnTo, HasBroken, HasRead, HasRefused, HasTaken, is_all_told};
ghost use Rattle.salt_values.specs.declared.id.Id.{Id};
ghost use Rattle.std.specs.Prelude.{IfOk, IfSome, List, None, Ok, OnOk, [], ℕ, ◌++◌, ◌+◌, ◌<◌, ◌^◌, ◌≡◌, ◌≢◌};

use law_texts::lines_of_event;
use salt_audit::{
    Law, Verdict, is_formed, judging_is_exact, sound_stories_name_tables, stories_agree,
};
use salt_eval::ViewErr;
use salt_events::{ReadErr, lines_are_read, read_line};
use salt_judge::{Judge, judge_event, nothing_judged};
use salt_model::{Event, Item, Items as Shown};
use salt_values::{Id, next_number};
use sqlite_items::Items;
use std::alloc::{AllocError, Global};

/// What a line does.
#[derive(Clone, Copy, Debug, PartialEq, Eq)]
pub enum Step {
    /// It goes on with the story.
    GoesOn,
    /// It tells an event that does not fit.
    Unformed,
    /// It tells an event that breaks a law.
    Broken { law: Law, unit: Id },
    /// It goes on with no story.
    NotText,
}

/// What is known behind the lines that are read.
#[derive(Drop)]
pub struct Reader {
    pub judge: Judge,
    /// Items whose number is still to come.
    pub items: Shown,
    pub events: u64,
    pub lines: u64,
}

/// Whether nothing is still to come.
fn all_told(items: &[Item], rest: &[u8]) -> bool
    ensures { result ≡ is_all_told items.now rest.now }
{
    match items {
        [] => match rest {
            [] => true,
            [_first, ..] => false,
        },
        [_first, ..] => false,
    }
}

impl Reader {
    /// Nothing is read yet.
    pub fn new(alloc: Global) -> Reader
        ensures read { HasRead result (record { story = []; items = [] }) }
        ensures leads { AllLeadOn result.judge.ledger.state.catalogue }
    {
        sound_stories_name_tables();
        Reader {
            judge: nothing_judged(alloc),
            items: Items::new(alloc),
            events: 0,
            lines: 0,
        }
    }

    /// The line behind those that are read goes on with no story.
    fn not_text(&self) -> Result<Verdict, AllocError>
        ensures is { IfOk result (λ verdict. verdict ≡ Verdict.NotText (self.now.lines + 1)) }
        ensures few { OnOk result (self.now.lines < 2 ^ 64) }
    {
        let line = next_number(self.lines)?;
        Ok(Verdict::NotText { line })
    }

    /// The event behind those that are read does not fit.
    fn unformed(&self) -> Result<Verdict, AllocError>
        ensures { IfOk result (λ verdict. verdict ≡ Verdict.Unformed (self.now.events + 1)) }
    {
        let event = next_number(self.events)?;
        Ok(Verdict::Unformed { event })
    }

    /// The event behind those that are read breaks a law.
    fn broken(&self, law: Law, unit: Id) -> Result<Verdict, AllocError>
        ensures { IfOk result (λ verdict. verdict ≡ Verdict.Broken law unit (self.now.events + 1)) }
    {
        let event = next_number(self.events)?;
        Ok(Verdict::Broken { law, unit, event })
    }

    /// The verdict where no line is left that ends.
    pub fn ended(&self, rest: &[u8]) -> Result<Verdict, ViewErr>
        ensures { IfOk result (λ verdict. (s : SoFar) (bytes : List ℕ) → HasRead self.now s → Inline rest.now
            → bytes ≡ text_so_far s ++ rest.now → IsVerdict bytes verdict) }
    {
        lines_of_event();
        stories_agree();
        sound_stories_name_tables();
        if all_told(self.items.as_slice(), rest) {
            return Ok(Verdict::Yes {
                events: self.events,
            });
        }
        Ok(self.not_text()?)
    }

    /// Takes over an event, if it fits, and judges it. An `Err` leaves the reader in no state that is told.
    fn take_event(&mut self, alloc: Global, event: &Event) -> Result<Step, ViewErr>
        requires { AllLeadOn self.old.judge.ledger.state.catalogue }
        ensures goes_on { result ≡ Ok Step.GoesOn → HasTaken self.old self.new event.now }
        ensures unformed { result ≡ Ok Step.Unformed → HasRefused self.old self.new event.now }
        ensures broken { (law : Law) (unit : Id) → result ≡ Ok (Step.Broken law unit) → HasBroken self.old self.new event.now law unit }
        ensures text { result ≢ Ok Step.NotText }
        ensures leads { OnOk result (AllLeadOn self.new.judge.ledger.state.catalogue) }
    {
        judging_is_exact();
        sound_stories_name_tables();
        let events = next_number(self.events)?;
        let lines = next_number(self.lines)?;
        let fits = is_formed(alloc, &self.judge.ledger.state, event)?;
        if !fits {
            return Ok(Step::Unformed);
        }
        match judge_event(alloc, &mut self.judge, event)? {
            Some((law, unit)) => Ok(Step::Broken { law, unit }),
            None => {
                self.events = events;
                self.lines = lines;
                Ok(Step::GoesOn)
            }
        }
    }

    /// Reads a line, without the LF that ends it, and takes over what it tells. An `Err` leaves the reader in no state that is told.
    fn take(&mut self, alloc: Global, line: &[u8]) -> Result<Step, ViewErr>
        requires { AllLeadOn self.old.judge.ledger.state.catalogue }
        ensures goes_on { result ≡ Ok Step.GoesOn → (s : SoFar) → HasRead self.old s → GoesOnTo self.new s line.now }
        ensures unformed { result ≡ Ok Step.Unformed → (s : SoFar) → HasRead self.old s → EndsUnformed self.new s line.now }
        ensures broken { (law : Law) (unit : Id) → result ≡ Ok (Step.Broken law unit) → (s : SoFar) → HasRead self.old s → EndsBroken self.new s line.now law unit }
        ensures not_text { result ≡ Ok Step.NotText → (s : SoFar) → HasRead self.old s → GoesNowhere self.new s line.now }
        ensures leads { OnOk result (AllLeadOn self.new.judge.ledger.state.catalogue) }
    {
        lines_are_read();
        let schema = &self.judge.ledger.state.schema;
        match read_line(alloc, schema, &mut self.items, line) {
            Ok(Some(event)) => self.take_event(alloc, &event),
            Ok(None) => {
                let lines = next_number(self.lines)?;
                self.lines = lines;
                Ok(Step::GoesOn)
            }
            Err(ReadErr::NotText) => Ok(Step::NotText),
            Err(ReadErr::Memory) => Err(ViewErr::Memory),
        }
    }

    /// Takes over the next line, or gives the verdict where it does not go on. An `Err` leaves the reader in no state that is told.
    pub fn next(&mut self, alloc: Global, line: &[u8]) -> Result<Option<Verdict>, ViewErr>
        requires { AllLeadOn self.old.judge.ledger.state.catalogue }
        ensures goes_on { result ≡ Ok None → (s : SoFar) → HasRead self.old s → GoesOnTo self.new s line.now }
        ensures ends { IfOk result (λ found. IfSome found (λ verdict. (s : SoFar) → HasRead self.old s → EndsAs s line.now verdict)) }
        ensures leads { OnOk result (AllLeadOn self.new.judge.ledger.state.catalogue) }
    {
        lines_of_event();
        stories_agree();
        sound_stories_name_tables();
        match self.take(alloc, line)? {
            Step::GoesOn => Ok(None),
            Step::Unformed => Ok(Some(self.unformed()?)),
            Step::Broken { law, unit } => Ok(Some(self.broken(law, unit)?)),
            Step::NotText => Ok(Some(self.not_text()?)),
        }
    }
}
