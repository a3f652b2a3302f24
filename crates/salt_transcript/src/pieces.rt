//! The verdict on bytes that come piece by piece.

ghost use Rattle.salt_audit.specs.Transcripts.{IsVerdict};
ghost use Rattle.salt_cont.specs.Catalogues.{AllLeadOn};
ghost use Rattle.salt_transcript.specs.Reading.{HasCome};
ghost use Rattle.salt_transcript.specs.Stopping.{Settles};
ghost use Rattle.std.specs.Prelude.{IfOk, IfSome, List, None, Ok, OnOk, [], ℕ, ◌++◌, ◌≡◌};

use crate::front::line_in_front;
use crate::reader::Reader;
use salt_audit::Verdict;
use salt_eval::ViewErr;
use std::alloc::Global;

/// What is known behind the pieces that came.
#[derive(Drop)]
pub struct Pieces {
    pub reader: Reader,
    /// The bytes behind the last line that ended.
    pub rest: Vec<u8>,
}

impl Pieces {
    /// Nothing came yet.
    pub fn new(alloc: Global) -> Pieces
        ensures come { HasCome result [] }
        ensures leads { AllLeadOn result.reader.judge.ledger.state.catalogue }
    {
        Pieces {
            reader: Reader::new(alloc),
            rest: Vec::new(alloc),
        }
    }

    /// Takes over the lines that end in the next piece, up to the first that gives the verdict. An `Err` leaves the pieces in no state that is told.
    pub fn next(&mut self, alloc: Global, piece: &[u8]) -> Result<Option<Verdict>, ViewErr>
        requires { AllLeadOn self.old.reader.judge.ledger.state.catalogue }
        ensures goes_on { result ≡ Ok None → (before : List ℕ) → HasCome self.old before → HasCome self.new (before ++ piece.now) }
        ensures ends { IfOk result (λ found. IfSome found (λ verdict. (before more : List ℕ) → HasCome self.old before
            → Settles (before ++ (piece.now ++ more)) more verdict)) }
        ensures leads { OnOk result (AllLeadOn self.new.reader.judge.ledger.state.catalogue) }
    {
        let mut left = piece;
        'lines: loop {
            let Some((line, more)) = line_in_front(left) else {
                self.rest.extend_from_slice(left)?;
                return Ok(None);
            };
            self.rest.extend_from_slice(line)?;
            if let Some(verdict) = self.reader.next(alloc, self.rest.as_slice())? {
                return Ok(Some(verdict));
            }
            self.rest.clear();
            left = more;
        }
    }

    /// The verdict where no piece is left.
    pub fn ended(&self) -> Result<Verdict, ViewErr>
        ensures { IfOk result (λ verdict. (bytes : List ℕ) → HasCome self.now bytes → IsVerdict bytes verdict) }
    {
        self.reader.ended(self.rest.as_slice())
    }
}
