//! A line while its bytes come in.
ghost use Rattle.std.specs.Prelude.{◌≡◌, ℕ, ◌≤◌, List, [], ◌∷◌, ◌++◌, length, OnOk, IfOk, MatchBool, true, false};
ghost use Rattle.salt_io.specs.Lines.{last_text, spaced, without_cr, ends_in_backslash};
ghost use Rattle.salt_io.specs.LineText.{tail_bytes, EndsInTail, KeepsFront, IsText};

use salt_values::limits::LINE_MOST;
use std::alloc::AllocError;

const CR: u8 = b'\r';

const BACKSLASH: u8 = b'\\';

/// The last bytes of a text that are dropped if an LF comes next.
#[derive(Clone, Copy)]
pub enum Tail {
    Nothing,
    Cr,
    Backslash,
    BackslashCr,
}

impl Tail {
    /// How many bytes it is.
    fn byte_count(self) -> usize
        ensures value { result ≡ length (tail_bytes self) }
        ensures few { result ≤ 2 }
    {
        match self {
            Tail::Nothing => 0,
            Tail::Cr => 1,
            Tail::Backslash => 1,
            Tail::BackslashCr => 2,
        }
    }
}

/// The tail in which bytes end, two at least.
fn tail_of(bytes: &[u8]) -> Tail
    requires { 2 ≤ length bytes.now }
    ensures { EndsInTail bytes.now result }
{
    let last = bytes[bytes.len() - 1];
    if last == BACKSLASH {
        return Tail::Backslash;
    }
    if last != CR {
        return Tail::Nothing;
    }
    let before = bytes[bytes.len() - 2];
    if before == BACKSLASH {
        return Tail::BackslashCr;
    }
    Tail::Cr
}

/// What is known of a line beside the bytes that are kept of it, which are all but its tail, and no
/// more than a line may have.
#[derive(Clone, Copy)]
pub struct LineText {
    pub tail: Tail,
    /// Some byte was not kept.
    pub is_long: bool,
}

impl LineText {
    /// Of a line of which nothing has come yet.
    pub fn new() -> Self
        ensures { IsText [] result [] }
    {
        LineText {
            tail: Tail::Nothing,
            is_long: false,
        }
    }

    /// Puts a byte behind those that are kept, or drops it where they are as many as may be.
    fn keep(&mut self, line: &mut Vec<u8>, byte: u8) -> Result<(), AllocError>
        ensures kept { OnOk result ((text : List ℕ) → KeepsFront line.old.items self.old.is_long text
            → KeepsFront line.new.items self.new.is_long (text ++ byte ∷ [])) }
        ensures tail { self.new.tail ≡ self.old.tail }
        ensures within { length line.old.items ≤ LINE_MOST → length line.new.items ≤ LINE_MOST }
    {
        if line.len() < LINE_MOST {
            line.push(byte)?;
        } else {
            self.is_long = true;
        }
        Ok(())
    }

    /// Puts bytes behind those that are kept, as many as there is room for, and drops the others.
    #[tactic(auto, using(crate::proofs::Parts::lengths))]
    fn keep_all(&mut self, line: &mut Vec<u8>, bytes: &[u8]) -> Result<(), AllocError>
        ensures kept { OnOk result ((text : List ℕ) → KeepsFront line.old.items self.old.is_long text
            → KeepsFront line.new.items self.new.is_long (text ++ bytes.now)) }
        ensures tail { self.new.tail ≡ self.old.tail }
        ensures within { length line.old.items ≤ LINE_MOST → length line.new.items ≤ LINE_MOST }
    {
        let room = LINE_MOST.saturating_sub(line.len());
        if bytes.len() <= room {
            line.extend_from_slice(bytes)?;
            return Ok(());
        }
        self.is_long = true;
        line.extend_from_slice(&bytes[..room])?;
        Ok(())
    }

    /// Keeps the bytes of the tail too, since no LF came next.
    #[inline(always)]
    fn keep_tail(&mut self, line: &mut Vec<u8>) -> Result<(), AllocError>
        ensures text { OnOk result ((text : List ℕ) → KeepsFront line.old.items self.old.is_long text
            → KeepsFront line.new.items self.new.is_long (text ++ tail_bytes self.old.tail)) }
        ensures within { length line.old.items ≤ LINE_MOST → length line.new.items ≤ LINE_MOST }
    {
        match self.tail {
            Tail::Nothing => Ok(()),
            Tail::Cr => self.keep(line, CR),
            Tail::Backslash => self.keep(line, BACKSLASH),
            Tail::BackslashCr => {
                self.keep(line, BACKSLASH)?;
                self.keep(line, CR)
            }
        }
    }

    /// The line goes on with a CR.
    fn add_cr(&mut self, line: &mut Vec<u8>) -> Result<(), AllocError>
        ensures text { OnOk result ((text : List ℕ) → IsText line.old.items self.old text
            → IsText line.new.items self.new (text ++ 13 ∷ [])) }
        ensures within { length line.old.items ≤ LINE_MOST → length line.new.items ≤ LINE_MOST }
    {
        match self.tail {
            Tail::Backslash => {
                self.tail = Tail::BackslashCr;
                Ok(())
            }
            _ => {
                self.keep_tail(line)?;
                self.tail = Tail::Cr;
                Ok(())
            }
        }
    }

    /// The line goes on with a byte that is no LF.
    pub fn add(&mut self, line: &mut Vec<u8>, byte: u8) -> Result<(), AllocError>
        ensures text { OnOk result ((text : List ℕ) → IsText line.old.items self.old text
            → IsText line.new.items self.new (text ++ byte ∷ [])) }
        ensures within { length line.old.items ≤ LINE_MOST → length line.new.items ≤ LINE_MOST }
    {
        if byte == CR {
            return self.add_cr(line);
        }
        self.keep_tail(line)?;
        if byte == BACKSLASH {
            self.tail = Tail::Backslash;
            return Ok(());
        }
        self.tail = Tail::Nothing;
        self.keep(line, byte)
    }

    /// The line goes on with these bytes, two at least, none of which is an LF.
    pub fn add_all(&mut self, line: &mut Vec<u8>, bytes: &[u8]) -> Result<(), AllocError>
        requires { 2 ≤ length bytes.now }
        ensures text { OnOk result ((text : List ℕ) → IsText line.old.items self.old text
            → IsText line.new.items self.new (text ++ bytes.now)) }
        ensures within { length line.old.items ≤ LINE_MOST → length line.new.items ≤ LINE_MOST }
    {
        self.keep_tail(line)?;
        let tail = tail_of(bytes);
        let dropped = tail.byte_count();
        self.tail = tail;
        self.keep_all(line, &bytes[..bytes.len() - dropped])
    }

    /// An LF comes: gives whether it ends the line. If not, the next line is joined on.
    pub fn end_piece(&mut self, line: &mut Vec<u8>) -> Result<bool, AllocError>
        ensures text { IfOk result (λ ends. (text : List ℕ) → IsText line.old.items self.old text
            → MatchBool ends
            ((ends_in_backslash (without_cr text) ≡ false) × KeepsFront line.new.items self.new.is_long (without_cr text))
            ((ends_in_backslash (without_cr text) ≡ true) × IsText line.new.items self.new (spaced (without_cr text)))) }
        ensures within { length line.old.items ≤ LINE_MOST → length line.new.items ≤ LINE_MOST }
    {
        match self.tail {
            Tail::Nothing | Tail::Cr => Ok(true),
            Tail::Backslash | Tail::BackslashCr => {
                self.tail = Tail::Nothing;
                self.keep(line, b' ')?;
                Ok(false)
            }
        }
    }

    /// The script ends.
    pub fn end_script(&mut self, line: &mut Vec<u8>) -> Result<(), AllocError>
        ensures text { OnOk result ((text : List ℕ) → IsText line.old.items self.old text
            → KeepsFront line.new.items self.new.is_long (last_text text)) }
        ensures within { length line.old.items ≤ LINE_MOST → length line.new.items ≤ LINE_MOST }
    {
        match self.tail {
            Tail::Backslash => self.keep(line, b' '),
            _ => self.keep_tail(line),
        }
    }
}
