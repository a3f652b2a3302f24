//! The lines of a script.
ghost use Rattle.std.specs.Prelude.{◌≡◌, ◌≢◌, ℕ, ◌+◌, ◌<◌, ◌≤◌, ◌-◌, List, [], ◌∷◌, ◌++◌, length, take, IfOk, OnOk, OnErr, IfSome, IfNone, true, false};
ghost use Rattle.salt_io.specs.Streams.{Rose, Takes, IsAtEnd, bytes_before};
ghost use Rattle.std.specs.List.{prefix_len};
ghost use Rattle.salt_io.specs.LineText.{is_no_lf, TakesText};
ghost use Rattle.salt_io.specs.Lines.{script_of, IsReadingOf, TakesLine, TakesLong, TakesNoLine, IsCutOff};
ghost use Rattle.salt_io.specs.declared.lines.LineErr.TheVariants.{ReadFault, Memory};

use crate::line_text::LineText;
use crate::{IoFailed, Source};
use salt_values::limits::{LINE_MOST, SCRIPT_MOST};
use std::alloc::AllocError;
use std::marker::Model;

const LF: u8 = b'\n';

/// What a reader of lines came to.
#[derive(Clone, Copy, Debug, PartialEq, Eq)]
pub enum Next {
    /// A line.
    Line,
    /// A line of more bytes than a line may have.
    TooLong,
    /// The script's end.
    End,
}

/// Why there is no next line.
#[derive(Clone, Copy, Debug, PartialEq, Eq)]
pub enum LineErr {
    /// The source failed, before a line's end.
    ReadFault,
    /// The line needs more bytes than a script may have.
    ScriptTooLong,
    /// No memory was left.
    Memory,
}

impl From<IoFailed> for LineErr {
    ghost from_gives = { λ _ e. e ≡ ReadFault };

    fn from(_: IoFailed) -> Self {
        LineErr::ReadFault
    }
}

impl From<AllocError> for LineErr {
    ghost from_gives = { λ _ e. e ≡ Memory };

    fn from(_: AllocError) -> Self {
        LineErr::Memory
    }
}

/// Reads the lines of a script: those of the bytes that it has taken from the source and not given
/// yet, followed by those that the source has left.
///
/// A line ends at an LF, without a CR directly before it, or at the script's end. Where its last
/// byte is a backslash, a space takes the backslash's place, and the next line is joined on.
#[derive(Drop)]
pub struct Lines {
    buf: [u8; 4096],
    from: usize,
    to: usize,
    taken: u64,
    ended: bool,
}

impl Model for Lines {
    ghost use Rattle.std.specs.Prelude.{◌-◌, ◌≤◌, take, drop};
    ghost use Rattle.salt_io.specs.Lines.{ScriptReading};
    ghost use Rattle.salt_values.specs.declared.limits.TheConstants.{SCRIPT_MOST};

    ghost Value = { ScriptReading };

    ghost view = { λ r. record { kept = take (r.to - r.from) (drop r.from r.buf); taken = r.taken; ended = r.ended } };

    ghost invariant = { λ r. (r.from ≤ r.to) × (r.to ≤ 4096) × (r.taken ≤ SCRIPT_MOST) };
}

impl Lines {
    /// Of a script of which nothing has been read.
    pub fn new() -> Self
        ensures { result ≡ record { kept = []; taken = 0; ended = false } }
    {
        Lines {
            buf: [0; 4096],
            from: 0,
            to: 0,
            taken: 0,
            ended: false,
        }
    }

    /// Takes bytes from the source where none are kept, unless it has told its end.
    fn fill<S: Source>(&mut self, source: &mut S) -> Result<(), IoFailed>
        requires { IsReadingOf self.old (S.left source.old) }
        ensures of { IsReadingOf self.new (S.left source.new) }
        ensures taken { self.new.taken ≡ self.old.taken }
        ensures within { self.new.taken ≤ SCRIPT_MOST }
        ensures same { OnOk result (bytes_before self.old.kept (S.left source.old) ≡ bytes_before self.new.kept (S.left source.new)) }
        ensures end { OnOk result (self.new.kept ≡ [] → self.new.ended ≡ true) }
        ensures in_hand { self.old.kept ≢ [] → (source.new ≡ source.old) × (self.new ≡ self.old) }
        ensures over { self.old.ended ≡ true → (source.new ≡ source.old) × (self.new ≡ self.old) }
        ensures none { OnErr result (self.old.kept ≡ []) }
        ensures unended { OnErr result (self.old.ended ≡ false) }
        ensures kept { OnErr result (S.left source.new ≡ S.left source.old) }
        ensures no_fault { OnOk result (S.faults source.new ≡ S.faults source.old) }
        ensures failed { OnErr result (Rose (S.faults source.old) (S.faults source.new)) }
        ensures later { S.faults source.old ≤ S.faults source.new }
    {
        if self.from == self.to && !self.ended {
            let n = source.read(&mut self.buf)?;
            self.from = 0;
            self.to = n;
            self.ended = n == 0;
        }
        Ok(())
    }

    /// Gives the script's next byte, or `None` at its end.
    fn next_byte<S: Source>(&mut self, source: &mut S) -> Result<Option<u8>, LineErr>
        requires { IsReadingOf self.old (S.left source.old) }
        ensures of { IsReadingOf self.new (S.left source.new) }
        ensures some { IfOk result (λ next. IfSome next (λ byte.
            Takes (bytes_before self.old.kept (S.left source.old)) (byte ∷ []) (bytes_before self.new.kept (S.left source.new)))) }
        ensures first { IfOk result (λ next. IfSome next (λ byte. self.old.kept ≢ [] → self.old.kept ≡ byte ∷ self.new.kept)) }
        ensures counted { IfOk result (λ next. IfSome next (λ _. self.new.taken ≡ self.old.taken + 1)) }
        ensures counts { self.old.taken ≤ self.new.taken }
        ensures goes_on { IfOk result (λ next. IfSome next (λ _. self.old.ended ≡ false)) }
        ensures within { self.new.taken ≤ SCRIPT_MOST }
        ensures end { IfOk result (λ next. IfNone next (self.new.ended ≡ true)) }
        ensures none { IfOk result (λ next. IfNone next (self.new.taken ≡ self.old.taken)) }
        ensures same { IfOk result (λ next. IfNone next
            (bytes_before self.old.kept (S.left source.old) ≡ bytes_before self.new.kept (S.left source.new))) }
        ensures in_hand { self.old.kept ≢ [] → source.new ≡ source.old }
        ensures over { self.old.ended ≡ true → source.new ≡ source.old }
        ensures fault { result ≡ Err LineErr.ReadFault → Rose (S.faults source.old) (S.faults source.new) }
        ensures fault_left { result ≡ Err LineErr.ReadFault → bytes_before self.old.kept (S.left source.old) ≡ S.left source.new }
        ensures fault_open { result ≡ Err LineErr.ReadFault → self.old.ended ≡ false }
        ensures long { result ≡ Err LineErr.ScriptTooLong → self.old.taken ≡ SCRIPT_MOST }
        ensures more { result ≡ Err LineErr.ScriptTooLong → IfSome (bytes_before self.old.kept (S.left source.old)) (λ all. 0 < length all) }
        ensures no_fault { result ≢ Err LineErr.ReadFault → S.faults source.new ≡ S.faults source.old }
        ensures later { S.faults source.old ≤ S.faults source.new }
    {
        self.fill(source)?;
        if self.from == self.to {
            return Ok(None);
        }
        if self.taken == SCRIPT_MOST {
            return Err(LineErr::ScriptTooLong);
        }
        let byte = self.buf[self.from];
        self.from += 1;
        self.taken += 1;
        Ok(Some(byte))
    }

    /// Takes the bytes in hand before the next LF, as many as a script may still have, and puts them behind the line's text so far;
    /// none where they are fewer than two.
    #[tactic(auto, using(crate::proofs::Parts::lengths))]
    fn take_text(&mut self, text: &mut LineText, line: &mut Vec<u8>) -> Result<(), AllocError>
        ensures taken { OnOk result (TakesText self.old self.new line.old.items line.new.items text.old text.new) }
        ensures fits { length line.old.items ≤ LINE_MOST → length line.new.items ≤ LINE_MOST }
        ensures counts { self.old.taken ≤ self.new.taken }
        ensures within { self.new.taken ≤ SCRIPT_MOST }
        ensures err { OnErr result (self.new ≡ self.old) }
    {
        let most = (self.to - self.from).min((SCRIPT_MOST - self.taken) as usize);
        let in_hand = &self.buf[self.from..self.from + most];
        let len = text_len(in_hand);
        if len < 2 {
            return Ok(());
        }
        text.add_all(line, &in_hand[..len])?;
        self.from += len;
        self.taken += len as u64;
        Ok(())
    }

    /// Puts the next line's text into `line`, in place of what is there. After an error, or a line
    /// that is too long, `line` holds some bytes, no more than a line may have.
    ///
    /// The source is the one of all calls before. It is not asked where a whole line is kept, nor
    /// after it told its end. After `Memory` it may have been read further.
    pub fn next_line<S: Source>(
        &mut self,
        source: &mut S,
        line: &mut Vec<u8>,
    ) -> Result<Next, LineErr>
        requires { IsReadingOf self.old (S.left source.old) }
        ensures of { IsReadingOf self.new (S.left source.new) }

        ensures line { result ≡ Ok Next.Line → TakesLine SCRIPT_MOST
            (bytes_before self.old.kept (S.left source.old)) (bytes_before self.new.kept (S.left source.new))
            self.old.taken self.new line.new.items }
        ensures long { result ≡ Ok Next.TooLong → TakesLong LINE_MOST SCRIPT_MOST
            (bytes_before self.old.kept (S.left source.old)) (bytes_before self.new.kept (S.left source.new))
            self.old.taken self.new }
        ensures fits { length line.new.items ≤ LINE_MOST }

        ensures end { result ≡ Ok Next.End → IsAtEnd (bytes_before self.old.kept (S.left source.old)) }
        ensures end_told { result ≡ Ok Next.End → self.new.ended ≡ true }
        ensures end_taken { result ≡ Ok Next.End → self.new.taken ≡ self.old.taken }

        ensures fault { result ≡ Err LineErr.ReadFault → Rose (S.faults source.old) (S.faults source.new) }
        ensures fault_open { result ≡ Err LineErr.ReadFault → self.old.ended ≡ false }
        ensures cut_off { result ≡ Err LineErr.ReadFault
            → TakesNoLine (SCRIPT_MOST - self.old.taken) (bytes_before self.old.kept (S.left source.old)) (S.left source.new) }
        ensures too_long { result ≡ Err LineErr.ScriptTooLong
            → IsCutOff (SCRIPT_MOST - self.old.taken) (bytes_before self.old.kept (S.left source.old)) }

        ensures in_hand { (script_of self.old.kept).ended ≢ [] → source.new ≡ source.old }
        ensures over { self.old.ended ≡ true → source.new ≡ source.old }
        ensures within { self.new.taken ≤ SCRIPT_MOST }
        ensures no_fault { result ≢ Err LineErr.ReadFault → S.faults source.new ≡ S.faults source.old }
        ensures later { S.faults source.old ≤ S.faults source.new }
    {
        line.clear();
        let mut text = LineText::new();
        loop {
            let Some(byte) = self.next_byte(source)? else {
                break;
            };
            if byte != LF {
                text.add(line, byte)?;
                self.take_text(&mut text, line)?;
                continue;
            }
            if text.end_piece(line)? {
                return Ok(kind_of(text.is_long));
            }
        }
        text.end_script(line)?;
        if line.is_empty() {
            return Ok(Next::End);
        }
        Ok(kind_of(text.is_long))
    }
}

fn is_no_lf(byte: u8) -> bool
    ensures { result ≡ is_no_lf byte }
{
    byte != LF
}

/// How many bytes stand before the first LF, which are all where there is none.
#[tactic(auto, using(crate::proofs::Parts::lengths))]
fn text_len(bytes: &[u8]) -> usize
    ensures value { result ≡ prefix_len is_no_lf bytes.now }
    ensures within { result ≤ length bytes.now }
{
    bytes.iter().take_while(|byte| is_no_lf(**byte)).count()
}

/// What a line is that was cut, or not.
fn kind_of(is_long: bool) -> Next
    ensures long { result ≡ Next.TooLong → is_long ≡ true }
    ensures short { result ≡ Next.Line → is_long ≡ false }
    ensures some { result ≢ Next.End }
{
    if is_long { Next::TooLong } else { Next::Line }
}

/// Two laws on the lines of a script. At a line's start a script goes on as one of its own; and the
/// lines that are ended stay as they are, whatever follows.
pub fn lines_join()
    ensures joined { (a b : List ℕ) → (script_of a).rest ≡ []
        → script_of (a ++ b) ≡ record { ended = (script_of a).ended ++ (script_of b).ended; rest = (script_of b).rest } }
    ensures prefix { (a b : List ℕ)
        → ((more : List (List ℕ)) × ((script_of (a ++ b)).ended ≡ (script_of a).ended ++ more)) }
{}
