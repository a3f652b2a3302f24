//! The rows of a table, and what became of their lines.

use crate::patterns::{exchanged, filled, pad, pieces, repeated, times_in, tokens, with_times};
use crate::words::shown;
use std::alloc::{AllocError, Global};

/// The most bytes of a line that is shown where it is told otherwise.
const SHOWN_MOST: usize = 200;

/// What lines outside the grammar are told.
const SYNTAX: &[u8] = b"refused 3 syntax";

/// The lines judged so far.
#[derive(Drop)]
pub struct Table {
    alloc: Global,
    /// What stands in the place of a `#`.
    items: Vec<Vec<u8>>,
    /// How many lines were told what they were to be told.
    told: u64,
    /// The lines that were told otherwise, each with what they were told.
    others: Vec<u8>,
}

/// A row's pattern, and what stands behind its last `$`.
fn split(row: &[u8]) -> (&[u8], &[u8]) {
    match row.iter().rposition(|byte| *byte == b'$') {
        Some(at) => (
            row.get(..at).unwrap_or(row),
            row.get(at.saturating_add(1)..).unwrap_or(b""),
        ),
        None => (row, b""),
    }
}

/// The number before the first blank, and what stands behind it.
fn counted(row: &[u8]) -> (usize, &[u8]) {
    let mut count: usize = 0;
    for (at, byte) in row.iter().enumerate() {
        if *byte == b' ' {
            return (count, row.get(at.saturating_add(1)..).unwrap_or(b""));
        }
        let digit = usize::from(byte.saturating_sub(b'0'));
        count = count.saturating_mul(10).saturating_add(digit);
    }
    (count, b"")
}

impl Table {
    /// No lines.
    pub fn new(alloc: Global) -> Table {
        Table {
            alloc,
            items: Vec::new(alloc),
            told: 0,
            others: Vec::new(alloc),
        }
    }

    /// The lines that were told otherwise, and how many were told what they were to be told.
    pub fn text(self) -> Result<Vec<u8>, AllocError> {
        let told = self.told;
        let count = format!(in self.alloc; "{told} lines are told what their rows say\n")?;
        let mut text = self.others;
        text.extend_from_slice(count.as_bytes())?;
        Ok(text)
    }

    /// Judges a line.
    fn line(&mut self, line: &[u8], wanted: &[u8]) -> Result<(), AllocError> {
        let told = shown(self.alloc, line)?;
        if told.as_slice() == wanted {
            self.told = self.told.saturating_add(1);
            return Ok(());
        }
        self.others
            .extend_from_slice(line.get(..SHOWN_MOST).unwrap_or(line))?;
        self.others.extend_from_slice(b" -> ")?;
        self.others
            .extend_from_slice(told.get(..SHOWN_MOST).unwrap_or(told.as_slice()))?;
        self.others.push(b'\n')?;
        Ok(())
    }

    /// Judges the line of a pattern.
    fn pattern(&mut self, times: usize, pattern: &[u8], told: &[u8]) -> Result<(), AllocError> {
        let line = repeated(self.alloc, pattern, times)?;
        let wanted = repeated(self.alloc, told, times)?;
        self.line(&line, &wanted)
    }

    /// Judges the longest line of a pattern.
    fn longest(&mut self, pattern: &[u8], told: &[u8]) -> Result<(), AllocError> {
        let times = times_in(self.alloc, pattern)?;
        let mut line = repeated(self.alloc, pattern, times)?;
        pad(&mut line)?;
        let wanted = repeated(self.alloc, told, times)?;
        self.line(&line, &wanted)
    }

    /// Judges the line of each item.
    fn each_item(&mut self, pattern: &[u8], told: &[u8]) -> Result<(), AllocError> {
        for at in 0..self.items.len() {
            if let Some(item) = self.items.get(at) {
                let line = filled(self.alloc, pattern, item)?;
                let wanted = filled(self.alloc, told, item)?;
                self.line(&line, &wanted)?;
            }
        }
        Ok(())
    }

    /// Judges a neighbour of a line, which is outside the grammar where it is none of these.
    fn neighbour(&mut self, line: &[u8], read: &[Vec<u8>]) -> Result<(), AllocError> {
        if !read.iter().any(|other| other.as_slice() == line) {
            return self.line(line, SYNTAX);
        }
        if shown(self.alloc, line)?.as_slice() == SYNTAX {
            return self.line(line, b"a tree or a limit");
        }
        self.told = self.told.saturating_add(1);
        Ok(())
    }

    /// Judges the neighbours of a line.
    fn neighbours(&mut self, line: &[u8], told: &[u8]) -> Result<(), AllocError> {
        let read = pieces(self.alloc, told, b'^')?;
        let tokens = tokens(self.alloc, line)?;
        for place in 0..tokens.len() {
            let without = with_times(self.alloc, &tokens, place, 0)?;
            self.neighbour(&without, &read)?;
            let doubled = with_times(self.alloc, &tokens, place, 2)?;
            self.neighbour(&doubled, &read)?;
            let exchanged = exchanged(self.alloc, &tokens, place)?;
            self.neighbour(&exchanged, &read)?;
        }
        Ok(())
    }

    /// Judges a row. One that is empty, or that begins with a blank, is none.
    pub fn row(&mut self, row: &[u8]) -> Result<(), AllocError> {
        let [mark, rest @ ..] = row else {
            return Ok(());
        };
        let (pattern, told) = split(rest);
        match mark {
            b' ' => Ok(()),
            b'=' => self.line(pattern, told),
            b'<' => self.longest(pattern, told),
            b'#' => self.each_item(pattern, told),
            b'~' => self.neighbours(pattern, told),
            b'?' => self.list(rest),
            _ => {
                let (pattern, told) = split(row);
                let (times, pattern) = counted(pattern);
                self.pattern(times, pattern, told)
            }
        }
    }

    /// Takes the items of the rows that follow; what stands first stands between them.
    fn list(&mut self, rest: &[u8]) -> Result<(), AllocError> {
        if let [mark, items @ ..] = rest {
            self.items = pieces(self.alloc, items, *mark)?;
        }
        Ok(())
    }
}
