//! Scripts and their stories, and what became of them.

use crate::audits::is_sound;
use crate::devices::{Devices, ROOM};
use crate::outcome::Outcome;
use salt_run::Status;
use std::alloc::{AllocError, Global};

/// The words for the numbers of partitions over which a script is run.
const EACH: &[&str] = &["--parts=2", "--parts=1", "--parts=3", "--parts=8"];

const TWO: &[&str] = &["--parts=2"];

/// The most bytes of a script that is run over each number of partitions. A longer one is long for what is counted in memory, where there are no
/// partitions.
const SHORT: usize = 16_384;

/// A word that a script is run by besides.
#[derive(Clone, Copy)]
enum Word {
    /// `--early`
    Early,
    /// `--place=bands`
    Bands,
}

/// A script, the word that it is run by besides, and the story that it is to tell.
#[derive(Drop)]
struct Case {
    script: Vec<u8>,
    story: Vec<u8>,
    word: Option<Word>,
}

impl Case {
    /// A script without lines.
    fn new(alloc: Global) -> Case {
        Case {
            script: Vec::new(alloc),
            story: Vec::new(alloc),
            word: None,
        }
    }

    /// Adds the lines of another case.
    fn add(&mut self, other: &Case) -> Result<(), AllocError> {
        self.word = other.word.or(self.word);
        self.script.extend_from_slice(&other.script)?;
        self.story.extend_from_slice(&other.story)
    }
}

/// The scripts run so far.
#[derive(Drop)]
pub struct Cases {
    alloc: Global,
    /// What each script begins with.
    start: Case,
    /// The lines of the one that is read.
    case: Case,
    /// How many scripts told their stories.
    told: u64,
    /// How many of their stories are audited yes.
    sound: u64,
    /// What the others told.
    others: Vec<u8>,
}

/// Adds a line, without the blank in front of it.
fn add_line(text: &mut Vec<u8>, line: &[u8]) -> Result<(), AllocError> {
    let line = match line {
        [b' ', rest @ ..] => rest,
        _ => line,
    };
    text.extend_from_slice(line)?;
    text.push(b'\n')?;
    Ok(())
}

/// Whether a line of the script arms stops.
fn arms_stops(script: &[u8]) -> bool {
    for (at, _) in script.iter().enumerate() {
        if script
            .get(at..)
            .unwrap_or_default()
            .starts_with(b"\ncrash ")
        {
            return true;
        }
    }
    false
}

/// The story that a run has written; behind it the number of its status, where the run is not done.
fn story_in(alloc: Global, outcome: &Outcome) -> Result<Vec<u8>, AllocError> {
    let mut story = Vec::from_slice(alloc, outcome.text())?;
    if !outcome.is(Status::Done) {
        let line = format!(in alloc; "status {}\n", outcome.status().number())?;
        story.extend_from_slice(line.as_bytes())?;
    }
    Ok(story)
}

/// The story of the script over so many partitions. It has room for more than the script is to tell.
fn story_over(alloc: Global, case: &Case, parts: &str) -> Result<Vec<u8>, AllocError> {
    let room = case.story.len().saturating_add(ROOM);
    let mut devices = Devices::new(alloc)?;
    let script = &case.script;
    let outcome = match case.word {
        None => devices.run_within(alloc, room, &["run", parts], script)?,
        Some(Word::Early) => devices.run_within(alloc, room, &["run", parts, "--early"], script)?,
        Some(Word::Bands) => {
            devices.run_within(alloc, room, &["run", parts, "--place=bands"], script)?
        }
    };
    story_in(alloc, &outcome)
}

/// The words for the numbers of partitions over which a script is run. Stops are counted by the calls of two.
fn parts_of(script: &[u8]) -> &'static [&'static str] {
    if script.len() > SHORT || arms_stops(script) {
        TWO
    } else {
        EACH
    }
}

/// The story of the script over some number of partitions that is another than it is to tell.
fn other_story(alloc: Global, case: &Case) -> Result<Option<Vec<u8>>, AllocError> {
    for parts in parts_of(&case.script) {
        let told = story_over(alloc, case, parts)?;
        if told != case.story {
            return Ok(Some(told));
        }
    }
    Ok(None)
}

impl Cases {
    /// No scripts.
    pub fn new(alloc: Global) -> Cases {
        Cases {
            alloc,
            start: Case::new(alloc),
            case: Case::new(alloc),
            told: 0,
            sound: 0,
            others: Vec::new(alloc),
        }
    }

    /// What the scripts told that told another story; how many told theirs, and of how many of these an audit says yes.
    pub fn text(self) -> Result<Vec<u8>, AllocError> {
        let (told, sound) = (self.told, self.sound);
        let count = format!(in self.alloc;
            "{told} scripts tell their stories\n{sound} of these are audited yes\n"
        )?;
        let mut text = self.others;
        text.extend_from_slice(count.as_bytes())?;
        Ok(text)
    }

    /// Reads a row. One that is none of a script does nothing.
    pub fn row(&mut self, row: &[u8]) -> Result<(), AllocError> {
        match row {
            [b'>', line @ ..] => add_line(&mut self.case.script, line),
            [b'<', line @ ..] => add_line(&mut self.case.story, line),
            b"+ early" => {
                self.case.word = Some(Word::Early);
                Ok(())
            }
            b"+ bands" => {
                self.case.word = Some(Word::Bands);
                Ok(())
            }
            [] => self.end(),
            [b'='] => {
                let whole = self.whole()?;
                self.end()?;
                self.start = whole;
                Ok(())
            }
            [b'/'] => {
                self.end()?;
                self.start = Case::new(self.alloc);
                Ok(())
            }
            _ => Ok(()),
        }
    }

    /// The script that is read, from its start on.
    fn whole(&self) -> Result<Case, AllocError> {
        let mut whole = Case::new(self.alloc);
        whole.add(&self.start)?;
        whole.add(&self.case)?;
        Ok(whole)
    }

    /// Runs the script that was read, if it has lines.
    pub fn end(&mut self) -> Result<(), AllocError> {
        if self.case.script.is_empty() && self.case.story.is_empty() {
            return Ok(());
        }
        let whole = self.whole()?;
        self.case = Case::new(self.alloc);
        let Some(story) = other_story(self.alloc, &whole)? else {
            self.told = self.told.saturating_add(1);
            if is_sound(self.alloc, &whole.story)? {
                self.sound = self.sound.saturating_add(1);
            }
            return Ok(());
        };
        self.others.extend_from_slice(&whole.script)?;
        self.others.extend_from_slice(b"tells\n")?;
        self.others.extend_from_slice(&story)
    }
}
