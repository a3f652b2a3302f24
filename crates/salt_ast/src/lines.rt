//! The trees of a script's lines.

use crate::programs::ProgramDef;
use crate::shared::Shared;
use crate::trees::{Statement, TableDef};
use salt_values::{Id, Name, Row};
use sqlite_items::Items;

/// What a line arms: stops of the disks, each by the number of the call that stops and which bytes it leaves; or what befalls messages,
/// each by the number of the turn and what happens there.
pub type Pairs = Items<(u64, u8)>;

/// What a session is to do.
pub enum Act {
    /// Open an ACID unit.
    Begin,
    Commit,
    Rollback,
    /// Do the next turn of the unit that a call began.
    Step,
    Call { program: Name, args: Row },
    Do(Shared<Statement>),
}

impl Drop for Act {
    fn drop(self) {
        match self {
            Act::Begin => {}
            Act::Commit => {}
            Act::Rollback => {}
            Act::Step => {}
            Act::Call {
                program: _program,
                args: _args,
            } => {}
            Act::Do(_statement) => {}
        }
    }
}

/// A line of a script.
pub enum Line {
    /// An empty line or a comment, which does nothing.
    Nothing,
    Table(TableDef),
    Program(ProgramDef),
    /// The session's number, and what the session is to do.
    Session { session: u8, act: Act },
    /// One turn of the BASE program of this name.
    Go(Id),
    /// One turn of each BASE program that is under way.
    GoAll,
    ShowLocks,
    ShowBases,
    /// Stops of the disks, in the order in which they come.
    Crash(Pairs),
    /// What befalls the messages of commits, in the order in which it comes.
    Net(Pairs),
}

impl Drop for Line {
    fn drop(self) {
        match self {
            Line::Nothing => {}
            Line::Table(_def) => {}
            Line::Program(_def) => {}
            Line::Session {
                session: _session,
                act: _act,
            } => {}
            Line::Go(_base) => {}
            Line::GoAll => {}
            Line::ShowLocks => {}
            Line::ShowBases => {}
            Line::Crash(_pairs) => {}
            Line::Net(_pairs) => {}
        }
    }
}
