//! The events of a story.

use crate::shown::Items as ShownItems;
use salt_ast::{LimitName, Pairs, Shared, Statement};
use salt_values::{Bytes, Id, Ids, Name, Row, Rows, TryCopy, Value};
use sqlite_items::Items;
use std::alloc::{AllocError, Global};

/// A unit, or a BASE program.
#[derive(Clone, Copy, Debug, PartialEq, Eq)]
pub enum Owner {
    Unit(Id),
    Base(Id),
}

/// Units before BASE programs, each in the order of their names.
pub type Owners = Items<Owner>;

/// Whose unit it is.
pub enum UnitKind {
    /// An ACID transaction of a session.
    Acid {
        session: u8,
    },
    /// The unit of an ACID program that a session called.
    Call {
        session: u8,
        program: Name,
        args: Row,
    },
    /// The first part of a BASE program that a session called.
    First {
        session: u8,
        base: Id,
        program: Name,
        args: Row,
    },
    /// A later part of a BASE program.
    Later {
        base: Id,
        part: u32,
    },
}

impl TryCopy for UnitKind {
    fn copy(&self, alloc: Global) -> Result<UnitKind, AllocError> {
        match self {
            UnitKind::Acid { session } => Ok(UnitKind::Acid { session: *session }),
            UnitKind::Call {
                session,
                program,
                args,
            } => Ok(UnitKind::Call {
                session: *session,
                program: program.copy(alloc)?,
                args: args.copy(alloc)?,
            }),
            UnitKind::First {
                session,
                base,
                program,
                args,
            } => Ok(UnitKind::First {
                session: *session,
                base: *base,
                program: program.copy(alloc)?,
                args: args.copy(alloc)?,
            }),
            UnitKind::Later { base, part } => Ok(UnitKind::Later {
                base: *base,
                part: *part,
            }),
        }
    }
}

impl Drop for UnitKind {
    fn drop(self) {
        match self {
            UnitKind::Acid { session: _session } => {}
            UnitKind::Call {
                session: _session,
                program: _program,
                args: _args,
            } => {}
            UnitKind::First {
                session: _session,
                base: _base,
                program: _program,
                args: _args,
            } => {}
            UnitKind::Later {
                base: _base,
                part: _part,
            } => {}
        }
    }
}

/// Why a statement fails.
#[derive(Clone, Copy, Debug, PartialEq, Eq)]
pub enum Cause {
    /// The key of an INSERT is there.
    Duplicate,
    /// A check of the table is false for the row.
    Check,
    /// The key of a SELECT INTO is not there.
    Missing,
    /// The condition of an ENSURE is false.
    Ensure,
    /// A number is outside 64 bits.
    Overflow,
    /// A text is longer than 255 bytes.
    TooLong,
}

/// How a unit ends.
#[derive(Clone, Copy, Debug, PartialEq, Eq)]
pub enum End {
    /// Committed by the decision of this number.
    Committed(u64),
    Failed(Cause),
    /// A later part of a BASE program failed: the program goes on at its branch, by the decision of this number.
    Branched(u64, Cause),
    RolledBack,
    /// Given up, so that others need not wait for each other.
    Victim,
    /// Cut off by a stop.
    Cut,
}

/// What a statement answers.
pub enum Answer {
    /// How many rows were changed.
    Count(u64),
    /// The rows shown, in the order of their keys.
    Rows(Rows),
    /// A number of rows, a sum, or the least or greatest value, which may be none.
    Cell(Option<Value>),
    /// The value that a variable took.
    Stored(Value),
    /// The condition holds.
    Held,
    Failed(Cause),
}

impl Drop for Answer {
    fn drop(self) {
        match self {
            Answer::Count(_count) => {}
            Answer::Rows(_rows) => {}
            Answer::Cell(_value) => {}
            Answer::Stored(_value) => {}
            Answer::Held => {}
            Answer::Failed(_cause) => {}
        }
    }
}

/// Why a run goes down.
#[derive(Clone, Copy, Debug, PartialEq, Eq)]
pub enum Why {
    Stopped,
    Fault,
}

/// Why a line is refused, in the order in which refusals are judged.
pub enum Refusal {
    /// The joined line has more than 65,536 bytes.
    Long,
    /// A byte is neither 9 nor in 32 to 126.
    Byte,
    /// The line is outside the grammar.
    Syntax,
    /// A count passes its limit.
    Limit(LimitName),
    /// No table, column, parameter, variable, program or base has this name.
    Unknown(Name),
    /// A name is defined, or a column is set, a second time.
    Exists(Name),
    /// A type, or a number of values or arguments, is wrong.
    Mistyped,
    /// This part has no branch, or one that does not lead on.
    Branch(u32),
    /// The session, the program or the disks are in no state for it.
    State,
    /// A definition while a unit is open or a BASE program is not released.
    Busy,
}

impl Drop for Refusal {
    fn drop(self) {
        match self {
            Refusal::Long => {}
            Refusal::Byte => {}
            Refusal::Syntax => {}
            Refusal::Limit(_limit) => {}
            Refusal::Unknown(_name) => {}
            Refusal::Exists(_name) => {}
            Refusal::Mistyped => {}
            Refusal::Branch(_part) => {}
            Refusal::State => {}
            Refusal::Busy => {}
        }
    }
}

/// One thing that a run tells.
pub enum Event {
    /// A unit begins.
    Began {
        unit: Id,
        kind: UnitKind,
    },
    /// A unit's statement is done.
    Did {
        unit: Id,
        /// Shared with the line or the program that it is of; and each event takes the room of the widest, and is moved often.
        statement: Shared<Statement>,
        answer: Answer,
    },
    /// A unit's statement clashes with what these hold.
    Waits {
        unit: Id,
        owners: Owners,
    },
    /// A unit ends.
    Ended {
        unit: Id,
        end: End,
    },
    /// The first part of a BASE program is committed.
    Accepted(Id),
    /// A BASE program has come to its end.
    Finished(Id),
    /// The saline locks of these BASE programs are given up.
    Released(Ids),
    /// The run goes down.
    Down(Why),
    /// The database was opened, in a new boot; so many decisions stand.
    Opened {
        boot: u64,
        decisions: u64,
    },
    /// The opening is done, and lines are served.
    Ready,
    /// The opening is done while these BASE programs are unfinished: they are hidden until they are released, and lines are served.
    Early(Ids),
    /// A definition was made by the decision of this number; its canonical text.
    Defined {
        number: u64,
        text: Bytes,
    },
    /// A line was refused.
    Refused(Refusal),
    /// Stops of the disks were armed.
    Armed(Pairs),
    /// What a line was to show.
    Shown(ShownItems),
}

impl Drop for Event {
    fn drop(self) {
        match self {
            Event::Began {
                unit: _unit,
                kind: _kind,
            } => {}
            Event::Did {
                unit: _unit,
                statement: _statement,
                answer: _answer,
            } => {}
            Event::Waits {
                unit: _unit,
                owners: _owners,
            } => {}
            Event::Ended {
                unit: _unit,
                end: _end,
            } => {}
            Event::Accepted(_base) => {}
            Event::Finished(_base) => {}
            Event::Released(_bases) => {}
            Event::Down(_why) => {}
            Event::Opened {
                boot: _boot,
                decisions: _decisions,
            } => {}
            Event::Ready => {}
            Event::Early(_bases) => {}
            Event::Defined {
                number: _number,
                text: _text,
            } => {}
            Event::Refused(_refusal) => {}
            Event::Armed(_pairs) => {}
            Event::Shown(_items) => {}
        }
    }
}

/// A decision that was in flight where a run ended: a unit's, or a definition's with its canonical text.
#[derive(Drop)]
pub enum Flight {
    Unit(Id),
    Definition(Bytes),
}

/// The events of a run, in their order.
pub type Story = Items<Event>;
