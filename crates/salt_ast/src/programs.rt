//! The trees of programs.

ghost use Rattle.salt_ast.specs.ProgramJudgement.{is_base};
ghost use Rattle.std.specs.Prelude.{◌≡◌};

use crate::trees::{Fields, Statements};
use salt_values::Name;
use sqlite_items::Items;

/// Where a program goes on behind a part.
#[derive(Clone, Copy, Debug, PartialEq, Eq)]
pub enum Next {
    /// At this part, where the first is 1.
    Part(u64),
    /// Nowhere: the program ends.
    End,
}

/// A part of a BASE program: the statements of one unit, and where the program goes on.
pub struct PartDef {
    pub block: Statements,
    /// Behind the part's commit; where nothing is said, at the part that follows, or at the end
    /// behind the last.
    pub then: Option<Next>,
    /// How often the part is tried again where it fails, 1 to 9, before the program goes on at its
    /// branch. Where nothing is written it is not.
    pub retry: Option<u8>,
    /// Behind the part's failure. Each part but the first has one.
    pub on_failure: Option<Next>,
}

impl Drop for PartDef {
    fn drop(self) {
        let PartDef {
            block: _block,
            then: _then,
            retry: _retry,
            on_failure: _on_failure,
        } = self;
    }
}

/// The parts of a BASE program, in the order of their numbers.
pub type Parts = Items<PartDef>;

/// What a program does.
pub enum Body {
    /// All statements in one ACID unit.
    Acid(Statements),
    /// Each part in a unit of its own, along the path that the parts declare.
    Base(Parts),
}

impl Drop for Body {
    fn drop(self) {
        match self {
            Body::Acid(_block) => {}
            Body::Base(_parts) => {}
        }
    }
}

/// A program's name, its parameters and variables, and what it does.
pub struct ProgramDef {
    pub name: Name,
    pub params: Fields,
    pub vars: Fields,
    pub body: Body,
}

impl ProgramDef {
    /// Whether it is a BASE program.
    pub fn is_base(&self) -> bool
        ensures { result ≡ is_base self.now }
    {
        match self.body {
            Body::Acid(_) => false,
            Body::Base(_) => true,
        }
    }
}

impl Drop for ProgramDef {
    fn drop(self) {
        let ProgramDef {
            name: _name,
            params: _params,
            vars: _vars,
            body: _body,
        } = self;
    }
}
