//! What has a name.

ghost use Rattle.std.specs.Prelude.{◌≡◌, List, ℕ};

use salt_ast::{Field, ProgramDef, Set, TableDef};
use salt_values::Name;

/// What has a name that something else of its kind must not have.
pub trait Named {
    ghost name: { Self → List ℕ };

    /// Its name.
    fn name(&self) -> &Name
        ensures { result.now ≡ name self.now };
}

impl Named for TableDef {
    ghost name = { λ d. d.name };

    fn name(&self) -> &Name {
        &self.name
    }
}

impl Named for ProgramDef {
    ghost name = { λ p. p.name };

    fn name(&self) -> &Name {
        &self.name
    }
}

impl Named for Field {
    ghost name = { λ f. f.name };

    fn name(&self) -> &Name {
        &self.name
    }
}

/// A set goes by its column.
impl Named for Set {
    ghost name = { λ s. s.column };

    fn name(&self) -> &Name {
        &self.column
    }
}
