//! Names of units, and of what a unit waits for.

ghost use Rattle.std.specs.Prelude.{◌++◌, codes};
ghost use Rattle.salt_ast.specs.Prints.{Prints};
ghost use Rattle.salt_ast.specs.Texts.{preceded};
ghost use Rattle.salt_model.specs.EventTexts.{owner_text, unit_text};

use salt_ast::Printer;
use salt_io::Sink;
use salt_model::Owner;
use salt_values::Id;

/// Prints a unit's name, as `u1.2`.
pub fn print_unit<K: Sink>(out: &mut Printer<'_, K>, unit: Id)
    ensures { Prints K.held K.faults out.old out.new (unit_text unit) }
{
    out.bytes(b"u");
    out.id(unit);
}

/// Prints the name of a unit or of a BASE program.
pub fn print_owner<K: Sink>(out: &mut Printer<'_, K>, owner: Owner)
    ensures { Prints K.held K.faults out.old out.new (owner_text owner) }
{
    match owner {
        Owner::Unit(unit) => print_unit(out, unit),
        Owner::Base(base) => out.base(base),
    }
}

/// Prints each owner's name with a space before it.
pub fn print_owners<K: Sink>(out: &mut Printer<'_, K>, owners: &[Owner])
    ensures { Prints K.held K.faults out.old out.new (preceded (codes " ") owner_text owners.now) }
{
    for owner in owners {
        out.bytes(b" ");
        print_owner(out, *owner);
    }
}
