//! The programs defined.

ghost use Rattle.std.specs.Prelude.{◌≡◌, ◌<◌, ◌≤◌, ◌++◌, ◌∷◌, ◌^◌, [], IfSome, OnErr, OnOk, Some, length, slice_get};
ghost use Rattle.std.specs.Option.{option_copied};
ghost use Rattle.salt_ast.specs.ProgramJudgement.{are_arguments, fits, program_named};
ghost use Rattle.salt_values.specs.declared.limits.TheConstants.{PROGRAMS_MOST};
ghost use Rattle.salt_program.specs.Refusals.{IsAnswer, parts_in, program_refusal};
ghost use Rattle.salt_schema.specs.Definitions.{number_named};

use crate::error::DefineErr;
use salt_ast::{Field, ProgramDef};
use salt_schema::{Definitions, Schema, same_types, value_type};
use salt_values::limits::PROGRAMS_MOST;
use salt_values::{Name, Row, Value};
use std::alloc::Global;
use std::marker::Model;

/// The programs defined, with different names, numbered from 0, no more than there may be. Contracts see the list of their
/// definitions.
#[derive(Drop)]
pub struct Catalogue {
    programs: Definitions<ProgramDef>,
}

impl Model for Catalogue {
    ghost use Rattle.std.specs.Prelude.{List, length, ◌≤◌};
    ghost use Rattle.salt_ast.specs.declared.programs.ProgramDef.{ProgramDef};
    ghost use Rattle.std.specs.Coded.{codes};
    ghost use Rattle.salt_ast.specs.contracts.trees.Expr as expr;
    ghost use Rattle.salt_values.specs.declared.limits.TheConstants.{PROGRAMS_MOST};

    ghost Value = { List ProgramDef };

    ghost coded = { Prim.hlevel (codes, expr.the_row.coded) };

    ghost view = { λ s. s.programs };

    ghost invariant = { λ s. length s.programs ≤ PROGRAMS_MOST };
}

/// As many values as fields, each of its field's type. NULL has no type.
pub fn are_arguments(params: &[Field], args: &[Value]) -> bool
    ensures { result ≡ are_arguments params.now args.now }
{
    if params.len() != args.len() {
        return false;
    }
    for (at, arg) in args.iter().enumerate() {
        if !same_types(Some(params[at].kind), value_type(arg)) {
            return false;
        }
    }
    true
}

impl Catalogue {
    /// No programs.
    pub fn new(alloc: Global) -> Catalogue
        ensures { result ≡ [] }
    {
        Catalogue {
            programs: Definitions::new(alloc),
        }
    }

    /// The allocator of the programs.
    pub fn allocator(&self) -> Global {
        self.programs.allocator()
    }

    /// How many programs there are.
    pub fn count(&self) -> usize
        ensures count { result ≡ length self.now }
        ensures few { result ≤ PROGRAMS_MOST }
    {
        self.programs.len()
    }

    /// The program of this name.
    pub fn find(&self, name: &Name) -> Option<&ProgramDef>
        ensures { option_copied result ≡ program_named self.now name.now }
    {
        self.programs.named(name)
    }

    /// The program of this number, where they are numbered from 0 in the order in which they were defined.
    pub fn numbered(&self, number: u16) -> Option<&ProgramDef>
        ensures value { option_copied result ≡ slice_get self.now number }
        // Its name is no other program's.
        ensures own { IfSome result (λ def. number_named (λ p. p.name) def.now.name self.now ≡ Some number) }
    {
        self.programs.get(number as usize)
    }

    /// Whether a program of this name is defined, and these are arguments for its parameters: as many, each of its parameter's type.
    /// NULL is none for any.
    pub fn fits(&self, name: &Name, args: &Row) -> bool
        ensures { result ≡ fits self.now name.now args.now }
    {
        match self.find(name) {
            Some(def) => are_arguments(def.params.as_slice(), args.as_slice()),
            None => false,
        }
    }

    /// Defines a program, which takes the next number. It is refused as `judge` tells; any `Err` changes nothing.
    pub fn define(&mut self, schema: &Schema, def: ProgramDef) -> Result<(), DefineErr>
        requires parts { length (parts_in def.body) < 2 ^ 32 }
        ensures answer { IsAnswer (program_refusal schema.now self.old def) result }
        ensures ok { OnOk result (self.new ≡ self.old ++ def ∷ []) }
        ensures err { OnErr result (self.new ≡ self.old) }
    {
        self.judge(schema, &def)?;
        self.programs.add(def)?;
        Ok(())
    }
}
