//! What is known of a database.

ghost use Rattle.salt_ast.specs.ProgramTexts.{program_text};
ghost use Rattle.salt_ast.specs.Texts.{table_text};
ghost use Rattle.salt_model.specs.Kept.{Kept, OfProgram, OfTable, block_of_kind, cont_of, conts_branched, conts_committed, kept_program, vars_of_kind};
ghost use Rattle.salt_model.specs.Locks.{base_tables};
ghost use Rattle.salt_model.specs.Refusals.{is_base_program};
ghost use Rattle.salt_model.specs.Tables.{Tables};
ghost use Rattle.salt_cont.specs.Catalogues.{AllLeadOn};
ghost use Rattle.salt_values.specs.Id.{in_order};
ghost use Rattle.salt_program.specs.Refusals.{parts_in, program_refusal};
ghost use Rattle.salt_schema.specs.Refusals.{table_refusal};
ghost use Rattle.salt_model.specs.declared.events.UnitKind.TheVariants.{Call, Later};
ghost use Rattle.salt_values.specs.declared.cont.Cont.{Cont};
ghost use Rattle.std.specs.Option.{option_copied};
ghost use Rattle.std.specs.Prelude.{IfOk, List, None, OnOk, [], length, map, ◌++◌, ◌+◌, ◌<◌, ◌^◌, ℕ, ◌∷◌, ◌≡◌};

use crate::bindings::{vars_at_call, vars_at_cont};
use crate::blocks::{block_of_call, block_of_part, is_base_program};
use crate::conts::{cont_among, make_move};
use crate::going::Going;
use crate::ids::bases_among;
use crate::moves::{move_of_branch, move_of_commit};
use crate::tables::base_tables;
use crate::texts::{program_text, table_text};
use salt_ast::{ProgramDef, Shared, Statement, TableDef};
use salt_cont::Move;
use salt_model::{UnitKind, Vars};
use salt_program::Catalogue;
use salt_schema::Schema;
use salt_values::{Bytes, Cont, Conts, Id, Name, Row, TryCopy, next_number};
use sqlite_items::Items;
use std::alloc::{AllocError, Global};
use std::marker::Model;

/// What is known in memory of a database: the tables and programs defined, and where programs go on, beside the boot and the
/// number of the last decision. The ways of each program lead to later parts or to the end. The rows stand in a storage. An error
/// leaves it in no state that is told.
pub struct Known {
    alloc: Global,
    schema: Schema,
    catalogue: Catalogue,
    conts: Going,
    /// Whether it is known that programs go on in the order of their names.
    rising: bool,
    boot: u64,
    decisions: u64,
}

impl Model for Known {
    ghost use Rattle.law_states.specs.Rising.{AreInOrder};
    ghost use Rattle.salt_books.specs.Bases.{bases_in};
    ghost use Rattle.salt_ast.specs.contracts.trees.Expr as expr;
    ghost use Rattle.salt_books.specs.Shown.{ShownKnown};
    ghost use Rattle.salt_cont.specs.Catalogues.{AllLeadOn};
    ghost use Rattle.std.specs.Coded.{codes};
    ghost use Rattle.std.specs.Prelude.{IsTrue};

    ghost Value = { ShownKnown };

    ghost coded = { Prim.hlevel (codes, expr.the_row.coded) };

    ghost view = { λ x. record { schema = x.schema; catalogue = x.catalogue; conts = x.conts; boot = x.boot; decisions = x.decisions } };

    ghost invariant = { λ x. (IsTrue x.rising → AreInOrder (bases_in x.conts)) × AllLeadOn x.catalogue };
}

impl Drop for Known {
    fn drop(self) {
        let Known {
            alloc: _alloc,
            schema: _schema,
            catalogue: _catalogue,
            conts: _conts,
            rising: _rising,
            boot: _boot,
            decisions: _decisions,
        } = self;
    }
}

/// The number of a decision and the canonical text of what it defines.
pub type Defined = (u64, Bytes);

impl Known {
    ghost use Rattle.salt_books.specs.Known.{IsKnown, boot_known, conts_known, decisions_known, programs_known, tables_known};
    ghost use Rattle.salt_books.specs.Moves.{CanMove, IsAtPart, MovesTo};

    /// What a storage was found to hold.
    pub fn new(
        alloc: Global,
        schema: Schema,
        catalogue: Catalogue,
        conts: Conts,
        boot: u64,
        decisions: u64,
    ) -> Known
        requires { AllLeadOn catalogue }
        ensures { result ≡ record { schema = schema; catalogue = catalogue; conts = conts; boot = boot; decisions = decisions } }
    {
        let rising = conts.is_empty();
        Known {
            alloc,
            schema,
            catalogue,
            conts: Going::from_items(conts),
            rising,
            boot,
            decisions,
        }
    }

    /// The tables and the programs defined, the boot, and the number of the last decision.
    pub fn into_parts(self) -> (Schema, Catalogue, u64, u64)
        ensures schema { result.0 ≡ tables_known self }
        ensures catalogue { result.1 ≡ programs_known self }
        ensures lead_on { AllLeadOn result.1 }
        ensures boot { result.2 ≡ boot_known self }
        ensures decisions { result.3 ≡ decisions_known self }
    {
        let Known {
            alloc: _alloc,
            schema,
            catalogue,
            conts: _conts,
            rising: _rising,
            boot,
            decisions,
        } = self;
        (schema, catalogue, boot, decisions)
    }

    /// The tables defined.
    pub fn schema(&self) -> &Schema
        ensures { result.now ≡ tables_known self.now }
    {
        &self.schema
    }

    /// The programs defined.
    pub fn catalogue(&self) -> &Catalogue
        ensures { result.now ≡ programs_known self.now }
    {
        &self.catalogue
    }

    /// The number of the boot.
    pub fn boot(&self) -> u64
        ensures { result ≡ boot_known self.now }
    {
        self.boot
    }

    /// The number of the last decision, 0 before the first.
    pub fn decisions(&self) -> u64
        ensures { result ≡ decisions_known self.now }
    {
        self.decisions
    }

    /// The program of a name.
    pub fn program(&self, name: &Name) -> Option<&ProgramDef>
        ensures { (k : Kept) → IsKnown self.now k → option_copied result ≡ kept_program name.now k }
    {
        self.catalogue.find(name)
    }

    /// Whether the program of a name is a BASE program.
    pub fn is_base(&self, name: &Name) -> bool
        ensures { (k : Kept) → IsKnown self.now k → result ≡ is_base_program (kept_program name.now k) }
    {
        is_base_program(self.program(name))
    }

    /// Where a program goes on that is accepted and not finished.
    pub fn cont(&self, base: Id) -> Option<&Cont>
        ensures { (k : Kept) → IsKnown self.now k → option_copied result ≡ cont_of base k }
    {
        cont_among(self.conts.as_slice(), self.rising, base)
    }

    /// Where the programs go on that are accepted and not finished, in the order in which they were accepted.
    pub fn conts(&self) -> &[Cont]
        ensures { result.now ≡ conts_known self.now }
    {
        self.conts.as_slice()
    }

    /// The programs that go on, in order of their names.
    pub fn bases(&self) -> Result<Vec<Id>, AllocError>
        ensures { IfOk result (λ ids. (k : Kept) → IsKnown self.now k → ids.items ≡ in_order (map (λ (c : Cont). c.base) k.conts)) }
    {
        bases_among(self.alloc, self.conts.as_slice(), self.rising)
    }

    /// The numbers of the base tables, rising.
    pub fn base_tables(&self) -> Result<Vec<u16>, AllocError>
        ensures { IfOk result (λ numbers. (k : Kept) → IsKnown self.now k → numbers.items ≡ base_tables k) }
    {
        base_tables(self.alloc, &self.schema, &self.catalogue)
    }

    fn vars_of_call(&self, program: &Name, args: &Row) -> Result<Vars, AllocError>
        ensures { IfOk result (λ vars. (k : Kept) (session : ℕ) → IsKnown self.now k → vars ≡ vars_of_kind k (Call session program.now args.now)) }
    {
        match self.program(program) {
            Some(def) => vars_at_call(self.alloc, def, args),
            None => Ok(Items::new(self.alloc)),
        }
    }

    fn vars_of_part(&self, base: Id) -> Result<Vars, AllocError>
        ensures { IfOk result (λ vars. (k : Kept) (part : ℕ) → IsKnown self.now k → vars ≡ vars_of_kind k (Later base part)) }
    {
        let Some(cont) = self.cont(base) else {
            return Ok(Items::new(self.alloc));
        };
        match self.program(&cont.program) {
            Some(def) => vars_at_cont(self.alloc, def, cont),
            None => Ok(Items::new(self.alloc)),
        }
    }

    /// The variables with which a unit of this kind begins.
    pub fn vars_of_kind(&self, kind: &UnitKind) -> Result<Vars, AllocError>
        ensures { IfOk result (λ vars. (k : Kept) → IsKnown self.now k → vars ≡ vars_of_kind k kind.now) }
    {
        match kind {
            UnitKind::Acid { .. } => Ok(Items::new(self.alloc)),
            UnitKind::Call { program, args, .. } => self.vars_of_call(program, args),
            UnitKind::First { program, args, .. } => self.vars_of_call(program, args),
            UnitKind::Later { base, .. } => self.vars_of_part(*base),
        }
    }

    fn block_next(&self, base: Id, part: u32) -> Option<&[Shared<Statement>]>
        ensures { (k : Kept) → IsKnown self.now k → option_copied result ≡ block_of_kind k (Later base part) }
    {
        let cont = self.cont(base)?;
        let def = self.program(&cont.program)?;
        Some(block_of_part(def, part))
    }

    /// The statements of a unit's program or part; a unit of a session has none.
    pub fn block_of_kind(&self, kind: &UnitKind) -> Option<&[Shared<Statement>]>
        ensures { (k : Kept) → IsKnown self.now k → option_copied result ≡ block_of_kind k kind.now }
    {
        match kind {
            UnitKind::Acid { .. } => None,
            UnitKind::Call { program, .. } => Some(block_of_call(self.program(program)?)),
            UnitKind::First { program, .. } => Some(block_of_part(self.program(program)?, 1)),
            UnitKind::Later { base, part } => self.block_next(*base, *part),
        }
    }

    /// A boot of this number begins.
    pub fn begin_boot(&mut self, boot: u64)
        ensures { (k : Kept) → IsKnown self.old k → IsKnown self.new (record k { boot = boot }) }
    {
        self.boot = boot;
    }

    /// The move that a unit of this kind will make as it commits with these variables, by the next decision.
    pub fn move_of_commit(&self, kind: &UnitKind, vars: &Vars) -> Result<Move, AllocError>
        ensures { IfOk result (λ made. (k : Kept) → IsKnown self.now k → IsAtPart k kind.now → CanMove k kind.now
            → MovesTo made k (conts_committed k (k.decisions + 1) kind.now vars.now)) }
    {
        let number = next_number(self.decisions)?;
        move_of_commit(
            self.alloc,
            &self.catalogue,
            self.conts.as_slice(),
            self.rising,
            number,
            kind,
            vars,
        )
    }

    /// The move that a unit of this kind will make as it fails, where its program goes on behind the failure.
    pub fn move_of_branch(&self, kind: &UnitKind) -> Result<Move, AllocError>
        ensures { IfOk result (λ made. (k : Kept) → IsKnown self.now k → IsAtPart k kind.now → CanMove k kind.now
            → MovesTo made k (conts_branched k kind.now)) }
    {
        move_of_branch(
            self.alloc,
            &self.catalogue,
            self.conts.as_slice(),
            self.rising,
            kind,
        )
    }

    /// A unit that is decided by the decision of this number has made this move.
    pub fn commit(&mut self, made: Move, number: u64) -> Result<(), AllocError>
        ensures { OnOk result ((k : Kept) (conts : List Cont) → IsKnown self.old k → MovesTo made k conts
            → (es : Tables) → IsKnown self.new (record k { decisions = number; tables = es; conts = conts })) }
    {
        let was = self.rising;
        self.rising = false;
        let rising = make_move(self.alloc, &mut self.conts, was, made)?;
        self.rising = rising;
        self.decisions = number;
        Ok(())
    }

    /// Defines a table that is not refused.
    pub fn define_table(&mut self, def: &TableDef) -> Result<Defined, AllocError>
        requires { table_refusal (tables_known self.old) def.now ≡ None }
        ensures told { IfOk result (λ defined. (defined.0 ≡ decisions_known self.old + 1) × (defined.1 ≡ table_text def.now)) }
        ensures kept { OnOk result ((k : Kept) → IsKnown self.old k → IsKnown self.new (record k {
          decisions = k.decisions + 1;
          definitions = k.definitions ++ OfTable def.now ∷ [];
        })) }
    {
        let text = table_text(self.alloc, def)?;
        let number = next_number(self.decisions)?;
        let def = def.copy(self.alloc)?;
        match self.schema.add(def) {
            Ok(_) => {
                self.decisions = number;
                Ok((number, text))
            }
            Err(_) => Err(AllocError),
        }
    }

    /// Defines a program that is not refused.
    pub fn define_program(&mut self, def: &ProgramDef) -> Result<Defined, AllocError>
        requires parts { length (parts_in def.now.body) < 2 ^ 32 }
        requires allowed { program_refusal (tables_known self.old) (programs_known self.old) def.now ≡ None }
        ensures told { IfOk result (λ defined. (defined.0 ≡ decisions_known self.old + 1) × (defined.1 ≡ program_text def.now)) }
        ensures kept { OnOk result ((k : Kept) → IsKnown self.old k → IsKnown self.new (record k {
          decisions = k.decisions + 1;
          definitions = k.definitions ++ OfProgram def.now ∷ [];
        })) }
    {
        let text = program_text(self.alloc, def)?;
        let number = next_number(self.decisions)?;
        let def = def.copy(self.alloc)?;
        match self.catalogue.define(&self.schema, def) {
            Ok(_) => {
                self.decisions = number;
                Ok((number, text))
            }
            Err(_) => Err(AllocError),
        }
    }
}
