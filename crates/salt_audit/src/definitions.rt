//! Definitions are taken over.

ghost use Rattle.law_definitions.specs.Texts.{definition_in};
ghost use Rattle.salt_audit.specs.Telling.{IsBehind};
ghost use Rattle.salt_cont.specs.Catalogues.{AllLeadOn};
ghost use Rattle.salt_events.specs.Definitions as of;
ghost use Rattle.salt_model.specs.declared.events.Event.TheVariants.{Defined};
ghost use Rattle.salt_program.specs.Refusals.{parts_in};
ghost use Rattle.salt_scheduler.specs.Refusals.{HasFewParts};
ghost use Rattle.std.specs.Prelude.{List, OnOk, Some, [], length, option_map, ℕ, ◌++◌, ◌<◌, ◌^◌, ◌∷◌, ◌≡◌};

use crate::state::State;
use law_definitions::definitions_are_read;
use salt_ast::{Line, ProgramDef, TableDef};
use salt_cont::{accepted_leads_on, limited_are_few};
use salt_events::read_definition;
use salt_program::Catalogue;
use salt_schema::Schema;
use salt_values::TryCopy;
use std::alloc::{AllocError, Global};

fn define_table(alloc: Global, schema: &mut Schema, def: &TableDef) -> Result<(), AllocError>
    ensures { OnOk result (schema.new ≡ schema.old ++ def.now ∷ []) }
{
    let own = def.copy(alloc)?;
    let Ok(_number) = schema.add(own) else {
        return Err(AllocError);
    };
    Ok(())
}

fn define_program(
    alloc: Global,
    schema: &Schema,
    catalogue: &mut Catalogue,
    def: &ProgramDef,
) -> Result<(), AllocError>
    requires { length (parts_in def.now.body) < 2 ^ 32 }
    ensures defined { OnOk result (catalogue.new ≡ catalogue.old ++ def.now ∷ []) }
    ensures leads { OnOk result (AllLeadOn catalogue.old → AllLeadOn catalogue.new) }
{
    accepted_leads_on();
    let own = def.copy(alloc)?;
    let Ok(_defined) = catalogue.define(schema, own) else {
        return Err(AllocError);
    };
    Ok(())
}

/// What the line asks for is defined.
fn define_line(alloc: Global, state: &mut State, line: &Line) -> Result<(), AllocError>
    requires { HasFewParts line.now }
    ensures behind { OnOk result ((n : ℕ) (text : List ℕ) → option_map of.line_defining (definition_in text) ≡ Some line.now
        → IsBehind state.old state.new (Defined n text)) }
    ensures leads { OnOk result (AllLeadOn state.old.catalogue → AllLeadOn state.new.catalogue) }
{
    match line {
        Line::Table(def) => define_table(alloc, &mut state.schema, def),
        Line::Program(def) => define_program(alloc, &state.schema, &mut state.catalogue, def),
        _ => Ok(()),
    }
}

/// What the text spells is defined, if it spells a definition. One that is refused ends as want of memory does.
pub fn define(alloc: Global, state: &mut State, text: &[u8]) -> Result<(), AllocError>
    ensures behind { OnOk result ((n : ℕ) → IsBehind state.old state.new (Defined n text.now)) }
    ensures leads { OnOk result (AllLeadOn state.old.catalogue → AllLeadOn state.new.catalogue) }
{
    definitions_are_read();
    limited_are_few();
    match read_definition(alloc, text)? {
        Some(line) => define_line(alloc, state, &line),
        None => Ok(()),
    }
}
