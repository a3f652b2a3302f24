//! Texts are opened as definitions.

ghost use Rattle.salt_found.specs.Definitions.{AreOf, Defines, IsJudged, OpensDefinitions, define_text, defined_by_texts, is_of_table, reading};
ghost use Rattle.salt_model.specs.Kept.{Definition};
ghost use Rattle.salt_program.specs.Refusals as program;
ghost use Rattle.salt_program.specs.declared.error.DefineErr.{DefineErr};
ghost use Rattle.salt_schema.specs.Refusals as table;
ghost use Rattle.salt_schema.specs.declared.error.SchemaErr.{SchemaErr};
ghost use Rattle.std.specs.Prelude.{List, Option, Some, [], false, is_ok, is_some, true, ◌≡◌};

use crate::error::RecoverErr;
use crate::reads::{program_in, table_in};
use law_definitions::definitions_are_read;
use salt_decisions::Texts;
use salt_program::{Catalogue, DefineErr};
use salt_schema::{Schema, SchemaErr};
use std::alloc::Global;

/// Whether a text is a table's, if it is that of a definition: the text of a table begins with the first letter of `create`, and
/// that of a program does not.
fn is_of_table(text: &[u8]) -> bool
    ensures { result ≡ is_of_table text.now }
{
    match text {
        [first, ..] => *first == b'c',
        [] => false,
    }
}

/// What a schema's answer says of a table.
fn judged_by_schema(answer: Result<u16, SchemaErr>) -> Result<(), RecoverErr>
    ensures judged { (refusal : Option SchemaErr) → table.IsAnswer refusal answer → IsJudged result (is_some refusal) }
    ensures ok { is_ok result ≡ is_ok answer }
{
    match answer {
        Ok(_number) => Ok(()),
        Err(SchemaErr::Memory) => Err(RecoverErr::Memory),
        Err(_) => Err(RecoverErr::NotSalt),
    }
}

/// What a catalogue's answer says of a program.
fn judged_by_catalogue(answer: Result<(), DefineErr>) -> Result<(), RecoverErr>
    ensures judged { (refusal : Option DefineErr) → program.IsAnswer refusal answer → IsJudged result (is_some refusal) }
    ensures ok { is_ok result ≡ is_ok answer }
{
    match answer {
        Ok(()) => Ok(()),
        Err(DefineErr::Memory) => Err(RecoverErr::Memory),
        Err(_) => Err(RecoverErr::NotSalt),
    }
}

/// Adds the table whose text this is. `NotSalt` where it is the text of none, or the table is refused.
fn add_table(
    alloc: Global,
    schema: &mut Schema,
    catalogue: &Catalogue,
    text: &[u8],
) -> Result<(), RecoverErr>
    requires { is_of_table text.now ≡ true }
    ensures { (ds : List Definition) → AreOf schema.old catalogue.now ds → Defines result schema.new catalogue.now (define_text reading text.now (Some ds)) }
{
    definitions_are_read();
    let Some(def) = table_in(alloc, text)? else {
        return Err(RecoverErr::NotSalt);
    };
    judged_by_schema(schema.add(def))
}

/// Adds the program whose text this is. `NotSalt` where it is the text of none, or the program is refused.
fn add_program(
    alloc: Global,
    schema: &Schema,
    catalogue: &mut Catalogue,
    text: &[u8],
) -> Result<(), RecoverErr>
    requires { is_of_table text.now ≡ false }
    ensures { (ds : List Definition) → AreOf schema.now catalogue.old ds → Defines result schema.now catalogue.new (define_text reading text.now (Some ds)) }
{
    definitions_are_read();
    let Some(def) = program_in(alloc, text)? else {
        return Err(RecoverErr::NotSalt);
    };
    judged_by_catalogue(catalogue.define(schema, def))
}

/// Adds the definition whose text this is.
fn add(
    alloc: Global,
    schema: &mut Schema,
    catalogue: &mut Catalogue,
    text: &[u8],
) -> Result<(), RecoverErr>
    ensures { (ds : List Definition) → AreOf schema.old catalogue.old ds → Defines result schema.new catalogue.new (define_text reading text.now (Some ds)) }
{
    if is_of_table(text) {
        add_table(alloc, schema, catalogue, text)
    } else {
        add_program(alloc, schema, catalogue, text)
    }
}

/// The tables and programs whose canonical texts these are, one after another. `NotSalt` exactly where a text is the canonical
/// one of no definition, or its definition is refused under those before it, by a limit of what is kept, or by its names, types
/// or branches.
pub fn open_definitions(alloc: Global, texts: &Texts) -> Result<(Schema, Catalogue), RecoverErr>
    ensures { OpensDefinitions result (defined_by_texts reading (Some []) texts.now) }
{
    let mut schema = Schema::new(alloc);
    let mut catalogue = Catalogue::new(alloc);
    for text in texts.as_slice() {
        add(alloc, &mut schema, &mut catalogue, text.as_slice())?;
    }
    Ok((schema, catalogue))
}
