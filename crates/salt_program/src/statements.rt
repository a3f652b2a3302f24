//! What is refused of the statements of a program.

ghost use Rattle.std.specs.Prelude.{◌≡◌, map};
ghost use Rattle.std.specs.List.{list_all};
ghost use Rattle.std.specs.Option.{option_copied};
ghost use Rattle.salt_ast.specs.Judgement.{doubled_in_statement, is_typed_statement, unknown_in_statement};
ghost use Rattle.salt_ast.specs.Paths.{body_statements, part_block, statements_in};
ghost use Rattle.salt_ast.specs.Words.{first_in};
ghost use Rattle.salt_schema.specs.Names.{scope_of};

use salt_ast::{Body, PartDef, Shared, Statement};
use salt_schema::{
    Bindings, Schema, doubled_in_statement, is_typed_statement, unknown_in_statement,
};
use salt_values::Name;

fn unknown_in_block<'a>(
    schema: &Schema,
    bindings: &Bindings<'_>,
    block: &'a [Shared<Statement>],
) -> Option<&'a Name>
    ensures { option_copied result ≡ first_in (unknown_in_statement schema.now (scope_of bindings.now)) block.now }
{
    for statement in block {
        if let Some(name) = unknown_in_statement(schema, bindings, statement.get()) {
            return Some(name);
        }
    }
    None
}

fn unknown_in_parts<'a>(
    schema: &Schema,
    bindings: &Bindings<'_>,
    parts: &'a [PartDef],
) -> Option<&'a Name>
    ensures { option_copied result
        ≡ first_in (unknown_in_statement schema.now (scope_of bindings.now)) (statements_in (map part_block parts.now)) }
{
    for part in parts {
        if let Some(name) = unknown_in_block(schema, bindings, part.block.as_slice()) {
            return Some(name);
        }
    }
    None
}

/// The first name in the statements of a program that is not known.
pub fn unknown_in_body<'a>(
    schema: &Schema,
    bindings: &Bindings<'_>,
    body: &'a Body,
) -> Option<&'a Name>
    ensures { option_copied result
        ≡ first_in (unknown_in_statement schema.now (scope_of bindings.now)) (body_statements body.now) }
{
    match body {
        Body::Acid(block) => unknown_in_block(schema, bindings, block.as_slice()),
        Body::Base(parts) => unknown_in_parts(schema, bindings, parts.as_slice()),
    }
}

fn doubled_in_block(block: &[Shared<Statement>]) -> Option<&Name>
    ensures { option_copied result ≡ first_in doubled_in_statement block.now }
{
    for statement in block {
        if let Some(name) = doubled_in_statement(statement.get()) {
            return Some(name);
        }
    }
    None
}

fn doubled_in_parts(parts: &[PartDef]) -> Option<&Name>
    ensures { option_copied result ≡ first_in doubled_in_statement (statements_in (map part_block parts.now)) }
{
    for part in parts {
        if let Some(name) = doubled_in_block(part.block.as_slice()) {
            return Some(name);
        }
    }
    None
}

/// The first column that a statement of a program changes twice.
pub fn doubled_in_body(body: &Body) -> Option<&Name>
    ensures { option_copied result ≡ first_in doubled_in_statement (body_statements body.now) }
{
    match body {
        Body::Acid(block) => doubled_in_block(block.as_slice()),
        Body::Base(parts) => doubled_in_parts(parts.as_slice()),
    }
}

fn is_typed_block(schema: &Schema, bindings: &Bindings<'_>, block: &[Shared<Statement>]) -> bool
    ensures { result ≡ list_all (is_typed_statement schema.now (scope_of bindings.now)) block.now }
{
    block.iter().all(|statement| is_typed_statement(schema, bindings, statement.get()))
}

fn are_typed_parts(schema: &Schema, bindings: &Bindings<'_>, parts: &[PartDef]) -> bool
    ensures { result
        ≡ list_all (is_typed_statement schema.now (scope_of bindings.now)) (statements_in (map part_block parts.now)) }
{
    for part in parts {
        if !is_typed_block(schema, bindings, part.block.as_slice()) {
            return false;
        }
    }
    true
}

/// Whether the types of a program's statements are right, where each name is known.
pub fn is_typed_body(schema: &Schema, bindings: &Bindings<'_>, body: &Body) -> bool
    ensures { result ≡ list_all (is_typed_statement schema.now (scope_of bindings.now)) (body_statements body.now) }
{
    match body {
        Body::Acid(block) => is_typed_block(schema, bindings, block.as_slice()),
        Body::Base(parts) => are_typed_parts(schema, bindings, parts.as_slice()),
    }
}
