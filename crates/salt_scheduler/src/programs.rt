//! What is refused of calls, and of turns of programs.

ghost use Rattle.salt_ast.specs.ProgramJudgement.{call_fault, call_kept_limit, faulty, go_fault, kept};
ghost use Rattle.salt_ast.specs.ProgramTexts.{base_text};
ghost use Rattle.salt_scheduler.specs.Refusals.{told};
ghost use Rattle.std.specs.Option.{option_or};
ghost use Rattle.std.specs.Prelude.{IfOk, [], option_map, ◌≡◌};

use itoa::Buffer;
use salt_ast::LimitName;
use salt_model::Refusal;
use salt_program::Catalogue;
use salt_values::limits::BASES_MOST;
use salt_values::{Id, Name, Row, TryCopy};
use sqlite_items::Items;
use std::alloc::{AllocError, Global};

/// The refusal of a call where so many BASE programs are in their first part, or accepted and not released.
#[tactic(auto, unfolding(salt_ast::specs::ProgramJudgement::call_fault))]
pub fn call_refusal(
    alloc: Global,
    catalogue: &Catalogue,
    unreleased: usize,
    program: &Name,
    args: &Row,
) -> Result<Option<Refusal>, AllocError>
    ensures { IfOk result (λ refusal. refusal ≡ told (option_or (option_map kept (call_kept_limit catalogue.now unreleased program.now))
        (option_map faulty (call_fault catalogue.now program.now args.now)))) }
{
    let Some(def) = catalogue.find(program) else {
        return Ok(Some(Refusal::Unknown(program.copy(alloc)?)));
    };
    if def.is_base() && BASES_MOST <= unreleased {
        return Ok(Some(Refusal::Limit(LimitName::Bases)));
    }
    if catalogue.fits(program, args) {
        Ok(None)
    } else {
        Ok(Some(Refusal::Mistyped))
    }
}

/// The name of a BASE program, as a refusal tells it.
fn base_name(alloc: Global, base: Id) -> Result<Name, AllocError>
    ensures { IfOk result (λ name. name ≡ base_text base) }
{
    let mut buffer = Buffer::new();
    let mut text = Vec::from_slice(alloc, b"b")?;
    text.extend_from_slice(buffer.format(base.boot).as_bytes())?;
    text.extend_from_slice(b".")?;
    text.extend_from_slice(buffer.format(base.seq).as_bytes())?;
    Ok(Items::from_vec(text))
}

/// The refusal of a turn of a program that does not go on.
pub fn go_refusal(alloc: Global, base: Id) -> Result<Option<Refusal>, AllocError>
    ensures { IfOk result (λ refusal. refusal ≡ told (option_map faulty (go_fault [] base))) }
{
    Ok(Some(Refusal::Unknown(base_name(alloc, base)?)))
}
