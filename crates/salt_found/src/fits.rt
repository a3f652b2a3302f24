//! Whether a continuation is one that a program may have.

ghost use Rattle.salt_ast.specs.Paths.{retries};
ghost use Rattle.salt_ast.specs.ProgramJudgement.{program_named};
ghost use Rattle.salt_stands.specs.Fitting.{is_cont_of, stands_at_part};
ghost use Rattle.salt_found.specs.Conts.{fits_kept};
ghost use Rattle.std.specs.Option.{option_copied};
ghost use Rattle.std.specs.Prelude.{Some, is_some, nat_le, ◌&&◌, ◌≡◌};

use salt_ast::{PartDef, ProgramDef};
use salt_cont::{at_number, parts_of};
use salt_decisions::Kept;
use salt_program::{Catalogue, are_arguments};
use salt_values::Cont;

/// Whether there is a part that may be tried again so often.
fn may_be_tried(part: Option<&PartDef>, tries: u8) -> bool
    ensures { result ≡ (is_some (option_copied part.entry) && nat_le tries (retries (option_copied part.entry))) }
{
    match part {
        Some(part) => tries <= part.retry.unwrap_or(0),
        None => false,
    }
}

/// Whether it is a part behind the first that may be tried again so often.
fn stands_at_part(def: &ProgramDef, part: u32, tries: u8) -> bool
    ensures { result ≡ stands_at_part def.now part tries }
{
    1 < part && may_be_tried(at_number(parts_of(def), part as u64), tries)
}

fn is_cont_of(def: &ProgramDef, cont: &Cont) -> bool
    ensures { result ≡ is_cont_of (Some def.now) cont.now }
{
    are_arguments(def.params.as_slice(), cont.args.as_slice())
        && are_arguments(def.vars.as_slice(), cont.vars.as_slice())
        && stands_at_part(def, cont.next, cont.tries)
}

fn has_program(catalogue: &Catalogue, cont: &Cont) -> bool
    ensures { result ≡ is_cont_of (program_named catalogue.now cont.now.program) cont.now }
{
    match catalogue.find(&cont.program) {
        Some(def) => is_cont_of(def, cont),
        None => false,
    }
}

/// Whether a program that is defined may go on so, begun in no later boot and accepted by no later decision than is kept.
pub fn fits_kept(catalogue: &Catalogue, kept: &Kept, cont: &Cont) -> bool
    ensures { result ≡ fits_kept catalogue.now kept.now cont.now }
{
    has_program(catalogue, cont) && cont.base.boot <= kept.boot && cont.accepted <= kept.decisions
}
