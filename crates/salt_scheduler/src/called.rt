//! The names by which programs under way were called.

ghost use Rattle.std.specs.Prelude.{◌≡◌, OnOk};
ghost use Rattle.law_states.specs.Watches.{Watch};
ghost use Rattle.salt_conflicts.specs.Watched.{IsWatch};
ghost use Rattle.salt_scheduler.specs.Calling.{Forgets, ForgetsIdle, IsCalled, is_under_way, listed};

use salt_books::{Books, CalledNames};
use salt_conflicts::Watching;
use salt_model::UnitKind;
use salt_values::{Id, has_id};
use std::alloc::AllocError;

/// Notes the name by which a program is called that a unit of this kind begins.
pub fn note_call(called: &mut CalledNames, kind: &UnitKind) -> Result<(), AllocError>
    ensures { OnOk result (IsCalled kind.now called.old called.new) }
{
    match kind {
        UnitKind::First { base, program, .. } => called.call(*base, program),
        _ => Ok(()),
    }
}

/// Whether a program is accepted and not released, or in its first part.
fn is_under_way(base: Id, watch: &Watching, beginning: &[Id]) -> bool
    ensures { (w : Watch) → IsWatch watch.now w → result ≡ is_under_way w.programs beginning.now base }
{
    watch.is_unreleased(base) || has_id(beginning, base)
}

/// The names of these programs are forgotten, but of those that are not released or in their first part.
fn forget_idle(called: &mut CalledNames, gone: &[Id], watch: &Watching, beginning: &[Id])
    ensures { (w : Watch) → IsWatch watch.now w → Forgets w.programs beginning.now gone.now called.old called.new }
{
    for base in gone {
        if !is_under_way(*base, watch, beginning) {
            called.forget(*base);
        }
    }
}

/// The names of these programs are forgotten, but of those that are under way.
pub fn forget(
    called: &mut CalledNames,
    books: &Books,
    watch: &Watching,
    gone: &[Id],
) -> Result<(), AllocError>
    ensures { OnOk result (ForgetsIdle books.now watch.now gone.now called.old called.new) }
{
    let beginning = books.first_parts()?;
    forget_idle(called, gone, watch, beginning.as_slice());
    Ok(())
}

/// The name is forgotten of a program whose first part has ended, if that did not make it be under way.
pub fn forget_first(
    called: &mut CalledNames,
    books: &Books,
    watch: &Watching,
    first: Option<Id>,
) -> Result<(), AllocError>
    ensures { OnOk result (ForgetsIdle books.now watch.now (listed first) called.old called.new) }
{
    match first {
        Some(base) => forget(called, books, watch, &[base]),
        None => Ok(()),
    }
}
