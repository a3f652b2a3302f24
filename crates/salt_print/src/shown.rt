//! Locks and BASE programs, as they are shown.

ghost use Rattle.std.specs.Prelude.{◌++◌, codes, flat_map, length};
ghost use Rattle.salt_model.specs.EventTexts.{family_text, item_text, lock_text, mode_text, place_text, range_text, table_name};
ghost use Rattle.salt_ast.specs.Prints.{Prints};
ghost use Rattle.std.specs.Fmt.{decimal};

use crate::names::print_owner;
use salt_ast::{Canonical, Printer};
use salt_io::Sink;
use salt_model::{BaseAt, Family, Item, Items, Lock, Mode};
use salt_ranges::KeyRange;
use salt_schema::Schema;

/// Prints the family of a lock.
fn print_family<K: Sink>(out: &mut Printer<'_, K>, family: Family)
    ensures { Prints K.held K.faults out.old out.new (family_text family) }
{
    match family {
        Family::Acid => out.bytes(b"acid"),
        Family::Alkaline => out.bytes(b"alkaline"),
        Family::Saline => out.bytes(b"saline"),
    }
}

/// Prints whether a lock is for reading or for writing.
fn print_mode<K: Sink>(out: &mut Printer<'_, K>, mode: Mode)
    ensures { Prints K.held K.faults out.old out.new (mode_text mode) }
{
    match mode {
        Mode::Read => out.bytes(b"read"),
        Mode::Write => out.bytes(b"write"),
    }
}

/// Prints the name of the table with the number, or nothing where there is none.
fn print_table_name<K: Sink>(out: &mut Printer<'_, K>, schema: &Schema, table: u16)
    ensures { Prints K.held K.faults out.old out.new (table_name schema.now table) }
{
    if let Some(def) = schema.table(table) {
        out.kept(&def.name);
    }
}

/// Prints the two ends of a range of keys, or that it is all of them.
fn print_range<K: Sink>(out: &mut Printer<'_, K>, range: &KeyRange)
    ensures { Prints K.held K.faults out.old out.new (range_text range.now.lo range.now.hi) }
{
    match (&range.lo, &range.hi) {
        (Some(low), Some(high)) => {
            low.print(out);
            out.bytes(b"..");
            high.print(out);
        }
        _ => out.bytes(b"all"),
    }
}

/// Prints a lock, without the LF that ends its line.
fn print_lock<K: Sink>(out: &mut Printer<'_, K>, schema: &Schema, lock: &Lock)
    ensures { Prints K.held K.faults out.old out.new (lock_text schema.now lock.now) }
{
    out.bytes(b"lock ");
    print_owner(out, lock.owner);
    out.bytes(b" ");
    print_family(out, lock.family);
    out.bytes(b" ");
    print_mode(out, lock.mode);
    out.bytes(b" ");
    print_table_name(out, schema, lock.table);
    out.bytes(b" ");
    print_range(out, &lock.range);
}

/// Prints where a BASE program stands.
fn print_place<K: Sink>(out: &mut Printer<'_, K>, place: BaseAt)
    ensures { Prints K.held K.faults out.old out.new (place_text place) }
{
    match place {
        BaseAt::First => out.bytes(b"first"),
        BaseAt::Next(part) => {
            out.bytes(b"next ");
            out.number(part);
        }
        BaseAt::Finished => out.bytes(b"finished"),
    }
}

/// Prints an item's line.
fn print_item<K: Sink>(out: &mut Printer<'_, K>, schema: &Schema, item: &Item)
    ensures { Prints K.held K.faults out.old out.new (item_text schema.now item.now) }
{
    match item {
        Item::Lock(lock) => {
            print_lock(out, schema, lock);
            out.bytes(b"\n");
        }
        Item::Base { base, program, at } => {
            out.bytes(b"base ");
            out.base(*base);
            out.bytes(b" ");
            out.kept(program);
            out.bytes(b" ");
            print_place(out, *at);
            out.bytes(b"\n");
        }
    }
}

/// Prints a line for each item.
fn print_items<K: Sink>(out: &mut Printer<'_, K>, schema: &Schema, items: &[Item])
    ensures { Prints K.held K.faults out.old out.new (flat_map (item_text schema.now) items.now) }
{
    for item in items {
        print_item(out, schema, item);
    }
}

/// Prints a line for each item, and how many there are.
pub fn print_shown<K: Sink>(out: &mut Printer<'_, K>, schema: &Schema, items: &Items)
    ensures { Prints K.held K.faults out.old out.new (flat_map (item_text schema.now) items.now ++ (codes "shown " ++ decimal (length items.now))) }
{
    print_items(out, schema, items.as_slice());
    out.bytes(b"shown ");
    out.number(items.len());
}
