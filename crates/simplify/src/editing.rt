// An edit of one row.
ghost use Rattle.std.specs.Prelude.{◌≡◌, take, drop};
ghost use Rattle.row.specs.Names.{LENGTH, place};
ghost use Rattle.term.specs.Bytes.{edited};
ghost use Rattle.simplify.specs.Edit.{Edited};
ghost use Rattle.simplify.specs.Patch.{CanTake, CanPut, CanPatch, Patched};

use crate::Answer;
use copying::copy;
use marks::Marks;
use range::Store;
use renew::renew;
use row::Row;
use table::Refusal;

// The bytes of row r, kept aside.
fn take_row(table: &[u8], r: usize, old: &mut [u8])
    requires { CanTake table.now r old.old }
    ensures { old.new ≡ take LENGTH (drop (place r) table.now) }
{
    copy(table, Row::place(r), Row::LENGTH, old, 0);
}

// Puts the bytes of a row in place of row r.
fn put_row(table: &mut [u8], r: usize, bytes: &[u8])
    requires { CanPut table.old r bytes.now }
    ensures { table.new ≡ edited table.old r bytes.now }
{
    copy(bytes, 0, Row::LENGTH, table, Row::place(r));
}

// Works out anew row r of the edited table and the rows that lead back to it, now or when the old row stood there.
fn patch(table: &[u8], old: &[u8], kept: &mut [u8], r: usize, limit: usize) -> Answer
    requires { CanPatch table.now old.now kept.old r limit }
    ensures { Patched table.now old.now kept.old r limit result kept.new }
{
    let n = table::rows_of(table);
    let mut marks = Marks::none();
    let touched = touching::mark_touched(table, old, n, r, &mut marks);
    let mut store = Store::new();
    let counts = renew(
        table,
        kept,
        &mut store,
        &marks,
        table::word_width(table),
        limit,
        n,
    );
    Answer {
        refusal: 0,
        row: 0,
        removed: counts.removed,
        touched: touched,
        compared: counts.compared,
    }
}

// Replaces row `row` of a table, and keeps its result right: a read that is worked out anew compares at most `limit` stores. The replacement is in place while it
// is judged; a refusal puts the old row back.
pub fn edit(table: &mut [u8], kept: &mut [u8], row: u64, replacement: &[u8], limit: u64) -> Answer
    ensures { Edited table.old kept.old row replacement.now limit result table.new kept.new }
{
    if let Err(fault) = judge::edit(table, kept, row, replacement, limit) {
        return Refusal::from(fault).into();
    }
    let r = row as usize;
    let mut old = [0u8; Row::LENGTH];
    take_row(table, r, &mut old);
    put_row(table, r, replacement);
    if let Err(refusal) = judge::with_kept(table, kept) {
        put_row(table, r, &old);
        return refusal.into();
    }
    patch(table, &old, kept, r, limit as usize)
}
