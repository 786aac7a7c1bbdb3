// Rows without a fault, told at once by their kind. Which fault another row has, if any, is told by `faults`.
#![tactic(auto)]

ghost use Rattle.std.specs.Prelude.{◌≡◌, ◌≤◌, length};
ghost use Rattle.row.specs.Kinds.{byte_of};
ghost use Rattle.row.specs.Names.{place};
ghost use Rattle.table.specs.Uses.{uses_of};
ghost use Rattle.clean.specs.Clean.{number_clean, field_clean, row_clean, Asked, NoFault};

use row::{Kind, Row};
use table::{Sort, Use, Uses};
use word::Width;

// Whether a number is a word where it is used, and else zero.
fn number(w: Width, used: bool, v: u64) -> bool
    ensures { result ≡ number_clean w used v }
{
    if used {
        return v <= w.top();
    }
    v == 0
}

// Whether a reference field of row r names a row before, of the sort that it is used for, and is zero where it refers to none.
#[tactic(auto, unfolding(crate::specs::Clean::field_clean, table::specs::Uses::is_reference, table::specs::Uses::refers_to, table::specs::Uses::is_sort))]
fn field(t: &[u8], r: usize, used: Use, at: usize) -> bool
    requires { place r ≤ length t.now }
    ensures { result ≡ field_clean t.now r used at }
{
    match used {
        Use::Refers(sort) => at < r && Sort::of(Row::kind_at(t, at)) == sort,
        Use::Other(_) => false,
        Use::Name | Use::Unused => at == 0,
    }
}

// Whether each field of row r, which is x, is in order for a row of this kind.
fn fields(t: &[u8], w: Width, r: usize, kind: Kind, x: Row) -> bool
    requires { Asked t.now w r x }
    ensures { result ≡ row_clean t.now w r (uses_of (byte_of kind)) x }
{
    let u = Uses::of(kind.byte());
    number(w, u.k, x.k)
        & number(w, u.h, x.h)
        & field(t, r, u.a, x.a)
        & field(t, r, u.b, x.b)
        & field(t, r, u.c, x.c)
}

// Whether row r, which is x, is seen to have no fault. Of a VAR it is never said: its bounds and its name are to be looked at. Each kind has an arm of its own, so
// that what it uses is known there when the code is compiled.
// `Kind::of` takes two to five instructions a row that a match of the byte did not: 4 in 100 of the check of a table's rows, 1 to 2 in 100 of a run.
pub fn by_kind(t: &[u8], w: Width, r: usize, x: Row) -> bool
    requires { Asked t.now w r x }
    ensures { NoFault t.now r result }
{
    if Row::mark_wrong(t, r) {
        return false;
    }
    match Kind::of(x.kind) {
        Some(Kind::Const) => fields(t, w, r, Kind::Const, x),
        Some(Kind::Var) => false,
        Some(Kind::Shift) => fields(t, w, r, Kind::Shift, x),
        Some(Kind::Sum) => fields(t, w, r, Kind::Sum, x),
        Some(Kind::Diff) => fields(t, w, r, Kind::Diff, x),
        Some(Kind::Neg) => fields(t, w, r, Kind::Neg, x),
        Some(Kind::Read) => fields(t, w, r, Kind::Read, x),
        Some(Kind::Fresh) => fields(t, w, r, Kind::Fresh, x),
        Some(Kind::Write) => fields(t, w, r, Kind::Write, x),
        None => false,
    }
}
