// The faults of one row, 9 to 15 and 18.
#![tactic(auto)]

ghost use Rattle.std.specs.Prelude.{◌≡◌, ◌<◌, not, ◌&&◌, take, leb, eqb};
ghost use Rattle.basis.specs.Reason.{first};
ghost use Rattle.row.specs.Bytes.{row_at};
ghost use Rattle.table.specs.Fault.{told};
ghost use Rattle.table.specs.Uses.{is_used};
ghost use Rattle.table.specs.Refusals.{
  reference,
  use_at,
  stray_field,
  large_number,
  not_below,
  wrong_sort,
  bounds_crossed,
  other_bounds,
  row_reasons,
};
ghost use Rattle.faults.specs.Asked.{OwnAsked, Named, FirstAsked};

use row::{Kind, Row};
use table::{Fault, Sort, Use, Uses};
use word::Width;

// Reference field f of a row: a is 0, b is 1, c is 2.
#[tactic(auto, unfolding(table::specs::Refusals::reference))]
fn reference(x: Row, f: usize) -> usize
    requires { f < 3 }
    ensures { result ≡ reference x f }
{
    [x.a, x.b, x.c][f]
}

// As what reference field f is used.
#[tactic(auto, unfolding(table::specs::Refusals::use_at))]
fn use_at(u: Uses, f: usize) -> Use
    requires { f < 3 }
    ensures { result ≡ use_at u f }
{
    [u.a, u.b, u.c][f]
}

// 10
fn kind_wrong(kind: u8) -> bool
    ensures { result ≡ not (leb 1 kind && leb kind 9) }
{
    Kind::of(kind).is_none()
}

// Whether a reference field that is not used is other than zero.
#[tactic(auto, unfolding(table::specs::Uses::is_used))]
fn stray(used: Use, at: usize) -> bool
    ensures { result ≡ (not (is_used used) && not (eqb at 0)) }
{
    matches!(used, Use::Unused) && at != 0
}

// 11
#[tactic(auto, unfolding(table::specs::Refusals::stray_field, table::specs::Refusals::any_field, table::specs::Refusals::use_at, table::specs::Refusals::reference))]
fn stray_field(u: Uses, x: Row) -> bool
    ensures { result ≡ stray_field u x }
{
    stray(u.a, x.a)
        || stray(u.b, x.b)
        || stray(u.c, x.c)
        || (!u.k && x.k != 0)
        || (!u.h && x.h != 0)
}

// 12
#[tactic(auto, unfolding(table::specs::Refusals::large_number))]
fn large_number(w: Width, u: Uses, x: Row) -> bool
    ensures { result ≡ large_number w u x }
{
    (u.k && w.too_large(x.k)) || (u.h && w.too_large(x.h))
}

// 13, for field f of row r
#[tactic(auto, unfolding(table::specs::Refusals::not_below, table::specs::Uses::is_reference))]
pub fn not_below(r: usize, u: Uses, x: Row, f: usize) -> bool
    requires { f < 3 }
    ensures { result ≡ not_below r u x f }
{
    matches!(use_at(u, f), Use::Refers(_) | Use::Other(_)) && r <= reference(x, f)
}

// 14, for field f of row r, which passed 13
#[tactic(auto, using(crate::proofs::Fields::named_room), unfolding(table::specs::Refusals::wrong_sort, table::specs::Uses::is_reference, table::specs::Uses::refers_to, table::specs::Uses::is_sort))]
pub fn wrong_sort(t: &[u8], r: usize, u: Uses, x: Row, f: usize) -> bool
    requires { Named t.now r u x f }
    ensures { result ≡ wrong_sort t.now u x f }
{
    match use_at(u, f) {
        Use::Refers(sort) => Sort::of(Row::kind_at(t, reference(x, f))) != sort,
        Use::Other(_) => true,
        Use::Name | Use::Unused => false,
    }
}

// 15
#[tactic(auto, unfolding(table::specs::Refusals::bounds_crossed))]
pub fn bounds_crossed(x: Row) -> bool
    ensures { result ≡ bounds_crossed x }
{
    x.is(Kind::Var) && x.h < x.k
}

// 18, for row r, which is x, with the first row of its name
#[tactic(auto, using(crate::proofs::Fields::first_room), unfolding(table::specs::Refusals::other_bounds))]
pub fn other_bounds(t: &[u8], r: usize, x: Row, first: usize) -> bool
    requires { FirstAsked t.now r x first }
    ensures { result ≡ other_bounds x (row_at t.now first) }
{
    if first == r {
        return false;
    }
    let y = Row::decode(t, first);
    x.k != y.k || x.h != y.h
}

// Which of 9 to 12 row r, which is x, is refused with.
pub fn own_fault(t: &[u8], w: Width, r: usize, u: Uses, x: Row) -> Result<(), Fault>
    requires { OwnAsked t.now w r u x }
    ensures { told result ≡ first (take 4 (row_reasons t.now r x)) }
{
    let mark = Row::mark_wrong(t, r);
    let kind = kind_wrong(x.kind);
    let stray = stray_field(u, x);
    let large = large_number(w, u, x);
    if mark {
        return Err(Fault::RowMark);
    }
    if kind {
        return Err(Fault::Kind);
    }
    if stray {
        return Err(Fault::UnusedField);
    }
    if large {
        return Err(Fault::Value);
    }
    Ok(())
}
