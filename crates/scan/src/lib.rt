// The check of a table: its head, then its rows one after another.
#![tactic(auto)]

ghost use Rattle.std.specs.Prelude.{◌≡◌, ◌+◌, OnOk};
ghost use Rattle.basis.specs.Reason.{first};
ghost use Rattle.names.specs.Slots.{Slots};
ghost use Rattle.table.specs.Fault.{told, verdict_of};
ghost use Rattle.table.specs.Refusals.{head_reasons, row_fault, accepted, check_rows, check_table};
ghost use Rattle.scan.specs.Row.{RowAsked};

use names::Firsts;
use row::Row;
use table::{Fault, Refusal, Uses};
use word::Width;

// Which of 9 to 15 and 18 row r, which is x, is refused with.
fn row_wrong(t: &[u8], w: Width, r: usize, x: Row, firsts: &mut Firsts) -> Result<(), Fault>
    requires { RowAsked t.now w r x firsts.old }
    ensures fault { told result ≡ row_fault t.now r }
    ensures asked { OnOk result (Slots t.now firsts.new (r + 1)) }
{
    let u = Uses::of(x.kind);
    faults::own_fault(t, w, r, u, x)?;
    // 13 of a later field goes before 14 of an earlier one
    let mut mixed = false;
    for f in 0..3 {
        if faults::not_below(r, u, x, f) {
            return Err(Fault::Reference);
        }
        mixed |= faults::wrong_sort(t, r, u, x, f);
    }
    if mixed {
        return Err(Fault::Sort);
    }
    if faults::bounds_crossed(x) {
        return Err(Fault::Bounds);
    }
    let first = firsts.first_of(t, r);
    if faults::other_bounds(t, r, x, first) {
        return Err(Fault::OtherBounds);
    }
    Ok(())
}

// 9 to 15 and 18 for the rows of a table whose head is in order: the first faulty row stops the check.
pub fn check_rows(t: &[u8]) -> Result<(), Refusal>
    requires { first (head_reasons t.now) ≡ 0 }
    ensures { verdict_of result ≡ check_rows t.now accepted }
{
    let w = table::word_width(t);
    let n = table::rows_of(t);
    let mut firsts = Firsts::new();
    for r in 0..n {
        let x = Row::decode(t, r);
        // nearly every row: no fault is to be found
        if clean::by_kind(t, w, r, x) {
            continue;
        }
        if let Err(fault) = row_wrong(t, w, r, x, &mut firsts) {
            return Err(Refusal {
                fault,
                row: r as u64,
            });
        }
    }
    Ok(())
}

// The refusal of a table alone.
pub fn check(t: &[u8]) -> Result<(), Refusal>
    ensures { verdict_of result ≡ check_table t.now }
{
    table::head(t)?;
    check_rows(t)
}
