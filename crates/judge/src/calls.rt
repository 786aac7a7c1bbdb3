// What a run, an edit and a question about two rows are refused for.
ghost use Rattle.std.specs.Prelude.{◌≡◌};
ghost use Rattle.basis.specs.Reason.{first};
ghost use Rattle.judge.specs.Run.{room_reasons, limit_reasons, run_reasons, run_verdict};
ghost use Rattle.judge.specs.Kept.{kept_part, kept_verdict};
ghost use Rattle.judge.specs.Edit.{edit_reasons};
ghost use Rattle.judge.specs.Ask.{pair_reasons, array_verdict};
ghost use Rattle.judge.specs.Judge.{Placed, KeptThere, PairThere};
ghost use Rattle.term.specs.Term.{is_array};
ghost use Rattle.term.specs.Bytes.{look};
ghost use Rattle.table.specs.Fault.{told, verdict_of};
ghost use Rattle.table.specs.Refusals.{accepted, check_rows};

use crate::kept;
use row::Row;
use table::{Fault, Refusal};

// 1 to 6.
pub fn room(t: &[u8], buffer: &[u8]) -> Result<(), Fault>
    ensures { told result ≡ first (room_reasons t.now buffer.now) }
{
    table::head(t)?;
    if buffer.len() < t.len() {
        return Err(Fault::ResultTooShort);
    }
    Ok(())
}

// the stores that a READ compares at most, where a caller asks for no lower number
pub const LIMIT: usize = 1024;

// 19.
fn limited(limit: u64) -> Result<(), Fault>
    ensures { told result ≡ first (limit_reasons limit) }
{
    if limit > LIMIT as u64 {
        return Err(Fault::LimitTooHigh);
    }
    Ok(())
}

// 1 to 6 and 19 of a fresh run.
fn before_rows(t: &[u8], buffer: &[u8], limit: u64) -> Result<(), Fault>
    ensures { told result ≡ first (run_reasons t.now buffer.now limit) }
{
    room(t, buffer)?;
    limited(limit)
}

// A fresh run: 1 to 6 and 19, then 9 to 15 and 18.
pub fn run(t: &[u8], buffer: &[u8], limit: u64) -> Result<(), Refusal>
    ensures { verdict_of result ≡ run_verdict t.now buffer.now limit }
{
    before_rows(t, buffer, limit)?;
    scan::check_rows(t)
}

// 1 to 8 and 19 of an edit.
pub fn edit(t: &[u8], kept: &[u8], r: u64, replacement: &[u8], limit: u64) -> Result<(), Fault>
    ensures { told result ≡ first (edit_reasons t.now kept.now r replacement.now limit) }
{
    room(t, kept)?;
    let n = table::rows_of(t) as u64;
    if n <= r {
        return Err(Fault::RowNumber);
    }
    if replacement.len() != Row::LENGTH {
        return Err(Fault::ReplacementLength);
    }
    limited(limit)
}

// 1 to 7 of a question.
pub fn pair(t: &[u8], kept: &[u8], x: u64, y: u64) -> Result<(), Fault>
    ensures { told result ≡ first (pair_reasons t.now kept.now x y) }
{
    room(t, kept)?;
    let n = table::rows_of(t) as u64;
    if n <= x {
        return Err(Fault::RowNumber);
    }
    if n <= y {
        return Err(Fault::RowNumber);
    }
    Ok(())
}

// 9 to 15 and 18 of a table as it stands, then 16 of its kept result.
pub fn with_kept(t: &[u8], kept: &[u8]) -> Result<(), Refusal>
    requires { KeptThere t.now kept.now }
    ensures { verdict_of result ≡ check_rows t.now (kept_verdict t.now (kept_part t.now kept.now) accepted) }
{
    scan::check_rows(t)?;
    if kept::wrong(t, kept) {
        return Err(Fault::KeptResult.into());
    }
    Ok(())
}

// Whether row x, which is there, is an array.
pub fn is_array(t: &[u8], x: usize) -> bool
    requires { Placed t.now x }
    ensures { result ≡ is_array (look t.now x) }
{
    table::is_array(Row::kind_at(t, x))
}

// 9 to 15 and 18 of a question, then 16, then 14 for a number that names an array row.
pub fn words(t: &[u8], kept: &[u8], x: usize, y: usize) -> Result<(), Refusal>
    requires { PairThere t.now kept.now x y }
    ensures { verdict_of result ≡ check_rows t.now (kept_verdict t.now (kept_part t.now kept.now) (array_verdict t.now x y)) }
{
    with_kept(t, kept)?;
    if is_array(t, x) {
        return Err(Refusal {
            fault: Fault::Sort,
            row: x as u64,
        });
    }
    if is_array(t, y) {
        return Err(Refusal {
            fault: Fault::Sort,
            row: y as u64,
        });
    }
    Ok(())
}
