// Which refusal a question why gets: document 02, A1.
ghost use Rattle.std.specs.Prelude.{◌≡◌};
ghost use Rattle.basis.specs.Reason.{first};
ghost use Rattle.table.specs.Fault.{told, verdict_of};
ghost use Rattle.table.specs.Refusals.{check_rows, given, accepted};
ghost use Rattle.explanation.specs.Why.{row_reasons, read_reasons};
ghost use Rattle.explanation.specs.Ready.{There};

use row::{Kind, Row};
use table::{Fault, Refusal};

// 1 to 7.
pub fn row(t: &[u8], buffer: &[u8], x: u64) -> Result<(), Fault>
    ensures { told result ≡ first (row_reasons t.now buffer.now x) }
{
    judge::room(t, buffer)?;
    let n = table::rows_of(t) as u64;
    if n <= x {
        return Err(Fault::RowNumber);
    }
    Ok(())
}

// 9 to 15 and 18, then 17.
pub fn read(t: &[u8], x: usize) -> Result<(), Refusal>
    requires { There t.now x }
    ensures { verdict_of result ≡ check_rows t.now (given (first (read_reasons t.now x)) x accepted) }
{
    scan::check_rows(t)?;
    if Row::kind_at(t, x) != Kind::Read as u8 {
        return Err(Refusal {
            fault: Fault::NotARead,
            row: x as u64,
        });
    }
    Ok(())
}
