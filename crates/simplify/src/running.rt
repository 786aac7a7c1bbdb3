// A fresh run.
ghost use Rattle.std.specs.Prelude.{◌≡◌};
ghost use Rattle.simplify.specs.Answer.{answer};
ghost use Rattle.simplify.specs.Run.{Ran};
ghost use Rattle.simplify.specs.Fresh.{CanFresh, Freshly};

use crate::Answer;
use copying::copy;
use marks::Marks;
use range::Store;
use renew::{Counts, renew};
use row::Row;

// The answer of a refusal.
pub fn refused(number: u64, row: u64) -> Answer
    ensures { result ≡ answer number row 0 0 0 }
{
    Answer {
        refusal: number,
        row: row,
        removed: 0,
        touched: 0,
        compared: 0,
    }
}

// Writes the fresh result of an accepted table, keeps the ranges of its word rows, and answers how many reads it removed and how many stores they compared.
pub fn fresh(table: &[u8], res: &mut [u8], store: &mut Store, limit: usize) -> Counts
    requires { CanFresh table.now res.old store.old limit }
    ensures { Freshly table.now res.old limit res.new store.new result }
{
    copy(table, 0, Row::HEADER, res, 0);
    renew(
        table,
        res,
        store,
        &Marks::all(),
        table::word_width(table),
        limit,
        table::rows_of(table),
    )
}

// Checks the table and writes its simplified table into the result slice. A read compares at most `limit` stores.
pub fn run(table: &[u8], res: &mut [u8], limit: u64) -> Answer
    ensures { Ran table.now res.old limit result res.new }
{
    if let Err(refusal) = judge::run(table, res, limit) {
        return refusal.into();
    }
    let mut store = Store::new();
    let counts = fresh(table, res, &mut store, limit as usize);
    Answer {
        refusal: 0,
        row: 0,
        removed: counts.removed,
        touched: table::rows_of(table) as u64,
        compared: counts.compared,
    }
}
