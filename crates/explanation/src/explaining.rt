// The answer to why a read moved.
ghost use Rattle.std.specs.Prelude.{◌≡◌};
ghost use Rattle.table.specs.Fault.{number_of};
ghost use Rattle.explanation.specs.Why.{listing, Explained};
ghost use Rattle.explanation.specs.Ready.{Explainable};

use super::judging;
use crate::Listing;
use range::Store;
use simplify::Answer;
use table::{Fault, Refusal};
use tracing::put_list;

// The answer of a refusal, with the length of the list where it is known.
fn not_listed(refusal: Refusal, length: u64) -> Listing
    ensures { result ≡ listing (number_of refusal.fault) refusal.row 0 0 length }
{
    Listing {
        answer: refusal.into(),
        length,
    }
}

// Makes the fresh run and writes the list of READ row r, or puts the old bytes of the result slice back where the list does not fit.
fn explain(table: &[u8], res: &mut [u8], r: usize, list: &mut [u8]) -> Listing
    requires { Explainable table.now res.old r }
    ensures { Explained table.now res.old r list.old result res.new list.new }
{
    let mut saved = [0u8; table::LARGEST];
    copying::copy(res, 0, table.len(), &mut saved, 0);
    let mut store = Store::new();
    let counts = simplify::fresh(table, res, &mut store, judge::LIMIT);
    let mut none = [0u8; 1];
    let length = put_list(&mut none, table, res, &store, r);
    if list.len() < length {
        copying::copy(&saved, 0, table.len(), res, 0);
        return not_listed(Fault::ListTooShort.into(), length as u64);
    }
    put_list(list, table, res, &store, r);
    Listing {
        answer: Answer {
            refusal: 0,
            row: 0,
            removed: counts.removed,
            touched: table::rows_of(table) as u64,
            compared: 0,
        },
        length: length as u64,
    }
}

// Makes a fresh run, and lists why row `row` became what it is.
pub fn why(table: &[u8], res: &mut [u8], row: u64, list: &mut [u8]) -> Listing
    ensures { Explained table.now res.old row list.old result res.new list.new }
{
    if let Err(fault) = judging::row(table, res, row) {
        return not_listed(fault.into(), 0);
    }
    let r = row as usize;
    if let Err(refusal) = judging::read(table, r) {
        return not_listed(refusal, 0);
    }
    explain(table, res, r, list)
}
