// One turn of a run: a row of the result, and what the store keeps for it.
ghost use Rattle.std.specs.Prelude.{◌≡◌, ◌^◌, true};
ghost use Rattle.range.specs.Store.{kept};
ghost use Rattle.term.specs.Term.{term_of};
ghost use Rattle.term.specs.Bytes.{look};
ghost use Rattle.rules.specs.Ready.{Asked, Traced};
ghost use Rattle.rules.specs.Made.{Makes, MakesAt};
ghost use Rattle.rules.specs.Written.{CanWrite, Settled, Written};

use super::arrays::{read_rule, write_rule};
use super::ranges::entry_of;
use super::words::{diff_rule, neg_rule, shift_rule, sum_rule};
use crate::Made;
use range::Store;
use row::{Kind, Row};
use word::Width;

// The result row of x, which stands as row r in the table.
fn rewrite(res: &[u8], store: &Store, w: Width, limit: usize, r: usize, x: Row) -> Made
    requires asked { Asked res.now r (term_of x) }
    requires traced { Traced res.now store.now r (term_of x) }
    ensures { Makes (2 ^ w) limit (look res.now) (kept store.now) (term_of x) result }
{
    match Kind::of(x.kind) {
        Some(Kind::Const) => Made::at_once(Row::make(Kind::Const as u8, 0, 0, 0, x.k, 0)),
        Some(Kind::Var) => Made::at_once(Row::make(Kind::Var as u8, x.a, 0, 0, x.k, x.h)),
        Some(Kind::Shift) => Made::at_once(shift_rule(res, w, r, x.a, x.k)),
        Some(Kind::Sum) => Made::at_once(sum_rule(res, w, r, x.a, x.b, x.k)),
        Some(Kind::Diff) => Made::at_once(diff_rule(res, w, r, x.a, x.b, x.k)),
        Some(Kind::Neg) => Made::at_once(neg_rule(res, w, r, x.a, x.k)),
        Some(Kind::Read) => read_rule(res, store, w, limit, r, x.a, x.b),
        Some(Kind::Fresh) => Made::at_once(Row::make(Kind::Fresh as u8, 0, 0, 0, 0, 0)),
        Some(Kind::Write) => Made::at_once(write_rule(res, store, r, x.a, x.b, x.c)),
        None => Made::at_once(Row::make(Kind::Const as u8, 0, 0, 0, 0, 0)),
    }
}

// The result row of row r of a table: of a later VAR of a name SHIFT of the first by 0, of every other row what the rule of its kind makes.
fn made(
    table: &[u8],
    res: &[u8],
    store: &Store,
    w: Width,
    limit: usize,
    r: usize,
    first: usize,
) -> Made
    requires { CanWrite table.now res.now store.now w r first true }
    ensures { MakesAt (2 ^ w) limit (look table.now) (look res.now) (kept store.now) r result }
{
    if first < r {
        return Made::at_once(Row::make(Kind::Shift as u8, first, 0, 0, 0, 0));
    }
    rewrite(res, store, w, limit, r, Row::decode(table, r))
}

// Settles result row r: the row made of row r of the table, with its source, where that is touched, else the row that stands there. Returns it, and how many
// stores were compared to make it.
fn settle(
    table: &[u8],
    res: &mut [u8],
    store: &Store,
    w: Width,
    limit: usize,
    r: usize,
    first: usize,
    touched: bool,
) -> Made
    requires { CanWrite table.now res.old store.now w r first touched }
    ensures { Settled table.now res.old res.new store.now w limit r touched result }
{
    if touched {
        let x = made(table, res, store, w, limit, r, first);
        putting::put(res, r, x.row, Row::source_at(table, r));
        return x;
    }
    Made::at_once(Row::decode(res, r))
}

// Settles result row r, and keeps its range, or of an array what a walk asks. `first` is the first row of the name of row r. Answers how many stores were
// compared.
pub fn write_row(
    table: &[u8],
    res: &mut [u8],
    store: &mut Store,
    w: Width,
    limit: usize,
    r: usize,
    first: usize,
    touched: bool,
) -> usize
    requires { CanWrite table.now res.old store.old w r first touched }
    ensures { Written table.now res.old res.new store.old store.new w limit r touched result }
{
    let x = settle(table, res, store, w, limit, r, first, touched);
    let a = entry_of(store, w, r, x.row);
    store.save(r, a);
    x.compared
}
