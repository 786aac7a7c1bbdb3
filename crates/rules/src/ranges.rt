// What the store keeps for a result row: its range, from those kept of the rows that it names.
ghost use Rattle.std.specs.Prelude.{◌≡◌, ◌^◌};
ghost use Rattle.range.specs.Range.{point, sum, negation};
ghost use Rattle.range.specs.Store.{kept};
ghost use Rattle.term.specs.Term.{term_of};
ghost use Rattle.rules.specs.Ready.{Moving, RangedOne, RangedTwo, Ranging};
ghost use Rattle.rules.specs.Written.{entry};

use range::{Range, Store};
use row::{Kind, Row};
use word::Width;

// a + [k, k].
fn moved(w: Width, a: Range, k: u64) -> Range
    requires { Moving w a k }
    ensures { result ≡ sum (2 ^ w) a (point k) }
{
    Range::sum(w, a, Range::of_word(k))
}

// (a + b) + [k, k].
fn sum_range(store: &Store, w: Width, r: usize, a: usize, b: usize, k: u64) -> Range
    requires { RangedTwo store.now w r a b k }
    ensures { result ≡ sum (2 ^ w) (sum (2 ^ w) (kept store.now a) (kept store.now b)) (point k) }
{
    let u = store.load(a);
    let v = store.load(b);
    moved(w, Range::sum(w, u, v), k)
}

// (a + negated b) + [k, k].
fn difference_range(store: &Store, w: Width, r: usize, a: usize, b: usize, k: u64) -> Range
    requires { RangedTwo store.now w r a b k }
    ensures { result ≡ sum (2 ^ w) (sum (2 ^ w) (kept store.now a) (negation (2 ^ w) (kept store.now b))) (point k) }
{
    let u = store.load(a);
    let v = Range::negation(w, store.load(b));
    moved(w, Range::sum(w, u, v), k)
}

// [k, k] + negated a.
fn negated_range(store: &Store, w: Width, r: usize, a: usize, k: u64) -> Range
    requires { RangedOne store.now w r a k }
    ensures { result ≡ sum (2 ^ w) (point k) (negation (2 ^ w) (kept store.now a)) }
{
    let v = Range::negation(w, store.load(a));
    Range::sum(w, Range::of_word(k), v)
}

// a + [k, k], where a is a row.
fn shifted_range(store: &Store, w: Width, r: usize, a: usize, k: u64) -> Range
    requires { RangedOne store.now w r a k }
    ensures { result ≡ sum (2 ^ w) (kept store.now a) (point k) }
{
    moved(w, store.load(a), k)
}

// What the store keeps for row r, which is x: the range of a word; of an array what a walk asks.
pub fn entry_of(store: &Store, w: Width, r: usize, x: Row) -> Range
    requires { Ranging store.now w r (term_of x) }
    ensures { result ≡ entry (2 ^ w) (kept store.now) (term_of x) }
{
    match Kind::of(x.kind) {
        Some(Kind::Const) => Range::of_word(x.k),
        Some(Kind::Var) => Range::of_bounds(x.k, x.h),
        Some(Kind::Shift) => shifted_range(store, w, r, x.a, x.k),
        Some(Kind::Sum) => sum_range(store, w, r, x.a, x.b, x.k),
        Some(Kind::Diff) => difference_range(store, w, r, x.a, x.b, x.k),
        Some(Kind::Neg) => negated_range(store, w, r, x.a, x.k),
        Some(Kind::Read) => Range::of_all(w),
        Some(Kind::Fresh) => Range::of_word(table::MOST as u64),
        Some(Kind::Write) => Range::of_bounds(x.a as u64, x.b as u64),
        None => Range::of_word(0),
    }
}
