// What is known of the index of a store, against the index that is sought.
ghost use Rattle.std.specs.Prelude.{◌≡◌};
ghost use Rattle.range.specs.Store.{kept};
ghost use Rattle.term.specs.Bytes.{look};
ghost use Rattle.term.specs.Relation.{related};
ghost use Rattle.term.specs.Reason.{reason};
ghost use Rattle.walks.specs.Value.{agree};
ghost use Rattle.walks.specs.Ready.{Reached, Shared, Sought, Comparing};

use super::value::{Value, same_base, value_at};
use range::{Range, Store};
use row::{Kind, Row};
use term::{Reason, Relation, Spans};

// An index row with its value and its range, read once for a whole walk.
#[derive(Clone, Copy)]
pub struct Index {
    pub row: usize,
    pub value: Value,
    pub range: Range,
}

// The index of row i.
pub fn index_at(res: &[u8], store: &Store, i: usize) -> Index
    requires { Reached res.now i }
    ensures row { result.row ≡ i }
    ensures sought { Sought (look res.now) (kept store.now) result }
{
    Index {
        row: i,
        value: value_at(res, i),
        range: store.load(i),
    }
}

// Whether the bases of v, the value of row x, and u agree. Nearly every index of a walk is a SHIFT, as is the one sought: the row that each moves tells then.
fn shares_base(x: Row, v: Value, u: Value) -> bool
    requires { Shared x v u }
    ensures { result ≡ agree v u }
{
    if x.is(Kind::Shift) {
        if u.kind == Kind::Shift as u8 {
            return x.a == u.a;
        }
        return false;
    }
    same_base(v, u)
}

// Why of row b, the index of a store, and the index j. This and what calls it are in line, so that a step of a walk makes no call.
#[inline(always)]
pub fn reason(res: &[u8], store: &Store, b: usize, j: Index) -> Reason
    requires { Comparing res.now store.now b j }
    ensures { result ≡ reason (look res.now) (kept store.now) b j.row }
{
    let x = Row::decode(res, b);
    let v = value_at(res, b);
    let u = j.value;
    if shares_base(x, v, u) {
        if v.k == u.k {
            return Reason::SamePlace;
        }
        return Reason::Offsets(v.k, u.k);
    }
    let a = store.load(b);
    let c = j.range;
    if Range::disjoint(a, c) {
        return Reason::Separate(Spans { store: a, read: c });
    }
    Reason::Undecided
}

// What is known of row b and the index j.
#[inline(always)]
pub fn related(res: &[u8], store: &Store, b: usize, j: Index) -> Relation
    requires { Comparing res.now store.now b j }
    ensures { result ≡ related (look res.now) (kept store.now) b j.row }
{
    Relation::from(reason(res, store, b, j))
}
