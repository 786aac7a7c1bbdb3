// Base and offset of a result row, as one struct.
ghost use Rattle.std.specs.Prelude.{◌≡◌, ◌+◌, ◌≤◌, ◌<◌, length};
ghost use Rattle.row.specs.Names.{place, LENGTH, SHIFT, NEG};
ghost use Rattle.term.specs.Term.{term_of};
ghost use Rattle.term.specs.Bytes.{look};
ghost use Rattle.walks.specs.Value.{value, value_of, value_at, second_of, agree, opened_from, plain_from};

use row::{Kind, Row};

// A base is told by the kind of the row that it is written as, CONST, SHIFT, SUM, DIFF or NEG, and by the rows that it names.
// The kind is a byte and no `Kind`, as in `Row`: two values are compared by their numbers, whatever these are.
#[derive(Clone, Copy)]
pub struct Value {
    pub kind: u8,
    pub a: usize,
    pub b: usize,
    pub k: u64,
}

impl Value {
    pub fn make(kind: u8, a: usize, b: usize, k: u64) -> Value
        ensures { result ≡ value kind a b k }
    {
        Value { kind, a, b, k }
    }
}

// The value of result row r, which is x. Nearly every index of a walk is a SHIFT, so that goes first. Two comparisons tell the other kinds that have a base of
// their own shape, SUM to NEG: a match on `Kind::of` made walks three times as slow.
fn value_of(x: Row, r: usize) -> Value
    ensures { result ≡ value_of r (term_of x) }
{
    if x.is(Kind::Shift) {
        return Value::make(Kind::Shift as u8, x.a, 0, x.k);
    }
    if x.kind < Kind::Shift as u8 {
        return value_below(x, r);
    }
    if x.kind > Kind::Neg as u8 {
        return value_above(x, r);
    }
    Value::make(x.kind, x.a, second_row(x), x.k)
}

// The value of result row r, which is a CONST or a VAR, or of no kind.
fn value_below(x: Row, r: usize) -> Value
    requires { x.kind < SHIFT }
    ensures { result ≡ value_of r (term_of x) }
{
    if x.is(Kind::Var) {
        return Value::make(Kind::Shift as u8, r, 0, 0);
    }
    if x.is(Kind::Const) {
        return Value::make(Kind::Const as u8, 0, 0, x.k);
    }
    Value::make(Kind::Const as u8, 0, 0, 0)
}

// The value of result row r, which is a READ or an array, or of no kind.
fn value_above(x: Row, r: usize) -> Value
    requires { NEG < x.kind }
    ensures { result ≡ value_of r (term_of x) }
{
    if x.kind > Kind::Write as u8 {
        return Value::make(Kind::Const as u8, 0, 0, 0);
    }
    Value::make(Kind::Shift as u8, r, 0, 0)
}

// The second row that a base names: SUM and DIFF have one.
fn second_row(x: Row) -> usize
    ensures { result ≡ second_of x }
{
    if x.is(Kind::Sum) {
        return x.b;
    }
    if x.is(Kind::Diff) {
        return x.b;
    }
    0
}

// The value of result row r.
pub fn value_at(res: &[u8], r: usize) -> Value
    requires { place r + LENGTH ≤ length res.now }
    ensures { result ≡ value_at (look res.now) r }
{
    value_of(Row::decode(res, r), r)
}

// Whether the bases agree.
pub fn same_base(u: Value, v: Value) -> bool
    ensures { result ≡ agree u v }
{
    if u.kind != v.kind {
        return false;
    }
    if u.a != v.a {
        return false;
    }
    u.b == v.b
}

// What row r of value v opens to: a row and an offset.
pub fn opened(v: Value, r: usize) -> Value
    ensures { result ≡ opened_from r v }
{
    if v.kind == Kind::Shift as u8 {
        return v;
    }
    Value::make(Kind::Shift as u8, r, 0, 0)
}

// The plain name of row r of value v. A variable's own value names the row itself.
pub fn plain_name(v: Value, r: usize) -> usize
    ensures { result ≡ plain_from r v }
{
    if v.kind != Kind::Shift as u8 {
        return r;
    }
    if v.k != 0 {
        return r;
    }
    v.a
}
