// The rules of SHIFT, SUM, DIFF and NEG.
ghost use Rattle.std.specs.Prelude.{◌≡◌, ◌^◌, min, max};
ghost use Rattle.word.specs.Word.{plus, minus};
ghost use Rattle.term.specs.Term.{row_of, sum, diff};
ghost use Rattle.term.specs.Bytes.{look};
ghost use Rattle.term.specs.Rule.{shift_rule, sum_rule, diff_rule, neg_rule};
ghost use Rattle.walks.specs.Value.{shifted_row};
ghost use Rattle.rules.specs.Ready.{Unary, Binary, Negating};

use row::{Kind, Row};
use walks::{Value, opened, same_base, value_at};
use word::Width;

// Writes value v with k added to its offset.
fn shifted(w: Width, v: Value, k: u64) -> Row
    ensures { result ≡ shifted_row (2 ^ w) v k }
{
    Row::make(v.kind, v.a, v.b, 0, w.add(v.k, k), 0)
}

// SHIFT a k.
pub fn shift_rule(res: &[u8], w: Width, r: usize, a: usize, k: u64) -> Row
    requires { Unary res.now r a }
    ensures { result ≡ row_of (shift_rule (2 ^ w) (look res.now) a k) }
{
    shifted(w, value_at(res, a), k)
}

// SUM a b k.
pub fn sum_rule(res: &[u8], w: Width, r: usize, a: usize, b: usize, k: u64) -> Row
    requires { Binary res.now r a b }
    ensures { result ≡ row_of (sum_rule (2 ^ w) (look res.now) a b k) }
{
    let u = value_at(res, a);
    let v = value_at(res, b);
    if u.kind == Kind::Const as u8 {
        return shifted(w, v, w.add(u.k, k));
    }
    if v.kind == Kind::Const as u8 {
        return shifted(w, u, w.add(v.k, k));
    }
    opened_sum(w, opened(u, a), opened(v, b), k)
}

// The sum of two opened operands, lower number first.
fn opened_sum(w: Width, x: Value, y: Value, k: u64) -> Row
    ensures { result ≡ row_of (sum (min x.a y.a) (max x.a y.a) (plus (2 ^ w) (plus (2 ^ w) x.k y.k) k)) }
{
    let offset = w.add(w.add(x.k, y.k), k);
    if x.a <= y.a {
        return Row::make(Kind::Sum as u8, x.a, y.a, 0, offset, 0);
    }
    Row::make(Kind::Sum as u8, y.a, x.a, 0, offset, 0)
}

// DIFF a b k. The bases of the operands are compared before they are opened.
pub fn diff_rule(res: &[u8], w: Width, r: usize, a: usize, b: usize, k: u64) -> Row
    requires { Binary res.now r a b }
    ensures { result ≡ row_of (diff_rule (2 ^ w) (look res.now) a b k) }
{
    let u = value_at(res, a);
    let v = value_at(res, b);
    if same_base(u, v) {
        return Row::make(Kind::Const as u8, 0, 0, 0, difference(w, u.k, v.k, k), 0);
    }
    if v.kind == Kind::Const as u8 {
        return shifted(w, u, w.sub(k, v.k));
    }
    if u.kind == Kind::Const as u8 {
        return negated(res, w, r, b, v, w.add(k, u.k));
    }
    opened_difference(w, opened(u, a), opened(v, b), k)
}

// p - q + k.
fn difference(w: Width, p: u64, q: u64, k: u64) -> u64
    ensures { result ≡ plus (2 ^ w) (minus (2 ^ w) p q) k }
{
    w.add(w.sub(p, q), k)
}

// The difference of two opened operands.
fn opened_difference(w: Width, x: Value, y: Value, k: u64) -> Row
    ensures { result ≡ row_of (diff x.a y.a (plus (2 ^ w) (minus (2 ^ w) x.k y.k) k)) }
{
    Row::make(Kind::Diff as u8, x.a, y.a, 0, difference(w, x.k, y.k, k), 0)
}

// NEG a k.
pub fn neg_rule(res: &[u8], w: Width, r: usize, a: usize, k: u64) -> Row
    requires { Unary res.now r a }
    ensures { result ≡ row_of (neg_rule (2 ^ w) (look res.now) a k) }
{
    negated(res, w, r, a, value_at(res, a), k)
}

// NEG a k, where v is the value of row a. What is left after four kinds is a sum.
#[inline(always)]
fn negated(res: &[u8], w: Width, r: usize, a: usize, v: Value, k: u64) -> Row
    requires { Negating res.now r a v }
    ensures { result ≡ row_of (neg_rule (2 ^ w) (look res.now) a k) }
{
    let offset = w.sub(k, v.k);
    if v.kind == Kind::Const as u8 {
        return Row::make(Kind::Const as u8, 0, 0, 0, offset, 0);
    }
    if v.kind == Kind::Shift as u8 {
        return Row::make(Kind::Neg as u8, v.a, 0, 0, offset, 0);
    }
    if v.kind == Kind::Neg as u8 {
        return shift_rule(res, w, r, v.a, offset);
    }
    if v.kind == Kind::Diff as u8 {
        return Row::make(Kind::Diff as u8, v.b, v.a, 0, offset, 0);
    }
    Row::make(Kind::Neg as u8, a, 0, 0, k, 0)
}
