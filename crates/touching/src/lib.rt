// The rows that an edit works out anew: row r, which was replaced, and the rows that lead back to it. Each row is marked that is r, states a name that
// r led or leads, or names a marked row.
#![tactic(auto)]

ghost use Rattle.std.specs.Prelude.{◌≡◌, ◌&&◌, ◌||◌, ◌≤◌, eqb, length};
ghost use Rattle.row.specs.Names.{place};
ghost use Rattle.names.specs.First.{name_at};
ghost use Rattle.table.specs.Uses.{is_reference};
ghost use Rattle.term.specs.Term.{term_of, any_named};
ghost use Rattle.term.specs.Bytes.{look};
ghost use Rattle.marks.specs.Marks.{marked};
ghost use Rattle.touching.specs.Touched;
ghost use Rattle.touching.specs.Touched.{HasMark, Named, Reached, CanMark, Marked};

use marks::Marks;
use row::{Kind, Row};
use table::{Use, Uses};

// Whether a field with the given use refers to a marked row.
#[tactic(auto, unfolding(table::specs::Uses::is_reference))]
fn field_marked(marks: &Marks, used: Use, x: usize) -> bool
    requires { HasMark used x }
    ensures { result ≡ (is_reference used && marked marks.now x) }
{
    matches!(used, Use::Refers(_) | Use::Other(_)) && marks.is_marked(x)
}

// Whether x, a row of a table, names a marked row.
#[tactic(auto, using(crate::proofs::Marking::asks_a, crate::proofs::Marking::asks_b, crate::proofs::Marking::asks_c))]
fn names_marked(marks: &Marks, x: Row) -> bool
    requires { Named x }
    ensures { result ≡ any_named (marked marks.now) (term_of x) }
{
    let u = Uses::of(x.kind);
    field_marked(marks, u.a, x.a) || field_marked(marks, u.b, x.b) || field_marked(marks, u.c, x.c)
}

// The name where row r, which states it, is its first row; else 0.
fn leading(t: &[u8], r: usize, name: usize) -> usize
    requires { place r ≤ length t.now }
    ensures { result ≡ Touched.leading (name_at t.now) name r }
{
    if names::search(t, name, r) == r {
        name
    } else {
        0
    }
}

// Whether a name is one that row r led or leads: no row before r states such a name.
fn follows(was: usize, is: usize, name: usize) -> bool
    ensures { result ≡ Touched.follows was is name }
{
    (name != 0) & ((name == was) | (name == is))
}

// Whether row x of a table is r, follows it by name, or names a marked row.
fn touches(t: &[u8], marks: &Marks, r: usize, was: usize, is: usize, x: usize) -> bool
    requires { Reached t.now x }
    ensures { result ≡ (eqb x r || Touched.follows was is (name_at t.now x) || any_named (marked marks.now) (look t.now x)) }
{
    if x == r {
        return true;
    }
    let y = Row::decode(t, x);
    if y.is(Kind::Var) {
        return follows(was, is, y.a);
    }
    names_marked(marks, y)
}

// Marks row r of a table of n rows and the rows that lead back to it, names followed, now or when `old` were the bytes of the row; and answers how many there are.
pub fn mark_touched(t: &[u8], old: &[u8], n: usize, r: usize, marks: &mut Marks) -> u64
    requires { CanMark t.now old.now n r marks.old }
    ensures { Marked t.now old.now r n marks.new result }
{
    let was = leading(t, r, names::stated(old, 0));
    let is = leading(t, r, names::stated_at(t, r));
    for x in 0..n {
        let touched = touches(t, marks, r, was, is, x);
        marks.mark_if(x, touched);
    }
    marks.count()
}
