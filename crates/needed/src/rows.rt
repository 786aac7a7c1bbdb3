// Which ranges are needed: marks of the rows that the ranges of marked rows are made from. Sixty-four rows of which none is marked are passed at once.
ghost use Rattle.std.specs.Prelude.{◌+◌};
ghost use Rattle.table.specs.Refusals.{MOST};
ghost use Rattle.needed.specs.Needed.{Word, Needing, Needed};

use marks::Marks;
use row::{Kind, Row};

// Marks the rows that the range of row r is made from. What a READ names is not among them: it ranges over every word.
fn mark_below(res: &[u8], marks: &mut Marks, r: usize)
    requires needing { Needing res.now (r + 1) marks.old }
    requires word { Word res.now r }
    ensures { Needed res.now marks.old r marks.new }
{
    let x = Row::decode(res, r);
    let Some(kind) = Kind::of(x.kind) else {
        return;
    };
    match kind {
        Kind::Shift | Kind::Neg => marks.mark_if(x.a, true),
        Kind::Sum | Kind::Diff => {
            marks.mark_if(x.a, true);
            marks.mark_if(x.b, true);
        }
        _ => (),
    }
}

// Marks every row that the range of a marked row is made from, through any number of references: from the last row down.
pub fn mark_needed(res: &[u8], marks: &mut Marks)
    requires { Needing res.now MOST marks.old }
    ensures { Needed res.now marks.old 0 marks.new }
{
    for word in (0..16).rev() {
        if marks.none_beside(64 * word) {
            continue;
        }
        for bit in (0..64).rev() {
            let r = 64 * word + bit;
            if marks.is_marked(r) {
                mark_below(res, marks, r);
            }
        }
    }
}
