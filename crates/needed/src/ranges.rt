// The ranges of two rows, and of no more rows than those are made from.
ghost use Rattle.table.specs.Refusals.{MOST};
ghost use Rattle.needed.specs.Needed.{TwoWords, Blank, Keeping, TwoKept};

use super::rows::mark_needed;
use marks::Marks;
use range::Store;
use row::Row;
use word::Width;

// Keeps the ranges of the marked rows.
fn keep_marked(res: &[u8], store: &mut Store, marks: &Marks, w: Width)
    requires { Keeping res.now marks.now w 0 store.old }
    ensures { Keeping res.now marks.now w MOST store.new }
{
    for word in 0..16 {
        if marks.none_beside(64 * word) {
            continue;
        }
        for bit in 0..64 {
            let r = 64 * word + bit;
            if marks.is_marked(r) {
                let a = rules::entry_of(store, w, r, Row::decode(res, r));
                store.save(r, a);
            }
        }
    }
}

// Keeps the ranges of rows x and y.
pub fn keep_two(res: &[u8], store: &mut Store, w: Width, x: usize, y: usize)
    requires two_words { TwoWords res.now w x y }
    requires blank { Blank w store.old }
    ensures { TwoKept res.now w x y store.new }
{
    let mut marks = Marks::none();
    marks.mark_if(x, true);
    marks.mark_if(y, true);
    mark_needed(res, &mut marks);
    keep_marked(res, store, &marks, w);
}
