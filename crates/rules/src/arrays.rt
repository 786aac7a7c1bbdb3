// The rules of READ and WRITE.
ghost use Rattle.std.specs.Prelude.{◌≡◌, ◌^◌};
ghost use Rattle.range.specs.Store.{kept};
ghost use Rattle.term.specs.Term.{row_of, read};
ghost use Rattle.term.specs.Bytes.{look};
ghost use Rattle.term.specs.Rule.{write_rule, skip_at};
ghost use Rattle.walks.specs.Ready.{Walking, Following};
ghost use Rattle.rules.specs.Ready.{Reading, Writing};
ghost use Rattle.rules.specs.Made.{Makes};

use super::words::shift_rule;
use crate::Made;
use range::Store;
use row::{Kind, Row};
use term::Relation;
use walks::{Index, Landing, index_at, plain_name, related, value_at, walk};
use word::Width;

// READ m i.
pub fn read_rule(
    res: &[u8],
    store: &Store,
    w: Width,
    limit: usize,
    r: usize,
    m: usize,
    i: usize,
) -> Made
    requires reading { Reading res.now r m i }
    requires following { Following res.now store.now r m }
    ensures { Makes (2 ^ w) limit (look res.now) (kept store.now) (read m i) result }
{
    let j = index_at(res, store, i);
    let walked = walk(res, store, limit, r, j, m);
    match walked.landing {
        Landing::Found(c) => Made {
            row: shift_rule(res, w, r, c, 0),
            compared: walked.compared,
        },
        Landing::Stopped(n) => Made {
            row: Row::make(Kind::Read as u8, n, plain_name(j.value, i), 0, 0, 0),
            compared: walked.compared,
        },
    }
}

// The array that a WRITE at the index j stands on in place of row m: a store at the same index is skipped, once.
fn skipped(res: &[u8], store: &Store, r: usize, j: Index, m: usize) -> usize
    requires { Walking res.now store.now r j m }
    ensures { result ≡ skip_at (look res.now) (kept store.now) j.row m (look res.now m) }
{
    let x = Row::decode(res, m);
    if !x.is(Kind::Write) {
        return m;
    }
    let b = x.b;
    match related(res, store, b, j) {
        Relation::Same => x.a,
        Relation::Apart => m,
        Relation::Unknown => m,
    }
}

// WRITE m i e.
pub fn write_rule(res: &[u8], store: &Store, r: usize, m: usize, i: usize, e: usize) -> Row
    requires { Writing res.now r m i e }
    ensures { result ≡ row_of (write_rule (look res.now) (kept store.now) m i e) }
{
    let j = index_at(res, store, i);
    let v = j.value;
    let array = skipped(res, store, r, j, m);
    let index = plain_name(v, i);
    let element = plain_name(value_at(res, e), e);
    Row::make(Kind::Write as u8, array, index, element, 0, 0)
}
