// The loop that run and edit share: each marked row is worked out anew, in ascending order, from the result rows then standing. A read compares at most `limit`
// stores.
#![tactic(auto)]

ghost use Rattle.std.specs.Prelude.{◌≡◌, not, ◌&&◌};
ghost use Rattle.term.specs.Term.{is_read};
ghost use Rattle.term.specs.Bytes.{look};
ghost use Rattle.judge.specs.Judge.{Placed, Both};
ghost use Rattle.renew.specs.Renew.{CanTurn, Turned, CanRenew, Renewed};

use marks::Marks;
use names::Firsts;
use range::Store;
use row::{Kind, Row};
use word::Width;

// How many rows are READ in the table and not in the result, and how many stores were compared.
#[derive(Clone, Copy)]
pub struct Counts {
    pub removed: u64,
    pub compared: u64,
}

// Whether row x, which is there, is a READ.
fn is_read(t: &[u8], x: usize) -> bool
    requires { Placed t.now x }
    ensures { result ≡ is_read (look t.now x) }
{
    Row::kind_at(t, x) == Kind::Read as u8
}

// Whether row x is a READ in the table and not in the result.
fn is_removed(table: &[u8], res: &[u8], x: usize) -> bool
    requires { Both table.now res.now x }
    ensures { result ≡ (is_read (look table.now x) && not (is_read (look res.now x))) }
{
    is_read(table, x) && !is_read(res, x)
}

// Settles result row r and what the store keeps for it. Removed is 1 where it is no READ any more. `first` is the first row of its name.
fn turn(
    table: &[u8],
    res: &mut [u8],
    store: &mut Store,
    marks: &Marks,
    w: Width,
    limit: usize,
    r: usize,
    first: usize,
) -> Counts
    requires { CanTurn table.now res.old store.old marks.now w r first }
    ensures { Turned table.now res.old res.new store.old store.new marks.now w limit r result }
{
    let compared = rules::write_row(table, res, store, w, limit, r, first, marks.is_marked(r));
    Counts {
        removed: u64::from(is_removed(table, res, r)),
        compared: compared as u64,
    }
}

// Works out anew the marked ones of the first n rows, and keeps the range of every word row.
pub fn renew(
    table: &[u8],
    res: &mut [u8],
    store: &mut Store,
    marks: &Marks,
    w: Width,
    limit: usize,
    n: usize,
) -> Counts
    requires { CanRenew table.now res.old store.old marks.now w limit n }
    ensures { Renewed table.now res.old marks.now w limit n res.new store.new result }
{
    let mut firsts = Firsts::new();
    let mut removed = 0;
    let mut compared = 0;
    for r in 0..n {
        let first = firsts.first_of(table, r);
        let counts = turn(table, res, store, marks, w, limit, r, first);
        removed += counts.removed;
        compared += counts.compared;
    }
    Counts { removed, compared }
}
