// The walk of a READ over the stores below it.
ghost use Rattle.std.specs.Prelude.{◌≡◌};
ghost use Rattle.range.specs.Store.{kept};
ghost use Rattle.term.specs.Bytes.{look};
ghost use Rattle.term.specs.Walk.{walk};
ghost use Rattle.walks.specs.Walked.{step_at, walked_by};
ghost use Rattle.walks.specs.Ready.{Walking, Following};

use super::relation::{Index, related};
use range::Store;
use row::Row;
use term::Relation;

// What a walk does at one array row: it has found the element, goes on to the next array, or stays at a store of whose index neither is known; or it ends at
// an array that is no store, and has compared none there.
#[derive(Clone, Copy)]
pub enum Step {
    Hit(usize),
    Next(usize),
    Stay,
    End,
}

// How a walk ends: with the element's row, or at the array where it stopped.
#[derive(Clone, Copy)]
pub enum Landing {
    Found(usize),
    Stopped(usize),
}

// A walk's end, and how many stores it compared.
#[derive(Clone, Copy)]
pub struct Walked {
    pub landing: Landing,
    pub compared: usize,
}

// One step, at array row m. The store has what it asks of that row, so that the next step waits for one load; where row m itself stands takes three sums more.
#[inline(always)]
fn step_at(res: &[u8], store: &Store, r: usize, j: Index, m: usize) -> Step
    requires walking { Walking res.now store.now r j m }
    requires following { Following res.now store.now r m }
    ensures { result ≡ step_at (look res.now) (kept store.now) j.row (look res.now m) }
{
    let x = store.load(m);
    if x.lo >= table::MOST as u64 {
        return Step::End;
    }
    match related(res, store, x.hi as usize, j) {
        Relation::Same => Step::Hit(Row::decode(res, m).c),
        Relation::Apart => Step::Next(x.lo as usize),
        Relation::Unknown => Step::Stay,
    }
}

// The walk for the index j from array row m on. It compares at most `limit` stores.
pub fn walk(res: &[u8], store: &Store, limit: usize, r: usize, j: Index, m: usize) -> Walked
    requires walking { Walking res.now store.now r j m }
    requires following { Following res.now store.now r m }
    ensures { result ≡ walked_by (walk (look res.now) (kept store.now) j.row limit m) }
{
    let mut n = m;
    for compared in 0..limit {
        match step_at(res, store, r, j, n) {
            Step::Hit(c) => {
                return Walked {
                    landing: Landing::Found(c),
                    compared: compared + 1,
                };
            }
            Step::Next(a) => n = a,
            Step::Stay => {
                return Walked {
                    landing: Landing::Stopped(n),
                    compared: compared + 1,
                };
            }
            Step::End => {
                return Walked {
                    landing: Landing::Stopped(n),
                    compared,
                };
            }
        }
    }
    Walked {
        landing: Landing::Stopped(n),
        compared: limit,
    }
}
