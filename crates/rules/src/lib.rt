// The code of document 01's rules, straight on lent bytes. `result` holds the result rows, of which those below row r stand; `store` keeps
// the ranges of words and what a walk asks of arrays; `limit` is the number of stores that a READ compares at most.
#![tactic(auto)]

mod arrays;
mod ranges;
mod turn;
mod words;

ghost use Rattle.std.specs.Prelude.{◌≡◌};
ghost use Rattle.rules.specs.Made.{made};

pub use ranges::entry_of;
use row::Row;
pub use turn::write_row;

// A result row, and how many stores were compared to make it.
#[derive(Clone, Copy)]
pub struct Made {
    pub row: Row,
    pub compared: usize,
}

impl Made {
    // A row that is made without a walk.
    pub fn at_once(row: Row) -> Made
        ensures { result ≡ made row 0 }
    {
        Made { row, compared: 0 }
    }
}
