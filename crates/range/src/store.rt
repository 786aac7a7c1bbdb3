// The ranges of the rows of a table.
ghost use Rattle.std.specs.Prelude.{◌≡◌, ◌<◌, length, replicate};
ghost use Rattle.range.specs.Range.{point};
ghost use Rattle.range.specs.Store.{kept, keep};

use crate::Range;
use std::marker::Model;

// A range for each of 1,024 rows.
#[derive(Drop)]
pub struct Store {
    ranges: [Range; 1024],
}

impl Model for Store {
    ghost use Rattle.std.specs.Prelude.{List, ◌≡◌, length};
    ghost use Rattle.range.specs.declared.Range.{Range};

    ghost Value = { List Range };

    ghost view = { λ s. s.ranges };

    ghost invariant = { λ s. length s.ranges ≡ 1024 };
}

impl Store {
    // [0, 0] for every row.
    pub fn new() -> Store
        ensures { result ≡ replicate 1024 (point 0) }
    {
        Store {
            ranges: [Range { lo: 0, hi: 0 }; 1024],
        }
    }

    // The range kept for row x.
    pub fn load(&self, x: usize) -> Range
        requires { x < 1024 }
        ensures range { result ≡ kept self.now x }
        ensures long { length self.now ≡ 1024 }
    {
        self.ranges[x]
    }

    // Keeps a for row r.
    pub fn save(&mut self, r: usize, a: Range)
        requires { r < 1024 }
        ensures range { self.new ≡ keep self.old r a }
        ensures long { length self.old ≡ 1024 }
    {
        self.ranges[r] = a;
    }
}
