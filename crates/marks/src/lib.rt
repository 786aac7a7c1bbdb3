// Marks of rows, a bit for each: row x has bit x % 64 of word x / 64.
#![tactic(auto)]

ghost use Rattle.std.specs.Prelude.{◌≡◌, ◌<◌, ℕ, true, false};
ghost use Rattle.basis.specs.Count.{count_where};
ghost use Rattle.table.specs.Refusals.{MOST};
ghost use Rattle.marks.specs.Marks.{marked, none_beside, ones_of, Remarked};

use std::marker::Model;

// Which of the rows that a table can have are marked.
#[derive(Drop)]
pub struct Marks {
    words: [u64; 16],
}

impl Model for Marks {
    ghost use Rattle.std.specs.Prelude.{List, ℕ};
    ghost use Rattle.marks.specs.Marks.{Words};

    ghost Value = { List ℕ };

    ghost view = { λ m. m.words };

    ghost invariant = { λ m. Words m.words };
}

impl Marks {
    // No row is marked.
    pub fn none() -> Self
        ensures { (x : ℕ) → x < MOST → marked result x ≡ false }
    {
        Marks { words: [0; 16] }
    }

    // Every row is marked.
    pub fn all() -> Self
        ensures { (x : ℕ) → x < MOST → marked result x ≡ true }
    {
        Marks {
            words: [u64::MAX; 16],
        }
    }

    // Whether row x is marked.
    pub fn is_marked(&self, x: usize) -> bool
        requires { x < MOST }
        ensures { result ≡ marked self.now x }
    {
        (self.words[x >> 6] >> (x & 63)) & 1 == 1
    }

    // Whether of the sixty-four rows that have their marks in one word with row x none is marked.
    pub fn none_beside(&self, x: usize) -> bool
        requires { x < MOST }
        ensures { result ≡ none_beside self.now x }
    {
        self.words[x >> 6] == 0
    }

    // Marks row x where a test passed.
    pub fn mark_if(&mut self, x: usize, passed: bool)
        requires { x < MOST }
        ensures { Remarked self.old x passed self.new }
    {
        self.words[x >> 6] |= u64::from(passed) << (x & 63);
    }

    // How many rows are marked: the ones of all words.
    pub fn count(&self) -> u64
        ensures ones { result ≡ ones_of self.now 16 }
        ensures rows { result ≡ count_where (marked self.now) MOST }
    {
        self.words
            .iter()
            .map(|word| u64::from(word.count_ones()))
            .sum()
    }
}
