// Names of variables: which name a row states, and the first row that states it.
#![tactic(auto)]

ghost use Rattle.std.specs.Prelude.{◌≡◌, ◌+◌, ◌≤◌, List, ℕ, length};
ghost use Rattle.row.specs.Names.{LENGTH, place};
ghost use Rattle.in_bytes.specs.Numbers.{Read};
ghost use Rattle.names.specs.First.{name_from, name_at, first_named, first_of};
ghost use Rattle.names.specs.Slots.{Slots, Slotted, CanFind, Found};

use in_bytes::number;
use row::{Kind, Row};
use std::marker::Model;

// The name that the row whose bytes begin at `at` states; 0 is none.
pub fn stated(t: &[u8], at: usize) -> usize
    requires { at + LENGTH ≤ length t.now }
    ensures { Read (name_from t.now at) 65536 result }
{
    if t[at + Row::KIND] != Kind::Var.byte() {
        return 0;
    }
    number::<2>(t, at + Row::A) as usize
}

// The name that row r of a table states; 0 is none.
pub fn stated_at(t: &[u8], r: usize) -> usize
    requires { place r + LENGTH ≤ length t.now }
    ensures { Read (name_at t.now r) 65536 result }
{
    stated(t, Row::place(r))
}

// The first of the rows below n that states a name, n where none does.
pub fn search(t: &[u8], name: usize, n: usize) -> usize
    requires { place n ≤ length t.now }
    ensures { result ≡ first_named (name_at t.now) name n }
{
    for y in 0..n {
        if stated_at(t, y) == name {
            return y;
        }
    }
    n
}

// The first row of the name of row r, by what its slot has: 0, or one more than the first row of some name.
fn by_slot(t: &[u8], name: usize, r: usize, kept: usize) -> usize
    requires { Slotted t.now name r kept }
    ensures { result ≡ first_of (name_at t.now) r }
{
    if kept == 0 {
        return r;
    }
    if stated_at(t, kept - 1) == name {
        return kept - 1;
    }
    search(t, name, r)
}

// The first rows of the names met so far, as rows are asked for one by one from row 0 on: the rows above are searched only where another name has the slot.
#[derive(Drop)]
pub struct Firsts {
    slots: [u16; 256],
}

impl Model for Firsts {
    ghost use Rattle.std.specs.Prelude.{List, ℕ};

    ghost Value = { List ℕ };

    ghost view = { λ f. f.slots };
}

impl Firsts {
    // No row was asked for.
    pub fn new() -> Self
        ensures { (t : List ℕ) → Slots t result 0 }
    {
        Firsts { slots: [0; 256] }
    }

    // The first row of the name of row r; a row without a name is its own first.
    pub fn first_of(&mut self, t: &[u8], r: usize) -> usize
        requires { CanFind t.now self.old r }
        ensures { Found t.now r result self.new }
    {
        let name = stated_at(t, r);
        if name == 0 {
            return r;
        }
        let slot = name & 255;
        let first = by_slot(t, name, r, self.slots[slot] as usize);
        self.slots[slot] = (first + 1) as u16;
        first
    }
}
