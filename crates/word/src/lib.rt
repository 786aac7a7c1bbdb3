// Words of w bits, 1 to 64, each in a u64. The definitions are over the modulus 2 ^ w, so w = 64 is no case of its own there.
#![tactic(auto)]

ghost use Rattle.std.specs.Prelude.{◌≡◌, ◌-◌, ◌%◌, ◌^◌, ◌<◌, ◌≤◌, nat_le};
ghost use Rattle.word.specs.Word.{plus, minus};

use std::marker::Model;

// How many bits a word has: 64 at most. In a clause it is that number.
#[derive(Clone, Copy)]
pub struct Width {
    bits: u32,
}

impl Model for Width {
    ghost use Rattle.std.specs.Prelude.{ℕ, ◌≤◌};

    ghost Value = { ℕ };

    ghost view = { λ w. w.bits };

    ghost invariant = { λ w. w.bits ≤ 64 };

    ghost inverse = { λ n. record { bits = n } };
}

impl Width {
    // Words of so many bits.
    pub fn new(bits: u32) -> Width
        requires { bits ≤ 64 }
        ensures { result ≡ bits }
    {
        Width { bits }
    }

    // How many bits.
    pub fn bits(self) -> u32
        ensures number { result ≡ self }
        ensures high { self ≤ 64 }
    {
        self.bits
    }

    // The lowest w bits of x.
    pub fn reduce(self, x: u64) -> u64
        ensures reduced { result ≡ x % 2 ^ self }
        ensures high { self ≤ 64 }
    {
        if self.bits == 64 {
            return x;
        }
        x & ((1 << self.bits) - 1)
    }

    // The largest word.
    pub fn top(self) -> u64
        ensures largest { result ≡ 2 ^ self - 1 }
        ensures high { self ≤ 64 }
    {
        if self.bits == 64 {
            return u64::MAX;
        }
        (1 << self.bits) - 1
    }

    // x + y.
    pub fn add(self, x: u64, y: u64) -> u64
        ensures { result ≡ plus (2 ^ self) x y }
    {
        self.reduce(std::num::wrapping_add_u64(x, y))
    }

    // x - y.
    pub fn sub(self, x: u64, y: u64) -> u64
        ensures { result ≡ minus (2 ^ self) x y }
    {
        self.reduce(std::num::wrapping_sub_u64(x, y))
    }

    // Whether v is no word: 2 ^ w or more.
    pub fn too_large(self, v: u64) -> bool
        ensures { result ≡ nat_le (2 ^ self) v }
    {
        if self.bits == 64 {
            return false;
        }
        v >> self.bits != 0
    }
}
