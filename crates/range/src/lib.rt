// A range of words: all from lo to hi; or, where hi is below lo, the two pieces from 0 to hi and from lo to the top of the word. By value; the store keeps one
// for each row.
#![tactic(auto)]

ghost use Rattle.std.specs.Prelude.{◌≡◌, ◌-◌, ◌^◌};
ghost use Rattle.word.specs.Word.{minus};
ghost use Rattle.range.specs.Range.{span, point, full, is_two, sum, negation, has, disjoint, Proper};

mod store;

pub use store::Store;
use word::Width;

#[derive(Clone, Copy)]
pub struct Range {
    pub lo: u64,
    pub hi: u64,
}

impl Range {
    // [k, k].
    pub fn of_word(k: u64) -> Range
        ensures { result ≡ point k }
    {
        Range { lo: k, hi: k }
    }

    // [k, h].
    pub fn of_bounds(k: u64, h: u64) -> Range
        ensures { result ≡ span k h }
    {
        Range { lo: k, hi: h }
    }

    // Every word of w bits.
    pub fn of_all(w: Width) -> Range
        ensures { result ≡ full (2 ^ w) }
    {
        Range { lo: 0, hi: w.top() }
    }

    // Whether it has two pieces.
    pub fn is_two(a: Range) -> bool
        ensures { result ≡ is_two a }
    {
        a.hi < a.lo
    }

    // a + b: from the sum of the lower ends to that of the upper ones. Where that is all the way round, every word.
    pub fn sum(w: Width, a: Range, b: Range) -> Range
        requires a_proper { Proper (2 ^ w) a }
        requires b_proper { Proper (2 ^ w) b }
        ensures { result ≡ sum (2 ^ w) a b }
    {
        let top = w.top();
        let x = size(w, a);
        let y = size(w, b);
        if x >= top - y {
            return Range { lo: 0, hi: top };
        }
        Range {
            lo: std::num::wrapping_add_u64(a.lo, b.lo) & top,
            hi: std::num::wrapping_add_u64(a.hi, b.hi) & top,
        }
    }

    // - a: from the negation of the upper end to that of the lower one. Every word stays every word.
    pub fn negation(w: Width, a: Range) -> Range
        requires a_proper { Proper (2 ^ w) a }
        ensures { result ≡ negation (2 ^ w) a }
    {
        let top = w.top();
        if size(w, a) >= top {
            return Range { lo: 0, hi: top };
        }
        Range {
            lo: std::num::wrapping_sub_u64(0, a.hi) & top,
            hi: std::num::wrapping_sub_u64(0, a.lo) & top,
        }
    }

    // Whether a and b share no number: neither has the lower end of the other.
    pub fn disjoint(a: Range, b: Range) -> bool
        ensures { result ≡ disjoint a b }
    {
        if reaches(a.lo, a.hi, b.lo) {
            return false;
        }
        !reaches(b.lo, b.hi, a.lo)
    }
}

// How far it is from the lower end up to the upper one, over the top where there are two pieces: one less than the numbers of a.
fn size(w: Width, a: Range) -> u64
    ensures { result ≡ minus (2 ^ w) a.hi a.lo }
{
    std::num::wrapping_sub_u64(a.hi, a.lo) & w.top()
}

// Whether x is no further up from lo than hi is. That is counted modulo 2^64 at every width: a range of two pieces then goes on over numbers that are no words,
// and x is a word.
fn reaches(lo: u64, hi: u64, x: u64) -> bool
    ensures { result ≡ has (span lo hi) x }
{
    std::num::wrapping_sub_u64(x, lo) <= std::num::wrapping_sub_u64(hi, lo)
}
