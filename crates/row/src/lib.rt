// A row of a table: its numbers, and the bytes that they stand in. Beside them stands the number of the instruction that the row was recorded at, the row's
// source: it goes with the row and is no part of what the row says, so `Row`, which the rules read and make, does not have it.
#![tactic(auto)]

ghost use Rattle.std.specs.Prelude.{◌≡◌, ◌+◌, ◌<◌, ◌≤◌, ◌^◌, length, eqb};
ghost use Rattle.in_bytes.specs.Numbers.{Read};
ghost use Rattle.row.specs.Kinds.{byte_of};
ghost use Rattle.row.specs.Names.{place, LENGTH};
ghost use Rattle.row.specs.Bytes.{row, row_at, source_at, mark_wrong, Decoded};

mod kind;

use in_bytes::{byte, number};
pub use kind::Kind;

#[derive(Clone, Copy)]
pub struct Row {
    // a byte and no `Kind`: it is what stands in bytes that are lent, any value may stand there, and tries makes rows with such values
    pub kind: u8,
    pub a: usize,
    pub b: usize,
    pub c: usize,
    pub k: u64,
    pub h: u64,
}

// The constants are the numbers of specs/Names.antt, by proofs/Named.antt.
impl Row {
    // bytes of a header, and of a row
    pub const HEADER: usize = 6;

    pub const LENGTH: usize = 30;

    // the two bytes of the mark
    pub const MARK_0: u8 = 0x52;

    pub const MARK_1: u8 = 0x4F;

    // where the fields stand, counted from the row's first byte
    pub const KIND: usize = 2;

    pub const ZERO: usize = 3;

    pub const A: usize = 4;

    pub const B: usize = 6;

    pub const C: usize = 8;

    pub const K: usize = 10;

    pub const H: usize = 18;

    pub const SOURCE: usize = 26;

    // Whether the row is of a kind.
    pub fn is(&self, kind: Kind) -> bool
        ensures { result ≡ eqb self.now.kind (byte_of kind) }
    {
        self.kind == kind.byte()
    }

    // The row of these numbers. Rows are made in many places, and there a literal of six lines would say no more than the six numbers in a line.
    pub fn make(kind: u8, a: usize, b: usize, c: usize, k: u64, h: u64) -> Row
        ensures { result ≡ row kind a b c k h }
    {
        Row {
            kind,
            a,
            b,
            c,
            k,
            h,
        }
    }

    // Where row r of a table begins. The bound keeps the sum in a usize.
    pub fn place(r: usize) -> usize
        requires { r < 2 ^ 59 }
        ensures { result ≡ place r }
    {
        Row::HEADER + Row::LENGTH * r
    }

    // Row r of a table.
    pub fn decode(t: &[u8], r: usize) -> Row
        requires { place r + LENGTH ≤ length t.now }
        ensures { Decoded t.now r result }
    {
        let at = Row::place(r);
        let kind = byte(t, at + Row::KIND);
        let a = number::<2>(t, at + Row::A);
        let b = number::<2>(t, at + Row::B);
        let c = number::<2>(t, at + Row::C);
        let k = number::<8>(t, at + Row::K);
        let h = number::<8>(t, at + Row::H);
        Row::make(kind as u8, a as usize, b as usize, c as usize, k, h)
    }

    // The kind of row r of a table.
    pub fn kind_at(t: &[u8], r: usize) -> u8
        requires { place r + LENGTH ≤ length t.now }
        ensures { result ≡ (row_at t.now r).kind }
    {
        t[Row::place(r) + Row::KIND]
    }

    // The instruction that row r of a table was recorded at.
    pub fn source_at(t: &[u8], r: usize) -> u64
        requires { place r + LENGTH ≤ length t.now }
        ensures { Read (source_at t.now r) (2 ^ 32) result }
    {
        number::<4>(t, Row::place(r) + Row::SOURCE)
    }

    // Whether the mark or the zero byte of row r is wrong.
    pub fn mark_wrong(t: &[u8], r: usize) -> bool
        requires { place r + LENGTH ≤ length t.now }
        ensures { result ≡ mark_wrong t.now (place r) }
    {
        let at = Row::place(r);
        (t[at] != Row::MARK_0) | (t[at + 1] != Row::MARK_1) | (t[at + Row::ZERO] != 0)
    }
}
