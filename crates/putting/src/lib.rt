// A row put into the bytes of a table, with the number of the instruction that it was recorded at.
#![tactic(auto)]

ghost use Rattle.std.specs.Prelude.{◌≡◌, ◌+◌, ◌≤◌, length, ◌++◌};
ghost use Rattle.std.proofs.lemmas.List.Edits.{sets};
ghost use Rattle.in_bytes.specs.Numbers.{bytes};
ghost use Rattle.row.specs.Names;
ghost use Rattle.row.specs.Names.{place, LENGTH};
ghost use Rattle.row.specs.Bytes.{head_of, put_row};

use row::Row;

// Makes x, recorded at instruction `source`, row r of a table.
pub fn put(t: &mut [u8], r: usize, x: Row, source: u64)
    requires { place r + LENGTH ≤ length t.old }
    ensures { t.new ≡ put_row t.old r x source }
{
    let at = Row::place(r);
    put_head(t, at, x.kind);
    put_references(t, at, x.a, x.b, x.c);
    put_values(t, at, x.k, x.h, source);
}

// Writes the mark, the kind and the zero byte of a row that begins at `at`.
fn put_head(t: &mut [u8], at: usize, kind: u8)
    requires { at + LENGTH ≤ length t.old }
    ensures { t.new ≡ sets t.old at (head_of kind) }
{
    t[at] = Row::MARK_0;
    t[at + 1] = Row::MARK_1;
    t[at + Row::KIND] = kind;
    t[at + Row::ZERO] = 0;
}

// Writes the three references of a row that begins at `at`.
fn put_references(t: &mut [u8], at: usize, a: usize, b: usize, c: usize)
    requires { at + LENGTH ≤ length t.old }
    ensures { t.new ≡ sets t.old (at + Names.A) (bytes 2 a ++ bytes 2 b ++ bytes 2 c) }
{
    in_bytes::put::<2>(t, at + Row::A, a as u64);
    in_bytes::put::<2>(t, at + Row::B, b as u64);
    in_bytes::put::<2>(t, at + Row::C, c as u64);
}

// Writes the two values and the source of a row that begins at `at`.
fn put_values(t: &mut [u8], at: usize, k: u64, h: u64, source: u64)
    requires { at + LENGTH ≤ length t.old }
    ensures { t.new ≡ sets t.old (at + Names.K) (bytes 8 k ++ bytes 8 h ++ bytes 4 source) }
{
    in_bytes::put::<8>(t, at + Row::K, k);
    in_bytes::put::<8>(t, at + Row::H, h);
    in_bytes::put::<4>(t, at + Row::SOURCE, source);
}
