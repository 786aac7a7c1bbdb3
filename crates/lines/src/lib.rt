// The lines that are printed, written into a slice that the caller lends.
#![tactic(auto)]

ghost use Rattle.std.specs.Prelude.{◌+◌, ◌*◌, ◌<◌, ◌^◌, length};
ghost use Rattle.text.specs.Text.{Put, Wrote};
ghost use Rattle.lines.specs.Lines.{named, pair, head, refusal, line, lines, SHORT, LINE, Chunk};

use row::Row;
use text::Text;

// the bytes that the first line of a result, a refusal, and the line of a row take at most
pub const SHORT: usize = 64;

pub const LINE: usize = 168;

// Writes a word and its number.
fn put_named(text: &mut Text, word: &[u8], v: u64)
    requires { text.old.at + length word.now < 2 ^ 62 }
    ensures { Wrote text.old (named word.now v) (length word.now + 21) text.new }
{
    text.put_word(word);
    text.put_spaced(&[v]);
}

// Writes two words with their numbers, as a line.
fn put_pair(out: &mut [u8], first: &[u8], v: u64, second: &[u8], w: u64) -> usize
    requires { length first.now + length second.now < 2 ^ 32 }
    ensures { Put out.old 0 (pair first.now v second.now w) (length first.now + length second.now + 43) out.new result }
{
    let mut text = Text { out, at: 0 };
    put_named(&mut text, first, v);
    put_named(&mut text, second, w);
    text.put_byte(b'\n');
    text.at
}

// Writes the first line of a result. This and the next are names of what `put_pair` writes by given words: each has a promise of its own.
pub fn put_head(out: &mut [u8], width: u64, rows: u64) -> usize
    ensures { Put out.old 0 (head width rows) SHORT out.new result }
{
    put_pair(out, b"width", width, b" rows", rows)
}

// Writes a refusal.
pub fn put_refusal(out: &mut [u8], number: u64, row: u64) -> usize
    ensures { Put out.old 0 (refusal number row) SHORT out.new result }
{
    put_pair(out, b"refused", number, b" row", row)
}

// Writes the line of row r, which is x and was recorded at instruction `source`.
pub fn put_line(text: &mut Text, r: usize, x: Row, source: u64)
    requires { text.old.at < 2 ^ 62 }
    ensures { Wrote text.old (line r x source) LINE text.new }
{
    text.put_decimal(r as u64);
    text.put_spaced(&[
        x.kind as u64,
        x.a as u64,
        x.b as u64,
        x.c as u64,
        x.k,
        x.h,
        source,
    ]);
    text.put_byte(b'\n');
}

// Writes the lines of `count` rows, from row `from` on.
pub fn put_lines(out: &mut [u8], t: &[u8], from: usize, count: usize) -> usize
    requires { Chunk t.now from count }
    ensures { Put out.old 0 (lines t.now from count) (LINE * count) out.new result }
{
    let mut text = Text { out, at: 0 };
    for i in 0..count {
        let r = from + i;
        put_line(&mut text, r, Row::decode(t, r), Row::source_at(t, r));
    }
    text.at
}
