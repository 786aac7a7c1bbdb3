// Why two rows are the same, apart, or neither is known, as a person reads it: docs/WHY.md sets the words. They are written into a slice that the caller lends;
// `top` is the largest word.
#![tactic(auto)]

ghost use Rattle.std.specs.Prelude.{◌+◌, ◌<◌, ◌≤◌, ◌^◌, ◌≡◌, ◌++◌, length};
ghost use Rattle.pieces.specs.Pieces.{piece};
ghost use Rattle.row.specs.Names.{HEADER};
ghost use Rattle.table.specs.Refusals.{width};
ghost use Rattle.text.specs.Text.{ascii, decimal, Wrote};
ghost use Rattle.reasons.specs.Reasons.{piece_text, range_text, offsets_text, reason_text};

use range::Range;
use term::{Reason, Spans};
use text::Text;

// The largest word of a table.
pub fn top_of(t: &[u8]) -> u64
    requires header { HEADER ≤ length t.now }
    requires width_fits { width t.now ≤ 64 }
    ensures { result + 1 ≡ 2 ^ width t.now }
{
    table::word_width(t).top()
}

// Writes a word and a number.
pub fn put_labelled(text: &mut Text, word: &[u8], v: u64)
    requires { text.old.at + length word.now < 2 ^ 62 }
    ensures { Wrote text.old (word.now ++ decimal v) (length word.now + 20) text.new }
{
    text.put_word(word);
    text.put_decimal(v);
}

// Writes a piece of a range.
fn put_piece(text: &mut Text, lo: u64, hi: u64)
    requires { text.old.at < 2 ^ 61 }
    ensures { Wrote text.old (piece_text (piece lo hi)) 42 text.new }
{
    text.put_decimal(lo);
    put_labelled(text, b"..", hi);
}

// Writes a range, its lower piece first: the one place where a range is written.
pub fn put_range(text: &mut Text, top: u64, a: Range)
    requires { text.old.at < 2 ^ 60 }
    ensures { Wrote text.old (range_text (top + 1) a) 86 text.new }
{
    if Range::is_two(a) {
        put_piece(text, 0, a.hi);
        text.put_word(b", ");
        return put_piece(text, a.lo, top);
    }
    put_piece(text, a.lo, a.hi);
}

// Writes a word and a range.
fn put_ranged(text: &mut Text, word: &[u8], top: u64, a: Range)
    requires { text.old.at + length word.now < 2 ^ 60 }
    ensures { Wrote text.old (word.now ++ range_text (top + 1) a) (length word.now + 86) text.new }
{
    text.put_word(word);
    put_range(text, top, a);
}

// Writes the reason that two offsets give.
fn put_offsets(text: &mut Text, p: u64, q: u64)
    requires { text.old.at < 2 ^ 60 }
    ensures { Wrote text.old (offsets_text p q) 81 text.new }
{
    put_labelled(text, b"different offsets on a shared base, ", p);
    put_labelled(text, b" and ", q);
}

// Writes the reason that two ranges give.
fn put_spans(text: &mut Text, top: u64, spans: Spans)
    requires { text.old.at < 2 ^ 59 }
    ensures { Wrote text.old (reason_text (top + 1) (Reason.Separate spans)) 194 text.new }
{
    put_ranged(text, b"separate ranges, ", top, spans.store);
    put_ranged(text, b" and ", top, spans.read);
}

// Writes a reason.
pub fn put_reason(text: &mut Text, top: u64, why: Reason)
    requires { text.old.at < 2 ^ 59 }
    ensures { Wrote text.old (reason_text (top + 1) why) 194 text.new }
{
    match why {
        Reason::SamePlace => text.put_word(b"same place"),
        Reason::Offsets(p, q) => put_offsets(text, p, q),
        Reason::Separate(spans) => put_spans(text, top, spans),
        Reason::Undecided => text.put_word(b"undecided"),
    }
}

// Writes a reason, as the end of a line.
pub fn put_why(text: &mut Text, top: u64, why: Reason)
    requires { text.old.at < 2 ^ 33 }
    ensures { Wrote text.old (ascii ", " ++ reason_text (top + 1) why ++ ascii "\n") 197 text.new }
{
    text.put_word(b", ");
    put_reason(text, top, why);
    text.put_byte(b'\n');
}
