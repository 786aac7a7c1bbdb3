// The line that says what is known of two rows, written into a slice that the caller lends. `top` is the largest word.
ghost use Rattle.std.specs.Prelude.{◌+◌, ◌<◌, ◌^◌};
ghost use Rattle.text.specs.Text.{Put, Wrote};
ghost use Rattle.compare.specs.Line.{relation_text, rows_text, line, LONGEST};

use reasons::{put_labelled, put_why};
use term::{Reason, Relation};
use text::Text;

// the bytes that the line takes at most
pub const LONGEST: usize = 258;

// Writes what is known.
fn put_relation(text: &mut Text, known: Relation)
    requires { text.old.at < 2 ^ 32 }
    ensures { Wrote text.old (relation_text known) 9 text.new }
{
    match known {
        Relation::Unknown => text.put_word(b"not known"),
        Relation::Same => text.put_word(b"same"),
        Relation::Apart => text.put_word(b"apart"),
    }
}

// Writes which rows are compared.
fn put_rows(text: &mut Text, x: u64, y: u64)
    requires { text.old.at < 2 ^ 32 }
    ensures { Wrote text.old (rows_text x y) 50 text.new }
{
    put_labelled(text, b"rows ", x);
    put_labelled(text, b" and ", y);
}

// Writes the line of rows x and y.
pub fn put_line(out: &mut [u8], top: u64, x: u64, y: u64, why: Reason) -> usize
    ensures { Put out.old 0 (line (top + 1) x y why) LONGEST out.new result }
{
    let mut text = Text { out, at: 0 };
    put_rows(&mut text, x, y);
    text.put_word(b": ");
    put_relation(&mut text, Relation::from(why));
    put_why(&mut text, top, why);
    text.at
}
