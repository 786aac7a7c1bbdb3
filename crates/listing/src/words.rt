// The lines of a list, written into a text. `top` is the largest word.
ghost use Rattle.std.specs.Prelude.{◌+◌, ◌<◌, ◌^◌, ◌++◌, length};
ghost use Rattle.text.specs.Text.{ascii, decimal, Wrote};
ghost use Rattle.listing.specs.List.{access_text, read_line, store_line, found_line, stands_line, result_line};
ghost use Rattle.listing.specs.Ready.{Numbered};

use lines::put_line;
use reasons::{put_labelled, put_why};
use row::Row;
use term::Met;
use text::Text;

// Writes a word and a number, as the end of a line.
fn put_last(text: &mut Text, word: &[u8], v: u64)
    requires { text.old.at + length word.now < 2 ^ 62 }
    ensures { Wrote text.old (word.now ++ decimal v ++ ascii "\n") (length word.now + 21) text.new }
{
    put_labelled(text, word, v);
    text.put_byte(b'\n');
}

// Writes how the line of a load or a store begins: its instruction, a word, and its row.
fn put_access(text: &mut Text, source: u64, word: &[u8], r: usize)
    requires { text.old.at + length word.now < 2 ^ 61 }
    ensures { Wrote text.old (access_text source word.now r) (length word.now + 52) text.new }
{
    put_labelled(text, b"instruction ", source);
    put_labelled(text, word, r as u64);
}

// Writes the first line: READ row r, of array m at index i, recorded at instruction `source`.
pub fn put_read(text: &mut Text, source: u64, r: usize, m: usize, i: usize)
    requires { text.old.at < 2 ^ 32 }
    ensures { Wrote text.old (read_line source r m i) 116 text.new }
{
    put_access(text, source, b": read ", r);
    put_labelled(text, b", array ", m as u64);
    put_last(text, b", index ", i as u64);
}

// Writes which store was compared, and the rows of the two indexes.
fn put_indexes(text: &mut Text, source: u64, store: usize, index: usize, i: usize)
    requires { text.old.at < 2 ^ 32 }
    ensures { Wrote text.old (access_text source (ascii ": store ") store ++ ascii ", index " ++ decimal index ++ ascii " against " ++ decimal i) 117 text.new }
{
    put_access(text, source, b": store ", store);
    put_labelled(text, b", index ", index as u64);
    put_labelled(text, b" against ", i as u64);
}

// Writes the line of a store that was recorded at instruction `source` and compared with index row i.
pub fn put_store(text: &mut Text, top: u64, source: u64, i: usize, s: Met)
    requires place { text.old.at < 2 ^ 32 }
    requires numbered { Numbered source i s }
    ensures { Wrote text.old (store_line (top + 1) source i s) 256 text.new }
{
    put_indexes(text, source, s.store, s.index, i);
    put_why(text, top, s.why);
}

// Writes that the walk found the element in row c. This and the next are names of what `put_last` writes by a given word: each has a promise of its own.
pub fn put_found(text: &mut Text, c: usize)
    requires { text.old.at < 2 ^ 32 }
    ensures { Wrote text.old (found_line c) 40 text.new }
{
    put_last(text, b"found element ", c as u64);
}

// Writes that the read stands on array m.
pub fn put_stands(text: &mut Text, m: usize)
    requires { text.old.at < 2 ^ 32 }
    ensures { Wrote text.old (stands_line m) 40 text.new }
{
    put_last(text, b"stands on array ", m as u64);
}

// Writes the last line: result row r, which is x and was recorded at instruction `source`.
pub fn put_result(text: &mut Text, r: usize, x: Row, source: u64)
    requires { text.old.at < 2 ^ 32 }
    ensures { Wrote text.old (result_line r x source) 175 text.new }
{
    text.put_word(b"result ");
    put_line(text, r, x, source);
}
