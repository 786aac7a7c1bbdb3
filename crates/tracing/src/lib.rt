// The list of one read: its walk, gone once more over the result, with a line for each store compared.
#![tactic(auto)]

ghost use Rattle.std.specs.Prelude.{◌+◌, ◌*◌};
ghost use Rattle.range.specs.Store.{kept};
ghost use Rattle.row.specs.Bytes.{row_at, source_at};
ghost use Rattle.judge.specs.Run.{LIMIT};
ghost use Rattle.simplify.specs.Answer.{modulus};
ghost use Rattle.term.specs.Bytes.{look};
ghost use Rattle.term.specs.Walk.{walk};
ghost use Rattle.text.specs.Text.{Put, Wrote};
ghost use Rattle.listing.specs.List.{walk_lines, list_for, most};
ghost use Rattle.tracing.specs.Ready.{Telling, Listable};

use judge::LIMIT;
use listing::{put_found, put_read, put_result, put_stands, put_store};
use range::Store;
use row::{Kind, Row};
use term::{Met, Relation};
use text::Text;
use walks::Index;

// Writes a line for each store that the walk for the index j compares, from array row m on, and where the walk ends. The walk goes through the
// result; the instructions of its rows are those of the table. `top` is the largest word.
fn put_walk(
    text: &mut Text,
    top: u64,
    table: &[u8],
    res: &[u8],
    store: &Store,
    limit: usize,
    r: usize,
    j: Index,
    m: usize,
)
    requires { Telling table.now res.now store.now text.old.at limit r j m }
    ensures { Wrote text.old (walk_lines (top + 1) (look res.now) (kept store.now) (source_at table.now) j.row (walk (look res.now) (kept store.now) j.row limit m)) (256 * limit + 40) text.new }
{
    let mut n = m;
    for _compared in 0..limit {
        let x = Row::decode(res, n);
        if !x.is(Kind::Write) {
            return put_stands(text, n);
        }
        let b = x.b;
        let why = walks::reason(res, store, b, j);
        put_store(
            text,
            top,
            Row::source_at(table, n),
            j.row,
            Met {
                store: n,
                index: b,
                why: why,
            },
        );
        match Relation::from(why) {
            Relation::Same => return put_found(text, x.c),
            Relation::Apart => n = x.a,
            Relation::Unknown => return put_stands(text, n),
        }
    }
    put_stands(text, n);
}

// Writes the list of READ row r of the table.
pub fn put_list(out: &mut [u8], table: &[u8], res: &[u8], store: &Store, r: usize) -> usize
    requires { Listable table.now res.now r }
    ensures { Put out.old 0 (list_for (modulus table.now) LIMIT (look res.now) (kept store.now) (source_at table.now) r (row_at res.now r) (look table.now r)) (most (LIMIT + 1)) out.new result }
{
    let x = Row::decode(table, r);
    let m = x.a;
    let i = x.b;
    let source = Row::source_at(table, r);
    let mut text = Text { out, at: 0 };
    put_read(&mut text, source, r, m, i);
    let j = walks::index_at(res, store, i);
    let top = reasons::top_of(table);
    put_walk(&mut text, top, table, res, store, LIMIT, r, j, m);
    put_result(&mut text, r, Row::decode(res, r), source);
    text.at
}
