// The answer to a question.
ghost use Rattle.std.specs.Prelude.{◌≡◌, ◌^◌};
ghost use Rattle.range.specs.Store.{kept};
ghost use Rattle.term.specs.Bytes.{look};
ghost use Rattle.term.specs.Relation.{range_of};
ghost use Rattle.term.specs.Reason.{reason};
ghost use Rattle.walks.specs.Ready.{Reached};
ghost use Rattle.needed.specs.Needed.{TwoWords};
ghost use Rattle.question.specs.Ask.{comparison_of, ask_answer};

use crate::Comparison;
use needed::keep_two;
use range::Store;
use simplify::Answer;
use table::Refusal;
use term::Reason;
use word::Width;

// Why of rows x and y, by the ranges that the store has.
fn reason_by(res: &[u8], store: &Store, x: usize, y: usize) -> Reason
    requires x_reached { Reached res.now x }
    requires y_reached { Reached res.now y }
    ensures { result ≡ reason (look res.now) (kept store.now) x y }
{
    walks::reason(res, store, x, walks::index_at(res, store, y))
}

// Why of word rows x and y of a result. Where they share a base, no range is asked for.
fn why(res: &[u8], w: Width, x: usize, y: usize) -> Reason
    requires { TwoWords res.now w x y }
    ensures { result ≡ reason (look res.now) (range_of (2 ^ w) (look res.now)) x y }
{
    let mut store = Store::new();
    if walks::same_base(walks::value_at(res, x), walks::value_at(res, y)) {
        return reason_by(res, &store, x, y);
    }
    keep_two(res, &mut store, w, x, y);
    reason_by(res, &store, x, y)
}

// Why what is known of two rows is known, or the refusal.
fn known(table: &[u8], kept: &[u8], first: u64, second: u64) -> Result<Reason, Refusal>
    ensures { comparison_of result ≡ ask_answer table.now kept.now first second }
{
    judge::pair(table, kept, first, second)?;
    let x = first as usize;
    let y = second as usize;
    judge::words(table, kept, x, y)?;
    Ok(why(&kept[..table.len()], table::word_width(table), x, y))
}

// What is known of two rows of a table, by their rows of its kept result, and why. Document 02, A6.
pub fn ask(table: &[u8], kept: &[u8], first: u64, second: u64) -> Comparison
    ensures { result ≡ ask_answer table.now kept.now first second }
{
    match known(table, kept, first, second) {
        Ok(why) => Comparison {
            answer: Answer {
                refusal: 0,
                row: 0,
                removed: 0,
                touched: 0,
                compared: 0,
            },
            why,
        },
        Err(refusal) => Comparison {
            answer: refusal.into(),
            why: Reason::Undecided,
        },
    }
}
