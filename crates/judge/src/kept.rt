// 16: whether a kept result goes with a table as it stands.
ghost use Rattle.std.specs.Prelude.{◌≡◌};
ghost use Rattle.judge.specs.Kept.{kept_part, other_header, other_sorts, kept_wrong};
ghost use Rattle.judge.specs.Judge.{Beside, Holding};

use crate::calls::is_array;
use row::Row;

// Whether the two headers differ.
fn other_header(t: &[u8], kept: &[u8]) -> bool
    requires { Beside t.now kept.now }
    ensures { result ≡ other_header t.now kept.now }
{
    let there = &kept[..Row::HEADER];
    let here = &t[..Row::HEADER];
    there != here
}

// Whether some row is an array in one and a word in the other.
fn other_sorts(t: &[u8], kept: &[u8]) -> bool
    requires { Beside t.now kept.now }
    ensures { result ≡ other_sorts t.now kept.now }
{
    let n = table::rows_of(t);
    for x in 0..n {
        if is_array(kept, x) != is_array(t, x) {
            return true;
        }
    }
    false
}

// Whether the part of a kept result that is as long as the table t is refused as a table, or does not go with t.
fn part_wrong(t: &[u8], part: &[u8]) -> bool
    requires { Beside t.now part.now }
    ensures { result ≡ kept_wrong t.now part.now }
{
    scan::check(part).is_err() || other_header(t, part) || other_sorts(t, part)
}

// The same of the kept result itself.
pub fn wrong(t: &[u8], kept: &[u8]) -> bool
    requires { Holding t.now kept.now }
    ensures { result ≡ kept_wrong t.now (kept_part t.now kept.now) }
{
    part_wrong(t, &kept[..t.len()])
}
