// The limit that the program's arguments give.
ghost use Rattle.std.specs.Prelude.{◌≡◌};
ghost use Rattle.show.specs.Limit.{within, limit_from};

use argument::DIGITS;
use judge::LIMIT;
use std::rt::Env;

// the bytes of `--limit`
const WORD: usize = 7;

// A number, unless it is above the greatest limit.
fn within(given: Option<u64>) -> Option<u64>
    ensures { result ≡ within given }
{
    let limit = given?;
    if limit > LIMIT as u64 {
        return None;
    }
    Some(limit)
}

// The limit that `count` arguments give, the program's name counted too: argument 1 is `word`, argument 2 is `value`.
fn limit_from(count: usize, word: &[u8], value: &[u8]) -> Option<u64>
    ensures { result ≡ limit_from count word.now value.now }
{
    if count == 1 {
        return Some(LIMIT as u64);
    }
    if count != 3 {
        return None;
    }
    if !argument::is_word(word, b"--limit") {
        return None;
    }
    within(argument::number(value))
}

// The limit that the arguments give. One that is missing, or longer than its buffer, comes as an empty one; of a longer one the same is read
// (`cut_reads_alike`).
pub fn limit_asked<R: Env>(rt: &R) -> Option<u64> {
    let mut word = [0u8; WORD];
    let size = argument::word_at(rt, 1, &mut word);
    let mut value = [0u8; DIGITS];
    let digits = argument::word_at(rt, 2, &mut value);
    limit_from(argument::count(rt), &word[..size], &value[..digits])
}
