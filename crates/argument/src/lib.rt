// What the arguments of a program give: numbers and known words.
#![tactic(auto)]

ghost use Rattle.std.specs.Prelude.{◌≡◌, ◌≤◌, length};
ghost use Rattle.argument.specs.Argument.{same_word, is_digit, number_of};

use std::env::FillError;
use std::rt::Env;

// the digits that a number of 64 bits has at most
pub const DIGITS: usize = 20;

// Whether a word is that other one.
pub fn is_word(word: &[u8], other: &[u8]) -> bool
    ensures { result ≡ same_word word.now other.now }
{
    word == other
}

fn is_digit(c: u8) -> bool
    ensures { result ≡ is_digit c }
{
    b'0' <= c && c <= b'9'
}

// The number that a word reads as.
pub fn number(word: &[u8]) -> Option<u64>
    ensures { result ≡ number_of word.now }
{
    if word.len() == 0 {
        return None;
    }
    if word.len() > DIGITS {
        return None;
    }
    let mut value: u64 = 0;
    for &c in word {
        if !is_digit(c) {
            return None;
        }
        let digit = (c - b'0') as u64;
        let tens = value.checked_mul(10)?;
        value = tens.checked_add(digit)?;
    }
    Some(value)
}

// Copies argument i of the program into `word` and answers its length; argument 0 is the program's name. One that is missing, or longer than the
// buffer, comes as an empty one.
pub fn word_at<R: Env>(rt: &R, i: usize, word: &mut [u8]) -> usize
    ensures { result ≤ length word.new }
{
    rt.arg(i, word).unwrap_or(0)
}

// How many arguments the program has. The program's name is counted too.
pub fn count<R: Env>(rt: &R) -> usize {
    let mut none = [0u8; 0];
    for i in 0..usize::MAX {
        if let Err(FillError::NotPresent) = rt.arg(i, &mut none) {
            return i;
        }
    }
    usize::MAX
}

// The number that argument i of the program gives.
pub fn number_at<R: Env>(rt: &R, i: usize) -> Option<u64> {
    let mut word = [0u8; DIGITS];
    let size = word_at(rt, i, &mut word);
    number(&word[..size])
}
