// The numbers of a line.
ghost use Rattle.std.specs.Prelude.{◌≡◌, ℕ, ◌<◌, List, [], ◌∷◌, length, Ok, Err, MatchResult, refl};
ghost use Rattle.std.specs.Char.{is_ascii_digit};
ghost use Rattle.std.specs.List.{list_all};
ghost use Rattle.scripts.specs.Words.{words_left};
ghost use Rattle.scripts.specs.Operands.{Reads, number_of, operands, followed_by};
ghost use Rattle.scripts.specs.Parsing.{parsed};

use crate::fault::LineFault;
use std::num::ParseIntError;
use std::str::{FromStr, SplitAsciiWhitespace};

// A type of the numbers that a line can write.
pub(crate) trait Operand: FromStr<Err = ParseIntError> + Copy {
    // The largest of them.
    const MOST: u32;

    ghost MOST: { ℕ };

    // The number that a value of the type is.
    ghost value: { Self → ℕ };

    // A word of digits is read as the number that it writes, unless that is too large.
    ghost reads: { Reads MOST value Self.from_str_gives };
}

// Kept: an implementation for each type, here and below. The library says of each type apart what its text is read as.
impl Operand for u32 {
    const MOST: u32 = u32::MAX;

    ghost MOST = { 4294967295 };

    ghost value = { λ n. n };

    ghost reads = { λ w r given. parsed 32 4294967295 w r refl given.0 };
}

impl Operand for u16 {
    const MOST: u32 = u16::MAX as u32;

    ghost MOST = { 65535 };

    ghost value = { λ n. n };

    ghost reads = { λ w r given. parsed 16 65535 w r refl given.0 };
}

// The number that the next word writes.
pub(crate) fn next_number<T: Operand>(words: &mut SplitAsciiWhitespace<'_>) -> Result<T, LineFault>
    ensures { MatchResult result (λ n. (ms : List ℕ) → operands (T.MOST ∷ ms) (words_left words.old) ≡ followed_by (T.value n) (operands ms (words_left words.new))) (λ f. (ms : List ℕ) → operands (T.MOST ∷ ms) (words_left words.old) ≡ Err f) }
{
    number(words.next().ok_or(LineFault::NumberMissing)?)
}

// The number that the only word left writes.
pub(crate) fn last_number<T: Operand>(mut words: SplitAsciiWhitespace<'_>) -> Result<T, LineFault>
    ensures { MatchResult result (λ n. operands (T.MOST ∷ []) (words_left words.entry) ≡ Ok (T.value n ∷ [])) (λ f. operands (T.MOST ∷ []) (words_left words.entry) ≡ Err f) }
{
    let n = next_number(&mut words)?;
    match words.next() {
        None => Ok(n),
        Some(_) => Err(LineFault::WordsLeft),
    }
}

// The number that a word writes.
#[tactic(auto, using(crate::proofs::Counting::digits_by_all))]
fn number<T: Operand>(word: &str) -> Result<T, LineFault>
    requires { 0 < length word.now }
    ensures { MatchResult result (λ n. number_of T.MOST word.now ≡ Ok (T.value n)) (λ f. number_of T.MOST word.now ≡ Err f) }
{
    if !all_digits(word) {
        return Err(LineFault::NotANumber);
    }
    word.parse().map_err(|_| LineFault::TooLarge(T::MOST))
}

// Whether every byte is a decimal digit.
fn all_digits(word: &str) -> bool
    ensures { result ≡ list_all is_ascii_digit word.now }
{
    word.bytes().all(|byte| byte.is_ascii_digit())
}
