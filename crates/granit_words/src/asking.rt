//! The words `selftest SEED SIZE`.
ghost use Rattle.std.specs.Prelude.{◌≡◌, ℕ, Some, None, slice_get, IfNone, IfOk, IfErr, IfSome, true, false};
ghost use Rattle.std.specs.Fmt.{decimal};
ghost use Rattle.granit_words.specs.Asking.{Ask, AskWrongAt, BeginSelftest};
ghost use Rattle.granit_words.specs.Words.{IsNumber, spelled};

use crate::words::number_of;
use granit_base::TextList;

/// How many documents may be asked for.
const MOST_DOCUMENTS: usize = 100_000;

/// The word behind `i` others, where there is one.
fn word(words: &TextList, i: usize) -> Option<&str>
    ensures some { IfSome result (λ w. slice_get (spelled words.now) i ≡ Some w.now) }
    ensures none { IfNone result (slice_get (spelled words.now) i ≡ None) }
{
    match words.as_slice().get(i) {
        Some(word) => Some(word.as_str()),
        None => None,
    }
}

/// Whether the first word is `selftest`.
pub fn begin_selftest(words: &TextList) -> bool
    ensures yes { result ≡ true → BeginSelftest words.now }
    ensures no { result ≡ false → BeginSelftest words.now → ⊥ }
{
    match word(words, 0) {
        Some(word) => word == "selftest",
        None => false,
    }
}

/// The number that the word behind `i` others says, where it says one.
fn number(words: &TextList, i: usize) -> Option<usize>
    ensures some { IfSome result (λ n. IsNumber n × (slice_get (spelled words.now) i ≡ Some (decimal n))) }
    ensures none { IfNone result ((n : ℕ) → IsNumber n → slice_get (spelled words.now) i ≡ Some (decimal n) → ⊥) }
{
    match word(words, i) {
        Some(word) => number_of(word),
        None => None,
    }
}

/// The two numbers that the words say.
///
/// # Errors
///
/// The number of the first wrong word, from 1, or one past the last where a word is missing.
#[tactic(auto, using(crate::proofs::AskLemmas::wrong_words))]
pub fn read_asked(words: &TextList) -> Result<(u32, u32), usize>
    ensures right { IfOk result (λ p. Ask (spelled words.now) p.0 p.1) }
    ensures wrong { IfErr result (λ k. AskWrongAt (spelled words.now) k) }
{
    if !begin_selftest(words) {
        return Err(1);
    }
    let Some(seed) = number(words, 1) else {
        return Err(2);
    };
    let Some(size) = number(words, 2) else {
        return Err(3);
    };
    if size > MOST_DOCUMENTS {
        return Err(3);
    }
    if words.len() > 3 {
        return Err(4);
    }
    Ok((seed as u32, size as u32))
}
