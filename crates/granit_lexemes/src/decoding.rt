//! What an escape between double quotes stands for (YAML 1.2.2, 5.7).
ghost use Rattle.std.specs.Prelude.{◌≡◌, ◌≤◌, if◌then◌else◌, IsTrue, IfSome, Some, None};
ghost use Rattle.granit_lexemes.specs.Decoding as spec;

/// The character that a letter behind a backslash stands for.
#[tactic(auto, unfolding(crate::specs::Decoding::letter_value))]
pub fn letter_value(letter: char) -> Option<char>
    ensures { result ≡ spec.letter_value letter }
{
    match letter {
        '0' => Some('\0'),
        'a' => Some('\u{7}'),
        'b' => Some('\u{8}'),
        't' | '\t' => Some('\t'),
        'n' => Some('\n'),
        'v' => Some('\u{B}'),
        'f' => Some('\u{C}'),
        'r' => Some('\r'),
        'e' => Some('\u{1B}'),
        ' ' | '"' | '/' | '\\' => Some(letter),
        'N' => Some('\u{85}'),
        '_' => Some('\u{A0}'),
        'L' => Some('\u{2028}'),
        'P' => Some('\u{2029}'),
        _ => None,
    }
}

/// How many hexadecimal digits the letters `x`, `u` and `U` want behind them.
#[tactic(auto, unfolding(crate::specs::Decoding::digit_count))]
pub fn digit_count(letter: char) -> Option<u32>
    ensures value { result ≡ spec.digit_count letter }
    ensures most { IfSome result (λ n. n ≤ 8) }
{
    match letter {
        'x' => Some(2),
        'u' => Some(4),
        'U' => Some(8),
        _ => None,
    }
}

/// Whether a number is the first half of a character in UTF-16.
#[tactic(auto, unfolding(crate::specs::Decoding::is_high))]
pub fn is_high_surrogate(number: u32) -> bool
    ensures { result ≡ spec.is_high number }
{
    0xD800 <= number && number <= 0xDBFF
}

/// Whether a number is the second half of a character in UTF-16.
#[tactic(auto, unfolding(crate::specs::Decoding::is_low))]
pub fn is_low_surrogate(number: u32) -> bool
    ensures { result ≡ spec.is_low number }
{
    0xDC00 <= number && number <= 0xDFFF
}

/// The character of two halves in UTF-16, where the second is one. Condition: the first is one.
#[tactic(auto, unfolding(crate::specs::Decoding::is_high, crate::specs::Decoding::is_low))]
pub fn join_surrogates(high: u32, low: u32) -> Option<char>
    requires { IsTrue (spec.is_high high) }
    ensures { result ≡ (if spec.is_low low then Some (spec.joined high low) else None) }
{
    if low < 0xDC00 || 0xDFFF < low {
        return None;
    }
    char::from_u32(0x10000 + (high - 0xD800) * 0x400 + (low - 0xDC00))
}
