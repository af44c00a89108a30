//! Numbers in decimal digits, most of them near the last one of their kind.
ghost use Rattle.std.specs.Prelude.{◌≡◌, ◌+◌, ◌-◌, ◌/◌, ◌%◌, ◌^◌, ◌<◌, ◌≤◌, [], ◌∷◌, ◌++◌, length, take};
ghost use Rattle.std.specs.Fmt.{decimal};

use crate::room::{put_byte, put_bytes};
use itoa::write_digits;

/// All numbers of two digits.
static PAIRS: [u8; 200] = *b"00010203040506070809101112131415161718192021222324\
    25262728293031323334353637383940414243444546474849\
    50515253545556575859606162636465666768697071727374\
    75767778798081828384858687888990919293949596979899";

/// Below it a number's leading digits are eight at most.
const FAR: usize = 10_000_000_000;

/// A number's digits without the last two, kept for the next one, which mostly has the same.
#[derive(Clone, Copy)]
pub struct LeadingDigits {
    /// The number with zeros in the place of the last two.
    base: usize,
    digits: [u8; 8],
    count: usize,
    ghost even: { base % 100 ≡ 0 },
    ghost large: { 100 ≤ base },
    ghost near: { base < 10 ^ 10 },
    ghost few: { count ≤ 8 },
    ghost told: { take count digits ≡ decimal (base / 100) },
}

impl LeadingDigits {
    /// Those of a hundred.
    pub fn new() -> LeadingDigits {
        LeadingDigits {
            base: 100,
            digits: *b"1-------",
            count: 1,
        }
    }

    /// Those of a number of three digits or more, which mostly stands in the next hundred.
    fn behind(&self, n: usize) -> LeadingDigits
        requires large { 100 ≤ n }
        requires near { n < 10 ^ 10 }
        ensures { result.base ≡ n - n % 100 }
    {
        let last = self.count - 1;
        let ahead = n.wrapping_sub(self.base);
        if ahead < 100 || 200 <= ahead || self.digits[last] == b'9' {
            return LeadingDigits::of(n);
        }
        let mut digits = self.digits;
        digits[last] += 1;
        LeadingDigits {
            base: self.base + 100,
            digits,
            count: self.count,
        }
    }

    /// Those of any.
    #[inline(never)]
    fn of(n: usize) -> LeadingDigits
        requires large { 100 ≤ n }
        requires near { n < 10 ^ 10 }
        ensures { result.base ≡ n - n % 100 }
    {
        let mut buffer = [0; 8];
        let start = write_digits((n / 100) as u64, &mut buffer, 8);
        let mut digits = [0; 8];
        let count = put_bytes(&mut digits, 0, &buffer[start..]);
        LeadingDigits {
            base: n - n % 100,
            digits,
            count,
        }
    }
}

/// Eight digits behind so many bytes. Stores one by one become one, where a copy asks first whether the two overlap.
#[inline(always)]
pub fn put_eight(room: &mut [u8], at: usize, digits: [u8; 8])
    requires room { at + 8 ≤ length room.old }
    ensures put { take (at + 8) room.new ≡ take at room.old ++ digits }
{
    room[at] = digits[0];
    room[at + 1] = digits[1];
    room[at + 2] = digits[2];
    room[at + 3] = digits[3];
    room[at + 4] = digits[4];
    room[at + 5] = digits[5];
    room[at + 6] = digits[6];
    room[at + 7] = digits[7];
}

/// Two digits behind so many bytes; where they end.
#[inline(always)]
fn put_pair(room: &mut [u8], at: usize, pair: usize) -> usize
    requires room { at + 2 ≤ length room.old }
    requires pair { pair < 100 }
    ensures end { result ≡ at + 2 }
    ensures put { take result room.new ≡ take at room.old ++ (48 + pair / 10) ∷ (48 + pair % 10) ∷ [] }
{
    let from = pair * 2;
    room[at] = PAIRS[from];
    room[at + 1] = PAIRS[from + 1];
    at + 2
}

/// A number of two digits at most; where it ends.
#[inline(always)]
fn put_short(room: &mut [u8], at: usize, n: usize) -> usize
    requires room { at + 20 ≤ length room.old }
    requires short { n < 100 }
    ensures end { result ≤ at + 20 }
    ensures put { take result room.new ≡ take at room.old ++ decimal n }
{
    if n < 10 {
        return put_byte(room, at, b'0' + n as u8);
    }
    put_pair(room, at, n)
}

/// Any number; where it ends.
fn put_any(room: &mut [u8], at: usize, n: usize) -> usize
    requires room { at + 20 ≤ length room.old }
    ensures end { result ≤ at + 20 }
    ensures put { take result room.new ≡ take at room.old ++ decimal n }
{
    let mut buffer = [0; 20];
    let start = write_digits(n as u64, &mut buffer, 20);
    put_bytes(room, at, &buffer[start..])
}

/// A number by the leading digits that are kept; where it ends.
#[inline(always)]
fn put_near(leading: &LeadingDigits, room: &mut [u8], at: usize, pair: usize) -> usize
    requires room { at + 20 ≤ length room.old }
    requires near { pair < 100 }
    ensures end { result ≤ at + 20 }
    ensures put { take result room.new ≡ take at room.old ++ decimal (leading.now.base + pair) }
{
    put_eight(room, at, leading.digits);
    put_pair(room, at + leading.count, pair)
}

/// A number with other leading digits than those that are kept, in whose place its own are kept then; where it ends.
#[inline(never)]
fn put_far(leading: &mut LeadingDigits, room: &mut [u8], at: usize, n: usize) -> usize
    requires room { at + 20 ≤ length room.old }
    requires large { 100 ≤ n }
    ensures end { result ≤ at + 20 }
    ensures put { take result room.new ≡ take at room.old ++ decimal n }
{
    if n >= FAR {
        return put_any(room, at, n);
    }
    *leading = leading.behind(n);
    put_near(leading, room, at, n - leading.base)
}

/// A number behind so many bytes; where it ends.
#[inline(always)]
pub fn put_number(leading: &mut LeadingDigits, room: &mut [u8], at: usize, n: usize) -> usize
    requires room { at + 20 ≤ length room.old }
    ensures end { result ≤ at + 20 }
    ensures put { take result room.new ≡ take at room.old ++ decimal n }
{
    if n < 100 {
        return put_short(room, at, n);
    }
    let pair = n.wrapping_sub(leading.base);
    if pair >= 100 {
        return put_far(leading, room, at, n);
    }
    put_near(leading, room, at, pair)
}
