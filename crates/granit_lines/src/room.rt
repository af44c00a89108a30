//! Pieces of a line, put behind one another into room that is already there.
ghost use Rattle.std.specs.Prelude.{◌≡◌, ◌+◌, ◌≤◌, ◌<◌, ℕ, List, [], ◌∷◌, ◌++◌, length, slice_index, take, true};
ghost use Rattle.std.specs.List.{All};
ghost use Rattle.granit_lines.specs.Pieces.{is_plain};

use crate::quoting::is_plain_byte;

/// A byte behind so many; where it ends.
#[inline(always)]
pub fn put_byte(room: &mut [u8], at: usize, byte: u8) -> usize
    requires room { at + 1 ≤ length room.old }
    ensures end { result ≡ at + 1 }
    ensures put { take result room.new ≡ take at room.old ++ byte ∷ [] }
{
    room[at] = byte;
    at + 1
}

/// Bytes behind so many; where they end. Where their count is known they are stored at once.
#[inline(always)]
pub fn put_bytes(room: &mut [u8], at: usize, bytes: &[u8]) -> usize
    requires room { at + length bytes.now ≤ length room.old }
    ensures end { result ≡ at + length bytes.now }
    ensures put { take result room.new ≡ take at room.old ++ bytes.now }
{
    let end = at + bytes.len();
    room[at..end].copy_from_slice(bytes);
    end
}

/// A word behind so many bytes; where it ends.
#[inline(always)]
pub fn put_word(room: &mut [u8], at: usize, word: &str) -> usize
    requires room { at + length word.now ≤ length room.old }
    ensures end { result ≡ at + length word.now }
    ensures put { take result room.new ≡ take at room.old ++ word.now }
{
    put_bytes(room, at, word.as_bytes())
}

/// Whether four bytes stand for themselves.
#[inline(always)]
fn are_plain(bytes: &[u8], count: usize) -> bool
    requires within { count + 4 ≤ length bytes.now }
    ensures first { result ≡ true → is_plain (slice_index bytes.now count) ≡ true }
    ensures second { result ≡ true → is_plain (slice_index bytes.now (count + 1)) ≡ true }
    ensures third { result ≡ true → is_plain (slice_index bytes.now (count + 2)) ≡ true }
    ensures fourth { result ≡ true → is_plain (slice_index bytes.now (count + 3)) ≡ true }
{
    is_plain_byte(bytes[count])
        && is_plain_byte(bytes[count + 1])
        && is_plain_byte(bytes[count + 2])
        && is_plain_byte(bytes[count + 3])
}

/// Four more of the bytes that are put; how many they are then. All are read before one is written, so each is done at
/// once.
#[inline(always)]
fn put_four(room: &mut [u8], at: usize, bytes: &[u8], count: usize) -> usize
    requires within { count + 4 ≤ length bytes.now }
    requires room { at + (count + 4) ≤ length room.old }
    ensures count { result ≡ count + 4 }
    ensures size { length room.new ≡ length room.old }
    ensures put { (old : List ℕ) → take (at + count) room.old ≡ take at old ++ take count bytes.now
        → take (at + (count + 4)) room.new ≡ take at old ++ take (count + 4) bytes.now }
{
    let first = bytes[count];
    let second = bytes[count + 1];
    let third = bytes[count + 2];
    let fourth = bytes[count + 3];
    let place = at + count;
    room[place] = first;
    room[place + 1] = second;
    room[place + 2] = third;
    room[place + 3] = fourth;
    count + 4
}

/// The bytes in front that stand for themselves, four at a time, behind so many; how many they are.
#[inline(always)]
fn put_fours(room: &mut [u8], at: usize, bytes: &[u8]) -> usize
    requires room { at + length bytes.now ≤ length room.old }
    ensures within { result ≤ length bytes.now }
    ensures size { length room.new ≡ length room.old }
    ensures plain { All (λ b. is_plain b ≡ true) (take result bytes.now) }
    ensures put { take (at + result) room.new ≡ take at room.old ++ take result bytes.now }
{
    let mut count = 0;
    'fours: while bytes.len() - count >= 4 && are_plain(bytes, count) {
        count = put_four(room, at, bytes, count);
    }
    count
}

/// The same, one at a time.
#[inline(always)]
fn put_each(room: &mut [u8], at: usize, bytes: &[u8]) -> usize
    requires room { at + length bytes.now ≤ length room.old }
    ensures within { result ≤ length bytes.now }
    ensures plain { All (λ b. is_plain b ≡ true) (take result bytes.now) }
    ensures put { take (at + result) room.new ≡ take at room.old ++ take result bytes.now }
{
    let mut count = 0;
    'bytes: while count < bytes.len() && is_plain_byte(bytes[count]) {
        room[at + count] = bytes[count];
        count += 1;
    }
    count
}

/// The bytes in front that stand for themselves, behind so many; how many they are.
#[inline(always)]
pub fn put_plain(room: &mut [u8], at: usize, bytes: &[u8]) -> usize
    requires room { at + length bytes.now ≤ length room.old }
    ensures within { result ≤ length bytes.now }
    ensures plain { All (λ b. is_plain b ≡ true) (take result bytes.now) }
    ensures put { take (at + result) room.new ≡ take at room.old ++ take result bytes.now }
{
    let front = put_fours(room, at, bytes);
    front + put_each(room, at + front, &bytes[front..])
}
