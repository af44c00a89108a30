//! Line feeds, each with the spaces behind it, seen at once.
ghost use Rattle.std.specs.Prelude.{◌≡◌, ◌≤◌, ◌+◌, true, IfSome, take, drop};
ghost use Rattle.std.specs.Str.{chars, is_utf8};
ghost use Rattle.granit_base.specs.Place.{first};
ghost use Rattle.granit_runs.specs.Cuts.{IsAsciiFront, SpellsFront};
ghost use Rattle.granit_runs.specs.Lines.{IsLines, is_line_gap, is_visible, feed_count, column_behind};
ghost use Rattle.granit_runs.specs.Runs.{starts};

/// How many line feeds and spaces stand in front of a visible character of ASCII, a line feed first, how many of them
/// are line feeds, and how many spaces stand behind the last one; None elsewhere (YAML 1.2.2, 6.1).
#[inline(always)]
pub fn lines_front(s: &str) -> Option<(usize, usize, usize)>
    ensures front { IfSome result (λ r. IsAsciiFront (starts is_line_gap) s.now r.0) }
    ensures lines { IfSome result (λ r. IsLines (chars s.now) r.0 r.1 r.2) }
    ensures clear { IfSome result (λ r. is_visible (first (chars (drop r.0 s.now))) ≡ true) }
    ensures few { IfSome result (λ r. (r.1 ≤ r.0) × (r.2 ≤ r.0)) }
{
    let bytes = s.as_bytes();
    let mut at = 0;
    let mut lines = 0;
    let mut spaces = 0;
    'lines: while at < bytes.len() && bytes[at] == b'\n' {
        at += 1;
        spaces = spaces_at(s, at);
        at += spaces;
        lines += 1;
    }
    if lines > 0 && at < bytes.len() && is_graphic(bytes[at]) {
        return Some((at, lines, spaces));
    }
    None
}

/// What follows so many bytes, which are line feeds and spaces.
#[inline(always)]
pub fn behind_lines(s: &str, count: usize) -> &str
    requires { IsAsciiFront (starts is_line_gap) s.now count }
    ensures value { result.now ≡ drop count s.now }
    ensures text { chars result.now ≡ drop count (chars s.now) }
    ensures bytes { SpellsFront s.now count result.now }
    ensures utf8 { is_utf8 result.now ≡ true }
{
    &s[count..]
}

/// How many spaces stand behind so many bytes, which are line feeds and spaces.
#[inline(always)]
fn spaces_at(s: &str, from: usize) -> usize
    requires { IsAsciiFront (starts is_line_gap) s.now from }
    ensures front { IsAsciiFront (starts is_line_gap) s.now (from + result) }
    ensures lines { feed_count (take (from + result) (chars s.now)) ≡ feed_count (take from (chars s.now)) }
    ensures spaces { column_behind 0 (take (from + result) (chars s.now))
        ≡ column_behind 0 (take from (chars s.now)) + result }
{
    let bytes = s.as_bytes();
    let mut count = 0;
    'spaces: while from + count < bytes.len() && bytes[from + count] == b' ' {
        count += 1;
    }
    count
}

/// Whether a byte is a character from `!` to `~`.
#[inline(always)]
fn is_graphic(byte: u8) -> bool
    ensures { result ≡ is_visible byte }
{
    matches!(byte, b'!'..=b'~')
}
