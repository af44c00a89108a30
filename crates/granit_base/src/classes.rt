//! The classes of characters.
ghost use Rattle.std.specs.Prelude.{◌≡◌, ◌==◌, ◌||◌, IsTrue, not};
ghost use Rattle.std.specs.List.{find};
ghost use Rattle.std.specs.Str.{chars};
ghost use Rattle.granit_base.specs.Classes as class;

/// NUL.
#[tactic(auto, unfolding(crate::specs::Classes::is_z))]
pub fn is_z(c: char) -> bool
    ensures { result ≡ class.is_z c }
{
    c == '\0'
}

/// A line feed or a carriage return (YAML 1.2.2, 5.4).
#[tactic(auto, unfolding(crate::specs::Classes::is_break))]
pub fn is_break(c: char) -> bool
    ensures { result ≡ class.is_break c }
{
    c == '\n' || c == '\r'
}

/// A break or NUL.
#[tactic(auto, unfolding(crate::specs::Classes::is_breakz))]
pub fn is_breakz(c: char) -> bool
    ensures { result ≡ class.is_breakz c }
{
    is_break(c) || is_z(c)
}

/// A space or a tab (YAML 1.2.2, 5.5).
#[tactic(auto, unfolding(crate::specs::Classes::is_blank))]
pub fn is_blank(c: char) -> bool
    ensures { result ≡ class.is_blank c }
{
    c == ' ' || c == '\t'
}

/// A blank, a break or NUL.
#[tactic(auto, unfolding(crate::specs::Classes::is_blank_or_breakz))]
pub fn is_blank_or_breakz(c: char) -> bool
    ensures { result ≡ class.is_blank_or_breakz c }
{
    is_blank(c) || is_breakz(c)
}

/// A decimal digit (YAML 1.2.2, 5.6).
#[tactic(auto, unfolding(crate::specs::Classes::is_digit))]
pub fn is_digit(c: char) -> bool
    ensures { result ≡ class.is_digit c }
{
    c.is_ascii_digit()
}

/// A hexadecimal digit (YAML 1.2.2, 5.6).
#[tactic(auto, unfolding(crate::specs::Classes::is_hex, crate::specs::Classes::is_digit))]
pub fn is_hex(c: char) -> bool
    ensures { result ≡ class.is_hex c }
{
    matches!(c, '0'..='9' | 'A'..='F' | 'a'..='f')
}

/// A word character or `_`.
#[tactic(auto, unfolding(crate::specs::Classes::is_alpha))]
pub fn is_alpha(c: char) -> bool
    ensures { result ≡ class.is_alpha c }
{
    is_word_char(c) || c == '_'
}

/// A letter or digit of ASCII, or `-` (YAML 1.2.2, 5.6).
#[tactic(auto, unfolding(crate::specs::Classes::is_word_char, crate::specs::Classes::is_digit))]
pub fn is_word_char(c: char) -> bool
    ensures { result ≡ class.is_word_char c }
{
    matches!(c, '0'..='9' | 'A'..='Z' | 'a'..='z' | '-')
}

/// A flow indicator: `,` `[` `]` `{` `}` (YAML 1.2.2, 5.3).
#[tactic(auto, unfolding(crate::specs::Classes::is_flow))]
pub fn is_flow(c: char) -> bool
    ensures { result ≡ class.is_flow c }
{
    matches!(c, ',' | '[' | ']' | '{' | '}')
}

/// The byte-order mark U+FEFF (YAML 1.2.2, 5.2).
#[tactic(auto, unfolding(crate::specs::Classes::is_bom))]
pub fn is_bom(c: char) -> bool
    ensures { result ≡ class.is_bom c }
{
    c == '\u{feff}'
}

/// A printable character (YAML 1.2.2, 5.1).
#[tactic(auto, unfolding(crate::specs::Classes::is_printable, crate::specs::Classes::is_break))]
pub fn is_printable(c: char) -> bool
    ensures { result ≡ class.is_printable c }
{
    matches!(c, '\t' | '\n' | '\r' | '\u{20}'..='\u{7e}') || is_printable_wide(c)
}

/// What is printable beyond ASCII.
fn is_printable_wide(c: char) -> bool
    ensures { result
        ≡ ((c == 0x85 || class.is_within 0xA0 0xD7FF c)
        || (class.is_within 0xE000 0xFFFD c || class.is_within 0x10000 0x10FFFF c)) }
{
    matches!(c, '\u{85}' | '\u{a0}'..='\u{d7ff}' | '\u{e000}'..='\u{fffd}' | '\u{10000}'..='\u{10ffff}')
}

/// A printable character but breaks and the byte-order mark (YAML 1.2.2, 5.4).
#[tactic(auto, unfolding(crate::specs::Classes::is_yaml_non_break))]
pub fn is_yaml_non_break(c: char) -> bool
    ensures { result ≡ class.is_yaml_non_break c }
{
    is_printable(c) && !is_break(c) && !is_bom(c)
}

/// The same without blanks (YAML 1.2.2, 5.5).
#[tactic(auto, unfolding(crate::specs::Classes::is_yaml_non_space))]
pub fn is_yaml_non_space(c: char) -> bool
    ensures { result ≡ class.is_yaml_non_space c }
{
    is_yaml_non_break(c) && !is_blank(c)
}

/// A character of an anchor's name (YAML 1.2.2, 6.9.2).
#[tactic(auto, unfolding(crate::specs::Classes::is_anchor_char))]
pub fn is_anchor_char(c: char) -> bool
    ensures { result ≡ class.is_anchor_char c }
{
    is_yaml_non_space(c) && !is_flow(c)
}

/// A character of a URI (YAML 1.2.2, 5.6).
#[tactic(auto, unfolding(crate::specs::Classes::is_uri_char, crate::specs::Classes::is_uri_sign))]
pub fn is_uri_char(c: char) -> bool
    ensures { result ≡ class.is_uri_char c }
{
    is_word_char(c)
        || matches!(
            c,
            '#' | ';'
                | '/'
                | '?'
                | ':'
                | '@'
                | '&'
                | '='
                | '+'
                | '$'
                | ','
                | '_'
                | '.'
                | '!'
                | '~'
                | '*'
                | '\''
                | '('
                | ')'
                | '['
                | ']'
                | '%'
        )
}

/// A character of a tag's suffix (YAML 1.2.2, 5.6).
#[tactic(auto, unfolding(crate::specs::Classes::is_tag_char))]
pub fn is_tag_char(c: char) -> bool
    ensures { result ≡ class.is_tag_char c }
{
    is_uri_char(c) && !(is_flow(c) || c == '!')
}

/// The value of a hexadecimal digit, 0 to 15.
#[tactic(auto, unfolding(crate::specs::Classes::is_hex, crate::specs::Classes::is_digit, crate::specs::Classes::hex_value))]
pub fn as_hex(c: char) -> u32
    requires { IsTrue (class.is_hex c) }
    ensures { result ≡ class.hex_value c }
{
    let code = c as u32;
    match c {
        '0'..='9' => code - 0x30,
        'A'..='F' => code - 0x37,
        _ => code - 0x57,
    }
}

/// The first character of a text that isn't printable (YAML 1.2.2, 5.1).
pub fn find_non_printable(s: &str) -> Option<char>
    ensures { result ≡ find (λ c. not (class.is_printable c)) (chars s.now) }
{
    s.chars().find(|c| !is_printable(*c))
}
