//! The name of a tag: its handle followed by its suffix.
ghost use Rattle.std.specs.Prelude.{◌≡◌, ◌&&◌, not, false, [], ◌++◌, codes, IfSome, IfOk};
ghost use Rattle.std.specs.Str.{chars};
ghost use Rattle.granit_base.specs.Written as written;
ghost use Rattle.granit_event.specs.Names as spec;

use granit_base::{NoMemory, OwnedText, Text, is_at_end};
use std::alloc::Global;

/// Whether two texts have the same characters.
pub(crate) fn same_text(a: &str, b: &str) -> bool
    ensures { result ≡ written.same_text (chars a.now) (chars b.now) }
{
    Text::borrowed(a) == Text::borrowed(b)
}

/// What follows a front in a text, where the text begins with it.
fn behind_front<'a>(front: &str, text: &'a str) -> Option<&'a str>
    ensures { spec.told result ≡ spec.behind_front (chars front.now) (chars text.now) }
{
    text.strip_prefix(front)
}

/// What follows a front in two texts, the first followed by the second: what is left of each.
#[tactic(auto, using(crate::proofs::NameLemmas::behind_two))]
pub(crate) fn behind<'a>(front: &str, first: &'a str, second: &'a str) -> Option<(&'a str, &'a str)>
    ensures joined { spec.told_pair result ≡ spec.behind_front (chars front.now) (chars first.now ++ chars second.now) }
    ensures first { IfSome result (λ p. spec.more_than (chars p.0.now)
        ≡ spec.has_more (spec.behind_front (chars front.now) (chars first.now))) }
{
    match behind_front(front, first) {
        Some(left) => Some((left, second)),
        None => match behind_front(first, front) {
            None => None,
            Some(left) => match behind_front(left, second) {
                None => None,
                Some(rest) => Some(("", rest)),
            },
        },
    }
}

/// Whether a name is one text followed by another.
#[tactic(auto, using(crate::proofs::NameLemmas::joined_other, crate::proofs::NameLemmas::joined_left))]
fn is_joined(name: &str, first: &str, second: &str) -> bool
    ensures { result ≡ written.same_text (chars first.now ++ chars second.now) (chars name.now) }
{
    match behind_front(first, name) {
        None => false,
        Some(left) => same_text(second, left),
    }
}

/// A name, where it is one text followed by another, else what was found before.
fn name_or(
    name: &'static str,
    first: &str,
    second: &str,
    found: Option<&'static str>,
) -> Option<&'static str>
    ensures { spec.told result ≡ spec.name_or (chars name.now) (chars first.now ++ chars second.now)
        (spec.told found.entry) }
{
    if is_joined(name, first, second) {
        Some(name)
    } else {
        found
    }
}

/// The name of the core schema that is one text followed by another (YAML 1.2.2, 10.3.2).
fn core_name(first: &str, second: &str) -> Option<&'static str>
    ensures { spec.told result ≡ spec.named spec.core_names (chars first.now ++ chars second.now) }
{
    let found = name_or("str", first, second, None);
    let found = name_or("seq", first, second, found);
    let found = name_or("null", first, second, found);
    let found = name_or("map", first, second, found);
    let found = name_or("int", first, second, found);
    let found = name_or("float", first, second, found);
    name_or("bool", first, second, found)
}

/// The name of a tag of the core schema, where one text followed by another is such a tag (YAML
/// 1.2.2, 10.3.2).
pub(crate) fn core_suffix(first: &str, second: &str) -> Option<&'static str>
    ensures { spec.told result ≡ spec.core_suffix_of (chars first.now ++ chars second.now) }
{
    match behind("tag:yaml.org,2002:", first, second) {
        None => None,
        Some((first, second)) => core_name(first, second),
    }
}

/// Two texts, one after the other.
pub(crate) fn joined(alloc: Global, first: &str, second: &str) -> Result<OwnedText, NoMemory>
    ensures { IfOk result (λ t. t ≡ record { characters = chars first.now ++ chars second.now; is_borrowed = false }) }
{
    let mut text = String::from_str(alloc, first)?;
    text.push_str(second)?;
    Ok(OwnedText::new(text))
}

/// One text followed by another, lent where the first is empty.
#[tactic(auto, using(crate::proofs::NameLemmas::nothing_first, crate::proofs::NameLemmas::something_first))]
pub(crate) fn lent_or_joined<'a>(
    alloc: Global,
    first: &'a str,
    second: &'a str,
) -> Result<Text<'a>, NoMemory>
    ensures { IfOk result (λ t. t ≡ spec.lent_unless (spec.more_than (chars first.now))
        (chars first.now ++ chars second.now)) }
{
    if is_at_end(first) {
        Ok(Text::borrowed(second))
    } else {
        Ok(joined(alloc, first, second)?.into_text())
    }
}

/// A suffix between `!<` and `>` (YAML 1.2.2, 6.9.1).
pub(crate) fn verbatim(alloc: Global, suffix: &str) -> Result<OwnedText, NoMemory>
    ensures { IfOk result (λ t. t ≡ record { characters = spec.verbatim (chars suffix.now); is_borrowed = false }) }
{
    let mut text = String::from_str(alloc, "!<")?;
    text.push_str(suffix)?;
    text.push_str(">")?;
    Ok(OwnedText::new(text))
}

/// Whether a handle is that of a verbatim tag: it is empty, and the suffix isn't `!` (YAML 1.2.2,
/// 6.9.1).
pub(crate) fn is_verbatim(original_handle: &str, suffix: &str) -> bool
    ensures { result ≡ (written.same_text (chars original_handle.now) []
        && not (written.same_text (chars suffix.now) (codes "!"))) }
{
    same_text(original_handle, "") && !same_text(suffix, "!")
}
