//! Tags compared and printed.
ghost use Rattle.std.specs.Prelude.{◌≡◌};
ghost use Rattle.std.specs.Cmp.Lexicographic.{slice_cmp};
ghost use Rattle.std.specs.Ordering.{nat_cmp};
ghost use Rattle.std.specs.Str.{chars, encode_utf8_all};

use crate::names::same_text;
use crate::tag::Tag;
use granit_base::Text;
use std::cmp::Ordering;
use std::fmt;
use std::hash::{Hash, Hasher};

impl PartialEq for Tag {
    ghost use Rattle.std.proofs.Common.{rules};
    ghost use Rattle.std.specs.Cmp.Rules.{comparing};
    ghost use Rattle.granit_event.specs.Order.{same_tag};

    ghost eq = { same_tag };

    ghost laws = { Prim.search (comparing, rules) };

    fn eq(&self, other: &Tag) -> bool {
        same_text(self.handle(), other.handle())
            && same_text(self.suffix(), other.suffix())
            && same_text(self.original_handle(), other.original_handle())
    }
}

impl Eq for Tag {
    ghost use Rattle.std.proofs.Common.{rules};
    ghost use Rattle.std.specs.Cmp.Rules.{comparing};

    ghost laws = { Prim.search (comparing, rules) };
}

impl PartialOrd for Tag {
    ghost use Rattle.std.specs.Ordering.{as_partial_cmp};
    ghost use Rattle.std.proofs.Common.{rules};
    ghost use Rattle.std.specs.Cmp.Rules.{comparing};
    ghost use Rattle.std.specs.Cmp.{partial_order_from_own_ties};
    ghost use Rattle.granit_event.specs.Order.{order_of_tags};

    ghost partial_cmp = { as_partial_cmp order_of_tags };

    ghost laws = { partial_order_from_own_ties (Prim.search (comparing, rules)) (Prim.search (comparing, rules)) };

    fn partial_cmp(&self, other: &Tag) -> Option<Ordering> {
        Some(self.cmp(other))
    }
}

impl Ord for Tag {
    ghost use Rattle.std.proofs.Common.{rules};
    ghost use Rattle.std.specs.Cmp.Rules.{comparing};
    ghost use Rattle.granit_event.specs.Order.{order_of_tags};

    ghost cmp = { order_of_tags };

    ghost total = { Prim.search (comparing, rules) };

    ghost matches_partial_cmp = { Prim.search (comparing, rules) };

    ghost matches_eq = { Prim.search (comparing, rules) };

    fn cmp(&self, other: &Tag) -> Ordering {
        let handles = order_of(self.handle(), other.handle());
        let suffixes = order_of(self.suffix(), other.suffix());
        let originals = order_of(self.original_handle(), other.original_handle());
        handles.then(suffixes.then(originals))
    }
}

impl Hash for Tag {
    ghost use Rattle.std.proofs.Common.{rules};
    ghost use Rattle.std.specs.Cmp.Rules.{hashing};
    ghost use Rattle.granit_event.specs.Order.{writes_of_tag};

    ghost hash_input = { writes_of_tag };

    ghost respects_eq = { Prim.search (hashing, rules) };

    fn hash<H: Hasher>(&self, state: &mut H) {
        Text::borrowed(self.handle()).hash(state);
        Text::borrowed(self.suffix()).hash(state);
        Text::borrowed(self.original_handle()).hash(state);
    }
}

impl fmt::Display for Tag {
    ghost use Rattle.std.specs.Prelude.{Some, ◌++◌};
    ghost use Rattle.std.specs.Str.{encode_utf8_all};

    // the handle `!` is printed as it stands, as every other is
    ghost output = { λ t. Some (encode_utf8_all t.handle ++ encode_utf8_all t.suffix) };

    fn fmt<W: fmt::Write>(&self, f: &mut fmt::Formatter<W>) -> fmt::Result {
        f.write_str(utf8(self.handle()))?;
        f.write_str(utf8(self.suffix()))
    }
}

/// The same text, by its characters.
fn utf8<'a>(text: &'a str) -> &'a str
    ensures { result.now ≡ encode_utf8_all (chars text.now) }
{
    text
}

/// The order of the first characters that differ.
fn order_of(a: &str, b: &str) -> Ordering
    ensures { result ≡ slice_cmp nat_cmp (chars a.now) (chars b.now) }
{
    Text::borrowed(a).cmp(&Text::borrowed(b))
}
