//! Worked examples by computation. Each value is the original's token of that text, or its fault.
ghost use Rattle.std.specs.Prelude.{◌≡◌, [], ◌∷◌, ◌++◌, codes, true, false, Ok, Err};
ghost use Rattle.granit_error.specs.FaultKind.{InvalidTagEscape, InvalidTagTerminator, InvalidTagUtf8};
ghost use Rattle.granit_error.specs.FaultKind.{InvalidTagUtf8LeadingByte, InvalidTagUtf8TrailingByte};
ghost use Rattle.granit_error.specs.FaultKind.{MissingAnchorOrAliasName, MissingTagUri, UnclosedVerbatimTag};
ghost use Rattle.granit_lexemes.specs.Tags.{tag_of};
ghost use Rattle.granit_name_examples.specs.Examples.{name_seen, tag_seen};

/// Names, and where none stands.
pub fn names_of_the_examples()
    ensures letters { name_seen (codes "&a b") 0 ≡ Ok ((codes "a"), 2) }
    ensures alias { name_seen (codes "*a ") 0 ≡ Ok ((codes "a"), 2) }
    ensures colon { name_seen (codes "&a:b c") 0 ≡ Ok ((codes "a:b"), 4) }
    ensures dash { name_seen (codes "&a-b c") 0 ≡ Ok ((codes "a-b"), 4) }
    ensures bang { name_seen (codes "&a!b c") 0 ≡ Ok ((codes "a!b"), 4) }
    ensures hash { name_seen (codes "&a#b c") 0 ≡ Ok ((codes "a#b"), 4) }
    ensures percent { name_seen (codes "&%4 c") 0 ≡ Ok ((codes "%4"), 3) }
    ensures quote { name_seen (codes "&\"a c") 0 ≡ Ok ((codes "\"a"), 3) }
    ensures accent { name_seen ((codes "&") ++ (0xE9 ∷ []) ++ (codes " c")) 0 ≡ Ok ((0xE9 ∷ []), 2) }
    ensures next_line_mark { name_seen ((codes "&a") ++ (0x85 ∷ []) ++ (codes "b c")) 0
        ≡ Ok (((codes "a") ++ (0x85 ∷ []) ++ (codes "b")), 4) }
    ensures beyond { name_seen ((codes "&") ++ (0x1F600 ∷ []) ++ (codes " c")) 0 ≡ Ok ((0x1F600 ∷ []), 2) }
    ensures end { name_seen (codes "&a") 0 ≡ Ok ((codes "a"), 2) }
    ensures line { name_seen ((codes "&a") ++ (0xA ∷ [])) 0 ≡ Ok ((codes "a"), 2) }
    ensures tab { name_seen ((codes "&a") ++ (0x9 ∷ []) ++ (codes "b")) 0 ≡ Ok ((codes "a"), 2) }
    ensures in_flow { name_seen (codes "[&a,b]") 1 ≡ Ok ((codes "a"), 3) }
    ensures before_close { name_seen (codes "[*a]") 1 ≡ Ok ((codes "a"), 3) }
    ensures before_curly { name_seen (codes "{&a {}}") 1 ≡ Ok ((codes "a"), 3) }
    ensures star { name_seen (codes "&*a b") 0 ≡ Ok ((codes "*a"), 3) }
    ensures ampersand { name_seen (codes "&&a b") 0 ≡ Ok ((codes "&a"), 3) }
    ensures none { name_seen (codes "&") 0 ≡ Err (MissingAnchorOrAliasName, 0) }
    ensures blank { name_seen (codes "& a") 0 ≡ Err (MissingAnchorOrAliasName, 0) }
    ensures alias_none { name_seen (codes "*") 0 ≡ Err (MissingAnchorOrAliasName, 0) }
    ensures comma { name_seen (codes "[*,]") 1 ≡ Err (MissingAnchorOrAliasName, 1) }
    ensures curly { name_seen (codes "&{}") 0 ≡ Err (MissingAnchorOrAliasName, 0) }
    ensures bom { name_seen ((codes "&") ++ (0xFEFF ∷ [])) 0 ≡ Err (MissingAnchorOrAliasName, 0) }
    ensures dot { name_seen (codes "*. :") 0 ≡ Ok ((codes "."), 2) }
{}

/// Tags, with their handles and what they spell.
pub fn tags_of_the_examples()
    ensures alone { tag_seen false (codes "! a") 0 ≡ Ok (tag_of [] (codes "!"), 1) }
    ensures alone_end { tag_seen false (codes "!") 0 ≡ Ok (tag_of [] (codes "!"), 1) }
    ensures alone_line { tag_seen false ((codes "!") ++ (0xA ∷ []) ++ (codes "a")) 0 ≡ Ok (tag_of [] (codes "!"), 1) }
    ensures letter { tag_seen false (codes "!a") 0 ≡ Ok (tag_of (codes "!") (codes "a"), 2) }
    ensures word { tag_seen false (codes "!local b") 0 ≡ Ok (tag_of (codes "!") (codes "local"), 6) }
    ensures second { tag_seen false (codes "!!str a") 0 ≡ Ok (tag_of (codes "!!") (codes "str"), 5) }
    ensures named { tag_seen false (codes "!e!tag a") 0 ≡ Ok (tag_of (codes "!e!") (codes "tag"), 6) }
    ensures escaped { tag_seen false (codes "!e!tag%21 a") 0 ≡ Ok (tag_of (codes "!e!") (codes "tag!"), 9) }
    ensures accent { tag_seen false (codes "!e!%C3%A9 a") 0 ≡ Ok (tag_of (codes "!e!") (0xE9 ∷ []), 9) }
    ensures accent_first { tag_seen false (codes "!%c3%a9x a") 0
        ≡ Ok (tag_of (codes "!") ((0xE9 ∷ []) ++ (codes "x")), 8) }
    ensures three { tag_seen false (codes "!%E2%82%AC a") 0 ≡ Ok (tag_of (codes "!") (0x20AC ∷ []), 10) }
    ensures four { tag_seen false (codes "!%F0%9F%98%80 a") 0 ≡ Ok (tag_of (codes "!") (0x1F600 ∷ []), 13) }
    ensures letter_escaped { tag_seen false (codes "!a%41b c") 0 ≡ Ok (tag_of (codes "!") (codes "aAb"), 6) }
    ensures signs { tag_seen false (codes "!a;/?:@&=+$_.~*'()# b") 0
        ≡ Ok (tag_of (codes "!") (codes "a;/?:@&=+$_.~*'()#"), 19) }
    ensures verbatim { tag_seen false (codes "!<tag:x%20y> a") 0 ≡ Ok (tag_of [] (codes "tag:x y"), 12) }
    ensures verbatim_bang { tag_seen false (codes "!<!a> b") 0 ≡ Ok (tag_of [] (codes "!a"), 5) }
    ensures verbatim_flow_signs { tag_seen false (codes "!<a,[b]> c") 0 ≡ Ok (tag_of [] (codes "a,[b]"), 8) }
    ensures verbatim_end { tag_seen false (codes "!<a>") 0 ≡ Ok (tag_of [] (codes "a"), 4) }
    ensures dashes { tag_seen false (codes "!-a-!b c") 0 ≡ Ok (tag_of (codes "!-a-!") (codes "b"), 6) }
    ensures underscore { tag_seen false (codes "!a_b c") 0 ≡ Ok (tag_of (codes "!") (codes "a_b"), 4) }
    ensures comma_in_flow { tag_seen true (codes "[!a,b]") 1 ≡ Ok (tag_of (codes "!") (codes "a"), 3) }
    ensures close_in_flow { tag_seen true (codes "[!]") 1 ≡ Ok (tag_of [] (codes "!"), 2) }
    ensures curly_in_flow { tag_seen true (codes "{!a}") 1 ≡ Ok (tag_of (codes "!") (codes "a"), 3) }
    ensures verbatim_in_flow { tag_seen true (codes "[!<a>,b]") 1 ≡ Ok (tag_of [] (codes "a"), 5) }
    ensures second_in_flow { tag_seen true (codes "[!!str,b]") 1 ≡ Ok (tag_of (codes "!!") (codes "str"), 6) }
{}

/// Tags that are refused.
pub fn refused_tags_of_the_examples()
    ensures no_suffix { tag_seen false (codes "!! a") 0 ≡ Err (MissingTagUri, 0) }
    ensures no_named_suffix { tag_seen false (codes "!e! a") 0 ≡ Err (MissingTagUri, 0) }
    ensures no_suffix_end { tag_seen false (codes "!!") 0 ≡ Err (MissingTagUri, 0) }
    ensures no_uri { tag_seen false (codes "!<> a") 0 ≡ Err (MissingTagUri, 0) }
    ensures no_uri_blank { tag_seen false (codes "!< a") 0 ≡ Err (MissingTagUri, 0) }
    ensures unclosed { tag_seen false (codes "!<a b") 0 ≡ Err (UnclosedVerbatimTag, 0) }
    ensures unclosed_end { tag_seen false (codes "!<a") 0 ≡ Err (UnclosedVerbatimTag, 0) }
    ensures unclosed_curly { tag_seen false (codes "!<a{> b") 0 ≡ Err (UnclosedVerbatimTag, 0) }
    ensures comma_outside { tag_seen false (codes "!a,b") 0 ≡ Err (InvalidTagTerminator, 0) }
    ensures verbatim_comma_outside { tag_seen false (codes "!<a>,") 0 ≡ Err (InvalidTagTerminator, 0) }
    ensures verbatim_letter { tag_seen false (codes "!<a>b") 0 ≡ Err (InvalidTagTerminator, 0) }
    ensures curly_outside { tag_seen false (codes "!a}b") 0 ≡ Err (InvalidTagTerminator, 0) }
    ensures open_in_flow { tag_seen true (codes "[!a[b]]") 1 ≡ Err (InvalidTagTerminator, 1) }
    ensures third { tag_seen false (codes "!a!b!c") 0 ≡ Err (InvalidTagTerminator, 0) }
    ensures behind_escape { tag_seen false (codes "!a%41!b") 0 ≡ Err (InvalidTagTerminator, 0) }
    ensures quote { tag_seen false (codes "!a\"b\"") 0 ≡ Err (InvalidTagTerminator, 0) }
    ensures angle { tag_seen false (codes "!a<b") 0 ≡ Err (InvalidTagTerminator, 0) }
    ensures unprintable { tag_seen false ((codes "!a") ++ (0x1 ∷ [])) 0 ≡ Err (InvalidTagTerminator, 0) }
    ensures wide { tag_seen false ((codes "!") ++ (0xE9 ∷ [])) 0 ≡ Err (InvalidTagTerminator, 0) }
    ensures no_digits { tag_seen false (codes "!% a") 0 ≡ Err (InvalidTagEscape, 0) }
    ensures one_digit { tag_seen false (codes "!%4 a") 0 ≡ Err (InvalidTagEscape, 0) }
    ensures second_digit { tag_seen false (codes "!%4g a") 0 ≡ Err (InvalidTagEscape, 0) }
    ensures digit_inside { tag_seen false (codes "!%C3 a") 0 ≡ Err (InvalidTagEscape, 0) }
    ensures letter_inside { tag_seen false (codes "!%C3a b") 0 ≡ Err (InvalidTagEscape, 0) }
    ensures digit_inside_second { tag_seen false (codes "!%C3%A a") 0 ≡ Err (InvalidTagEscape, 0) }
    ensures verbatim_digits { tag_seen false (codes "!<%> a") 0 ≡ Err (InvalidTagEscape, 0) }
    ensures trailing_first { tag_seen false (codes "!%A9 a") 0 ≡ Err (InvalidTagUtf8LeadingByte, 0) }
    ensures five_bytes { tag_seen false (codes "!%F8%80%80%80%80 a") 0 ≡ Err (InvalidTagUtf8LeadingByte, 0) }
    ensures all_ones { tag_seen false (codes "!%FF a") 0 ≡ Err (InvalidTagUtf8LeadingByte, 0) }
    ensures no_trailing { tag_seen false (codes "!%C3%28 a") 0 ≡ Err (InvalidTagUtf8TrailingByte, 0) }
    ensures second_no_trailing { tag_seen false (codes "!%E2%82%28 a") 0 ≡ Err (InvalidTagUtf8TrailingByte, 0) }
    ensures overlong { tag_seen false (codes "!%C0%80 a") 0 ≡ Err (InvalidTagUtf8, 0) }
    ensures overlong_three { tag_seen false (codes "!%E0%80%80 a") 0 ≡ Err (InvalidTagUtf8, 0) }
    ensures surrogate { tag_seen false (codes "!%ED%A0%80 a") 0 ≡ Err (InvalidTagUtf8, 0) }
    ensures beyond { tag_seen false (codes "!%F4%90%80%80 a") 0 ≡ Err (InvalidTagUtf8, 0) }
    ensures beyond_lead { tag_seen false (codes "!%F7%BF%BF%BF a") 0 ≡ Err (InvalidTagUtf8, 0) }
{}
