//! Worked examples by computation. Each value is the original's token of that text, or its fault.
ghost use Rattle.std.specs.Prelude.{◌≡◌, [], ◌∷◌, ◌++◌, codes, Some, None, Ok, Err};
ghost use Rattle.granit_error.specs.OptionsData.{default_options};
ghost use Rattle.granit_error.specs.FaultKind.{CommentNotSeparated, DirectiveByteLimitExceeded, DirectiveDisallowed};
ghost use Rattle.granit_error.specs.FaultKind.{ExpectedTagBang, ExpectedTagDirectiveBang, InvalidDirectiveName};
ghost use Rattle.granit_error.specs.FaultKind.{InvalidDirectiveTerminator, InvalidGlobalTagCharacter};
ghost use Rattle.granit_error.specs.FaultKind.{InvalidTagDirectiveTerminator, InvalidTagEscape, InvalidTagUtf8};
ghost use Rattle.granit_error.specs.FaultKind.{InvalidTagUtf8LeadingByte, InvalidTagUtf8TrailingByte};
ghost use Rattle.granit_error.specs.FaultKind.{MissingDirectiveName, MissingYamlVersion, MissingYamlVersionSeparator};
ghost use Rattle.granit_error.specs.FaultKind.{TooManyReservedDirectiveParams, UnexpectedCharacter, YamlVersionTooLong};
ghost use Rattle.granit_lexemes.specs.Lexeme.{Version, TagPrefix, Reserved};
ghost use Rattle.granit_name_examples.specs.Examples.{directive_seen, few_bytes, few_words, line_seen};
ghost use Rattle.granit_name_examples.specs.Examples.{directives_refused};

/// Directives.
pub fn directives_of_the_examples()
    ensures version { directive_seen default_options (codes "%YAML 1.2") ≡ Ok (Version 1 2, 9) }
    ensures version_comment { directive_seen default_options ((codes "%YAML 1.2 # c") ++ (0xA ∷ []) ++ (codes "---"))
        ≡ Ok (Version 1 2, 9) }
    ensures version_blanks { directive_seen default_options ((codes "%YAML ") ++ (0x9 ∷ []) ++ (codes " 1.2"))
        ≡ Ok (Version 1 2, 11) }
    ensures version_long { directive_seen default_options (codes "%YAML 123456789.012345678")
        ≡ Ok (Version 123456789 12345678, 25) }
    ensures version_again { directive_seen default_options ((codes "%YAML 1.10") ++ (0xA ∷ []) ++ (codes "---"))
        ≡ Ok (Version 1 10, 10) }
    ensures handle { directive_seen default_options (codes "%TAG !m! tag:yaml.org,2002:i")
        ≡ Ok (TagPrefix (codes "!m!") (codes "tag:yaml.org,2002:i"), 28) }
    ensures handle_second { directive_seen default_options ((codes "%TAG !! tag:x") ++ (0xA ∷ []) ++ (codes "---"))
        ≡ Ok (TagPrefix (codes "!!") (codes "tag:x"), 13) }
    ensures handle_alone { directive_seen default_options ((codes "%TAG ! !x") ++ (0xA ∷ []))
        ≡ Ok (TagPrefix (codes "!") (codes "!x"), 9) }
    ensures touching { directive_seen default_options (codes "%TAG !a!x")
        ≡ Ok (TagPrefix (codes "!a!") (codes "x"), 9) }
    ensures prefix_escaped { directive_seen default_options (codes "%TAG !e! a%C3%A9 #c")
        ≡ Ok (TagPrefix (codes "!e!") ((codes "a") ++ (0xE9 ∷ [])), 16) }
    ensures prefix_signs { directive_seen default_options (codes "%TAG ! a[],!")
        ≡ Ok (TagPrefix (codes "!") (codes "a[],!"), 12) }
    ensures prefix_escape_first { directive_seen default_options (codes "%TAG !%41 ")
        ≡ Ok (TagPrefix (codes "!") (codes "A"), 9) }
    ensures reserved { directive_seen default_options (codes "%a b  c")
        ≡ Ok (Reserved (codes "a") ((codes "b") ∷ (codes "c") ∷ []), 7) }
    ensures reserved_alone { directive_seen default_options (codes "%a") ≡ Ok (Reserved (codes "a") ([]), 2) }
    ensures reserved_comment { directive_seen default_options (codes "%a b #c")
        ≡ Ok (Reserved (codes "a") ((codes "b") ∷ []), 5) }
    ensures reserved_blanks { directive_seen default_options ((codes "%a b  ") ++ (0xA ∷ []) ++ (codes "---"))
        ≡ Ok (Reserved (codes "a") ((codes "b") ∷ []), 6) }
    ensures reserved_hash_inside { directive_seen default_options (codes "%a b#c d")
        ≡ Ok (Reserved (codes "a") ((codes "b#c") ∷ (codes "d") ∷ []), 8) }
    ensures reserved_lower { directive_seen default_options (codes "%yaml 1.2")
        ≡ Ok (Reserved (codes "yaml") ((codes "1.2") ∷ []), 9) }
    ensures reserved_longer { directive_seen default_options (codes "%YAMLS 1")
        ≡ Ok (Reserved (codes "YAMLS") ((codes "1") ∷ []), 8) }
    ensures reserved_accent { directive_seen default_options ((codes "%") ++ (0xE9 ∷ []) ++ (codes " ") ++ (0xE9 ∷ []))
        ≡ Ok (Reserved (0xE9 ∷ []) ((0xE9 ∷ []) ∷ []), 4) }
    ensures most { directive_seen (few_words 2) (codes "%F a b")
        ≡ Ok (Reserved (codes "F") ((codes "a") ∷ (codes "b") ∷ []), 6) }
    ensures within { directive_seen (few_bytes 9) (codes "%TAG !a! b") ≡ Ok (TagPrefix (codes "!a!") (codes "b"), 10) }
{}

/// Directives that are refused.
pub fn refused_directives_of_the_examples()
    ensures no_name { directive_seen default_options (codes "%") ≡ Err (MissingDirectiveName, 1) }
    ensures no_name_blank { directive_seen default_options (codes "% a") ≡ Err (MissingDirectiveName, 1) }
    ensures wrong_name { directive_seen default_options ((codes "%a") ++ (0x1 ∷ [])) ≡ Err (InvalidDirectiveName, 1) }
    ensures wrong_name_bom { directive_seen default_options ((codes "%a") ++ (0xFEFF ∷ []))
        ≡ Err (InvalidDirectiveName, 1) }
    ensures name_over { directive_seen (few_bytes 2) (codes "%abc") ≡ Err (DirectiveByteLimitExceeded 2, 1) }
    ensures blanks_over { directive_seen (few_bytes 5) (codes "%abc  d") ≡ Err (DirectiveByteLimitExceeded 5, 0) }
    ensures prefix_over { directive_seen (few_bytes 8) (codes "%TAG !a! b") ≡ Err (DirectiveByteLimitExceeded 8, 0) }
    ensures escape_over { directive_seen (few_bytes 11) (codes "%TAG ! %C3%A9")
        ≡ Err (DirectiveByteLimitExceeded 11, 0) }
    ensures wide_over { directive_seen (few_bytes 3) ((codes "%a ") ++ (0xE9 ∷ []))
        ≡ Err (DirectiveByteLimitExceeded 3, 0) }
    ensures more { directive_seen (few_words 2) (codes "%F a b c") ≡ Err (TooManyReservedDirectiveParams 2, 0) }
    ensures no_version { directive_seen default_options (codes "%YAML") ≡ Err (MissingYamlVersion, 0) }
    ensures no_version_letter { directive_seen default_options (codes "%YAML a") ≡ Err (MissingYamlVersion, 0) }
    ensures no_minor { directive_seen default_options (codes "%YAML 1.") ≡ Err (MissingYamlVersion, 0) }
    ensures no_minor_letter { directive_seen default_options (codes "%YAML 1.x") ≡ Err (MissingYamlVersion, 0) }
    ensures no_dot { directive_seen default_options (codes "%YAML 1 2") ≡ Err (MissingYamlVersionSeparator, 0) }
    ensures no_dot_end { directive_seen default_options (codes "%YAML 1") ≡ Err (MissingYamlVersionSeparator, 0) }
    ensures long_major { directive_seen default_options (codes "%YAML 1234567890.1") ≡ Err (YamlVersionTooLong, 0) }
    ensures long_minor { directive_seen default_options (codes "%YAML 1.1234567890") ≡ Err (YamlVersionTooLong, 0) }
    ensures no_bang { directive_seen default_options (codes "%TAG a b") ≡ Err (ExpectedTagBang, 0) }
    ensures no_handle { directive_seen default_options (codes "%TAG") ≡ Err (ExpectedTagBang, 0) }
    ensures one_bang { directive_seen default_options (codes "%TAG !a b") ≡ Err (ExpectedTagDirectiveBang, 0) }
    ensures one_bang_end { directive_seen default_options (codes "%TAG !a") ≡ Err (ExpectedTagDirectiveBang, 0) }
    ensures no_prefix { directive_seen default_options (codes "%TAG !a! ") ≡ Err (InvalidGlobalTagCharacter, 0) }
    ensures prefix_flow { directive_seen default_options (codes "%TAG !a! [") ≡ Err (InvalidGlobalTagCharacter, 0) }
    ensures prefix_end { directive_seen default_options (codes "%TAG !a! b\"")
        ≡ Err (InvalidTagDirectiveTerminator, 0) }
    ensures prefix_wide { directive_seen default_options ((codes "%TAG !a! b") ++ (0xE9 ∷ []))
        ≡ Err (InvalidTagDirectiveTerminator, 0) }
    ensures wrong_escape { directive_seen default_options (codes "%TAG ! a%4") ≡ Err (InvalidTagEscape, 0) }
    ensures wrong_lead { directive_seen default_options (codes "%TAG ! a%A9") ≡ Err (InvalidTagUtf8LeadingByte, 0) }
    ensures wrong_trail { directive_seen default_options (codes "%TAG ! a%C3%28")
        ≡ Err (InvalidTagUtf8TrailingByte, 0) }
    ensures wrong_char { directive_seen default_options (codes "%TAG ! a%C0%80") ≡ Err (InvalidTagUtf8, 0) }
    ensures blank_over { directive_seen (few_bytes 3) (codes "%TAG ") ≡ Err (DirectiveByteLimitExceeded 3, 0) }
    ensures blank_within { directive_seen (few_bytes 4) (codes "%TAG ") ≡ Err (ExpectedTagBang, 0) }
    ensures word_over { directive_seen (few_bytes 5) (codes "%TAG !a") ≡ Err (DirectiveByteLimitExceeded 5, 0) }
    ensures word_within { directive_seen (few_bytes 6) (codes "%TAG !a") ≡ Err (ExpectedTagDirectiveBang, 0) }
    ensures sign_over { directive_seen (few_bytes 5) (codes "%TAG ! %") ≡ Err (DirectiveByteLimitExceeded 5, 0) }
    ensures sign_within { directive_seen (few_bytes 6) (codes "%TAG ! %") ≡ Err (InvalidTagEscape, 0) }
    ensures trail_over { directive_seen (few_bytes 11) (codes "%TAG ! %C3%28")
        ≡ Err (DirectiveByteLimitExceeded 11, 0) }
    ensures trail_within { directive_seen (few_bytes 12) (codes "%TAG ! %C3%28") ≡ Err (InvalidTagUtf8TrailingByte, 0) }
{}

/// Directives with what stands behind them on their lines: the index behind a directive, the text of its
/// comment, and the index where reading then stands.
pub fn lines_of_the_examples()
    ensures comment { line_seen default_options ((codes "%YAML 1.2 # c") ++ (0xA ∷ []) ++ (codes "---"))
        ≡ Ok (Version 1 2, 9, Some (codes " c"), 13) }
    ensures nothing { line_seen default_options ((codes "%YAML 1.2 ") ++ (0xA ∷ [])) ≡ Ok (Version 1 2, 9, None, 10) }
    ensures end { line_seen default_options (codes "%YAML 1.2") ≡ Ok (Version 1 2, 9, None, 9) }
    ensures tab { line_seen default_options ((codes "%YAML 1.2") ++ (0x9 ∷ []) ++ (codes "#c"))
        ≡ Ok (Version 1 2, 9, Some (codes "c"), 12) }
    ensures handle { line_seen default_options (codes "%TAG ! a #c")
        ≡ Ok (TagPrefix (codes "!") (codes "a"), 8, Some (codes "c"), 11) }
    ensures hash_inside { line_seen default_options (codes "%TAG ! a#c")
        ≡ Ok (TagPrefix (codes "!") (codes "a#c"), 10, None, 10) }
    ensures at_once { line_seen default_options (codes "%a b #c")
        ≡ Ok (Reserved (codes "a") ((codes "b") ∷ []), 5, Some (codes "c"), 7) }
    ensures empty { line_seen default_options ((codes "%a b") ++ (0x9 ∷ []) ++ (codes "#"))
        ≡ Ok (Reserved (codes "a") ((codes "b") ∷ []), 5, Some [], 6) }
    ensures nul { line_seen default_options ((codes "%YAML 1.2") ++ (0 ∷ [])) ≡ Ok (Version 1 2, 9, None, 9) }
    ensures touching { line_seen default_options (codes "%YAML 1.2#c") ≡ Err (CommentNotSeparated, 9) }
    ensures word { line_seen default_options (codes "%YAML 1.2 x") ≡ Err (InvalidDirectiveTerminator, 0) }
    ensures quote { line_seen default_options ((codes "%TAG ! a") ++ (0x9 ∷ []) ++ (codes "\""))
        ≡ Err (InvalidDirectiveTerminator, 0) }
    ensures no_word { line_seen default_options ((codes "%a ") ++ (0x1 ∷ [])) ≡ Err (InvalidDirectiveTerminator, 0) }
    ensures spoiled { line_seen default_options ((codes "%YAML 1.2 #") ++ (0x1 ∷ []))
        ≡ Err (UnexpectedCharacter 0x1, 11) }
    ensures spoiled_at_once { line_seen default_options ((codes "%a b #") ++ (0x1 ∷ []))
        ≡ Err (UnexpectedCharacter 0x1, 6) }
    ensures disallowed { line_seen directives_refused (codes "%YAML 1.2") ≡ Err (DirectiveDisallowed, 0) }
    ensures disallowed_first { line_seen directives_refused (codes "% a") ≡ Err (DirectiveDisallowed, 0) }
{}
