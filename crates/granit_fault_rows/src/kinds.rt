//! The smallest text that was found with each kind of fault, by computation: each is
//! what the original prints, with docs/DIFFERENCES.md built in.
ghost use Rattle.std.specs.Prelude.{◌≡◌, [], ◌∷◌, ◌++◌, codes};
ghost use Rattle.granit_machine.specs.Events.{prints, prints_under};
ghost use Rattle.granit_machine.specs.ExampleOptions.{no_directives, small_limits};

/// The smallest text with each fault of brackets, documents and directives.
pub fn faults_of_brackets_and_directives()
    ensures kind_2 { prints (codes "[") ≡ (codes "fault 2: unclosed bracket '[' at char 0 line 1 column 1\n") }
    ensures kind_3 { prints (codes "[}") ≡ (codes
        "fault 3: mismatched bracket '[' closed by '}' at char 0 line 1 column 1\n") }
    ensures kind_4 { prints (codes "]") ≡ (codes "fault 4: misplaced bracket at char 0 line 1 column 1\n") }
    ensures kind_6 { prints (codes "[-") ≡ (codes
        "fault 6: \"-\" is only valid inside a block at char 1 line 1 column 2\n") }
    ensures kind_7 { prints (codes "[-,") ≡ (codes
        "fault 7: plain scalar cannot start with '-' followed by ,[]{} at char 1 line 1 column 2\n") }
    ensures kind_8 { prints (codes "[:[") ≡ (codes
        "fault 8: ':' may not precede any of `[{` in flow mapping at char 1 line 1 column 2\n") }
    ensures kind_9 { prints (codes "[!\n:") ≡ (codes
        "fault 9: illegal placement of ':' indicator at char 3 line 2 column 1\n") }
    ensures kind_11 { prints (codes "%!") ≡ (codes
        "fault 11: did not find expected <document start> at char 2 line 1 column 3\n") }
    ensures kind_12 { prints (codes "!\n%!") ≡ (codes
        "fault 12: missing explicit document end marker before directive at char 2 line 2 column 1\n") }
    ensures kind_13 { prints (codes "... >") ≡ (codes
        "fault 13: invalid content after document end marker at char 4 line 1 column 5\n") }
    ensures kind_15 { prints (codes "%") ≡ (codes
        "fault 15: while scanning a directive, could not find expected directive name at char 1 line 1 column 2\n") }
    ensures kind_16 { prints ((codes "%`") ++ (0x7F ∷ []))
        ≡ (codes "fault 16: while scanning a directive, found unexpected non-alphabetical character at char 1 line 1 column 2\n") }
    ensures kind_18 { prints (codes "%F a a a a a a a a a a a a a a a a a")
        ≡ (codes "fault 18: reserved directive exceeds the configured limit of 16 parameters at char 0 line 1 column 1\n") }
    ensures kind_19 { prints ((codes "%: ") ++ (0x7F ∷ []))
        ≡ (codes "fault 19: while scanning a directive, did not find expected comment or line break at char 0 line 1 column 1\n") }
    ensures kind_20 { prints (codes "%YAML") ≡ (codes
        "fault 20: while scanning a YAML directive, did not find expected version number at char 0 line 1 column 1\n") }
    ensures kind_21 { prints (codes "%YAML 1")
        ≡ (codes "fault 21: while scanning a YAML directive, did not find expected digit or '.' character at char 0 line 1 column 1\n") }
    ensures kind_22 { prints (codes "%YAML 1234567890.1")
        ≡ (codes "fault 22: while scanning a YAML directive, found extremely long version number at char 0 line 1 column 1\n") }
    ensures kind_23 { prints (codes "%YAML 1.2\n%YAML 1.2")
        ≡ (codes "fault 23: duplicate version directive at char 10 line 2 column 1\n") }
    ensures kind_24 { prints (codes "%YAML 9.9\n--- a\n")
        ≡ (codes "fault 24: unsupported YAML major version at char 0 line 1 column 1\n") }
    ensures kind_25 { prints (codes "%TAG !e! tag:e,\n%TAG !e! tag:e,\n")
        ≡ (codes "fault 25: the TAG directive must only be given at most once per handle in the same document"
        ++ codes " at char 16 line 2 column 1\n") }
    ensures kind_26 { prints (codes "%TAG") ≡ (codes
        "fault 26: while scanning a tag, did not find expected '!' at char 0 line 1 column 1\n") }
    ensures kind_27 { prints (codes "%TAG !m")
        ≡ (codes "fault 27: while parsing a tag directive, did not find expected '!' at char 0 line 1 column 1\n") }
    ensures kind_28 { prints (codes "%TAG !")
        ≡ (codes "fault 28: invalid global tag character at char 0 line 1 column 1\n") }
    ensures kind_29 { prints ((codes "%TAG !b! tag':b..com,2019") ++ (0xE9 ∷ []))
        ≡ (codes "fault 29: while scanning TAG, did not find expected whitespace or line break at char 0 line 1 column 1\n") }
    ensures kind_14 { prints_under no_directives (codes "%YAML 1.2")
        ≡ (codes "fault 14: YAML directives are disallowed at char 0 line 1 column 1\n") }
    ensures kind_17 { prints_under small_limits (codes "%FOO abcdefghij")
        ≡ (codes "fault 17: directive exceeds the configured limit of 9 bytes at char 0 line 1 column 1\n") }
{}

/// The smallest text with each fault of where lexemes stand, and of quoted scalars.
pub fn faults_of_places_and_quotes()
    ensures kind_30 { prints (codes ",") ≡ (codes
        "fault 30: unexpected EOF while parsing a block sequence at char 0 line 1 column 1\n") }
    ensures kind_31 { prints (codes ": ,") ≡ (codes
        "fault 31: unexpected EOF while parsing a block mapping at char 2 line 1 column 3\n") }
    ensures kind_32 { prints (codes "[,]") ≡ (codes
        "fault 32: unexpected EOF while parsing an implicit flow mapping at char 1 line 1 column 2\n") }
    ensures kind_33 { prints (codes "''::") ≡ (codes
        "fault 33: while parsing a block mapping, did not find expected key at char 2 line 1 column 3\n") }
    ensures kind_34 { prints (codes "- >\n:")
        ≡ (codes "fault 34: while parsing a block collection, did not find expected '-' indicator at char 4 line 2 column 1\n") }
    ensures kind_35 { prints (codes "{a[b]}")
        ≡ (codes "fault 35: while parsing a flow mapping, did not find expected ',' or '}' at char 2 line 1 column 3\n") }
    ensures kind_36 { prints (codes "--- &a [*a\n? ")
        ≡ (codes "fault 36: while parsing a flow sequence, expected ',' or ']' at char 11 line 2 column 1\n") }
    ensures kind_37 { prints (codes "*!") ≡ (codes
        "fault 37: while parsing node, found unknown anchor at char 0 line 1 column 1\n") }
    ensures kind_38 { prints (codes "!-!#") ≡ (codes
        "fault 38: the handle wasn't declared at char 0 line 1 column 1\n") }
    ensures kind_39 { prints (codes "'") ≡ (codes "fault 39: unclosed quote at char 0 line 1 column 1\n") }
    ensures kind_40 { prints (codes "'\n---")
        ≡ (codes "fault 40: while scanning a quoted scalar, found unexpected document indicator at char 0 line 1 column 1\n") }
    ensures kind_41 { prints (codes "a: \"b\n\t")
        ≡ (codes "fault 41: tab cannot be used as indentation at char 6 line 2 column 1\n") }
    ensures kind_42 { prints (codes "- '\n") ≡ (codes
        "fault 42: invalid indentation in multiline quoted scalar at char 4 line 2 column 1\n") }
    ensures kind_43 { prints (codes "''!") ≡ (codes
        "fault 43: invalid trailing content after single-quoted scalar at char 2 line 1 column 3\n") }
    ensures kind_44 { prints (codes "\"\"!") ≡ (codes
        "fault 44: invalid trailing content after double-quoted scalar at char 2 line 1 column 3\n") }
    ensures kind_45 { prints (codes "\"\\") ≡ (codes
        "fault 45: while parsing a quoted scalar, found unknown escape character at char 0 line 1 column 1\n") }
    ensures kind_46 { prints (codes "\"\\u") ≡ (codes
        "fault 46: while parsing a quoted scalar, did not find expected hexadecimal number at char 0 line 1 column 1\n") }
    ensures kind_47 { prints (codes "\"\\ud83d")
        ≡ (codes "fault 47: while parsing a quoted scalar, found high surrogate without following low surrogate"
        ++ codes " at char 0 line 1 column 1\n") }
    ensures kind_48 { prints (codes "\"\\ud83d\\u")
        ≡ (codes "fault 48: while parsing a quoted scalar, did not find expected hexadecimal number for low surrogate"
        ++ codes " at char 0 line 1 column 1\n") }
    ensures kind_49 { prints (codes "\"\\ud83d\\uade00\"")
        ≡ (codes "fault 49: while parsing a quoted scalar, found invalid low surrogate at char 0 line 1 column 1\n") }
    ensures kind_50 { prints (codes "\"\\udd83d\"")
        ≡ (codes "fault 50: while parsing a quoted scalar, found unpaired low surrogate at char 0 line 1 column 1\n") }
    ensures kind_51 { prints (codes "\"\\U00110000\"")
        ≡ (codes "fault 51: while parsing a quoted scalar, found invalid Unicode character escape code at char 0 line 1 column 1\n") }
{}

/// The smallest text with each fault of block scalars, properties, indicators, tabs and comments.
pub fn faults_of_lexemes()
    ensures kind_52 { prints (codes "v: >-0.1\n")
        ≡ (codes "fault 52: while scanning a block scalar, found an indentation indicator equal to 0 at char 3 line 1 column 4\n") }
    ensures kind_53 { prints (codes ">!") ≡ (codes
        "fault 53: while scanning a block scalar, did not find expected comment or line break at char 0 line 1 column 1\n") }
    ensures kind_54 { prints (codes ">\n\t") ≡ (codes
        "fault 54: a block scalar content cannot start with a tab at char 0 line 1 column 1\n") }
    ensures kind_55 { prints (codes ">2\n!") ≡ (codes
        "fault 55: wrongly indented line in block scalar at char 3 line 2 column 1\n") }
    ensures kind_56 { prints (codes "!!") ≡ (codes
        "fault 56: while parsing a tag, did not find expected tag URI at char 0 line 1 column 1\n") }
    ensures kind_57 { prints (codes "!<su") ≡ (codes
        "fault 57: while scanning a verbatim tag, did not find the expected '>' at char 0 line 1 column 1\n") }
    ensures kind_58 { prints (codes "!,") ≡ (codes
        "fault 58: while scanning a tag, did not find expected whitespace or line break at char 0 line 1 column 1\n") }
    ensures kind_59 { prints (codes "!%") ≡ (codes
        "fault 59: while parsing a tag, found an invalid escape sequence at char 0 line 1 column 1\n") }
    ensures kind_60 { prints (codes "!%aa") ≡ (codes
        "fault 60: while parsing a tag, found an incorrect leading UTF-8 byte at char 0 line 1 column 1\n") }
    ensures kind_61 { prints (codes "!%c3%41")
        ≡ (codes "fault 61: while parsing a tag, found an incorrect trailing UTF-8 byte at char 0 line 1 column 1\n") }
    ensures kind_62 { prints (codes "!%c0%80")
        ≡ (codes "fault 62: while parsing a tag, found an invalid UTF-8 codepoint at char 0 line 1 column 1\n") }
    ensures kind_63 { prints (codes "&") ≡ (codes
        "fault 63: while scanning an anchor or alias, did not find expected alphabetic or numeric character at char 0 line 1 column 1\n") }
    ensures kind_64 { prints (codes "-\n!") ≡ (codes "fault 64: simple key expected ':' at char 2 line 2 column 1\n") }
    ensures kind_65 { prints (codes "! -") ≡ (codes
        "fault 65: block sequence entries are not allowed in this context at char 2 line 1 column 3\n") }
    ensures kind_66 { prints (codes "! ?") ≡ (codes
        "fault 66: mapping keys are not allowed in this context at char 2 line 1 column 3\n") }
    ensures kind_67 { prints (codes ":\t:") ≡ (codes
        "fault 67: mapping values are not allowed in this context at char 2 line 1 column 3\n") }
    ensures kind_68 { prints (codes "-\t-") ≡ (codes
        "fault 68: '-' must be followed by a valid YAML whitespace at char 2 line 1 column 3\n") }
    ensures kind_69 { prints ((codes "?") ++ (0x0 ∷ []))
        ≡ (codes "fault 69: expected whitespace at char 1 line 1 column 2\n") }
    ensures kind_70 { prints (codes "-\n\t!")
        ≡ (codes "fault 70: tabs disallowed within this context (block indentation) at char 3 line 2 column 2\n") }
    ensures kind_71 { prints (codes "?\n\t!")
        ≡ (codes "fault 71: tabs disallowed in this context at char 2 line 2 column 1\n") }
    ensures kind_72 { prints (codes "\n- ~\n\t]")
        ≡ (codes "fault 72: while scanning a plain scalar, found a tab at char 3 line 2 column 3\n") }
    ensures kind_73 { prints (codes ",#") ≡ (codes
        "fault 73: comments must be separated from other tokens by whitespace at char 1 line 1 column 2\n") }
    ensures kind_74 { prints ((codes "1 # c\n") ++ (0x85 ∷ []))
        ≡ (codes "fault 74: comment intercepting the multiline text at char 2 line 1 column 3\n") }
    ensures kind_76 { prints (codes "@") ≡ (codes "fault 76: unexpected character: `@' at char 0 line 1 column 1\n") }
    ensures kind_77 { prints ((codes " ") ++ (0xFEFF ∷ []))
        ≡ (codes "fault 77: a BOM must not appear inside a document at char 1 line 1 column 2\n") }
{}
