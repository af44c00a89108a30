//! For the texts of most kinds one that is a character away, added, dropped or changed, without that cause.
ghost use Rattle.granit_cause_rows.specs.CauseRows.{CausedAt, NoCause, NoCauseOf};
ghost use Rattle.granit_error.specs.FaultKind.{ExpectedDocumentStart, InvalidGlobalTagCharacter, MissingLowSurrogate};
ghost use Rattle.granit_error.specs.FaultKind.{MissingYamlVersion, UnclosedFlowCollection, UnclosedQuotedScalar};
ghost use Rattle.granit_error.specs.FaultKind.{UnexpectedEofBlockSequence};
ghost use Rattle.granit_error.specs.OptionsData.{default_options};
ghost use Rattle.granit_machine.specs.ExampleOptions.{no_directives, one_comment, small_limits, strict_lines};
ghost use Rattle.std.specs.Prelude.{[], ◌∷◌, codes};

/// Texts one character away from those with the kinds up to 49, which the original answers with events: they have no
/// cause at all.
pub fn no_cause_where_a_text_is_answered()
    ensures kind_2 { NoCause default_options (codes "[]") }
    ensures kind_3 { NoCause default_options (codes "[]") }
    ensures kind_4 { NoCause default_options (codes "[]") }
    ensures kind_11 { NoCause default_options (codes "!") }
    ensures kind_12 { NoCause default_options (codes "!\n#!") }
    ensures kind_13 { NoCause default_options (codes "... #") }
    ensures kind_14 { NoCause no_directives (codes "#YAML 1.2") }
    ensures kind_15 { NoCause default_options (codes "#") }
    ensures kind_20 { NoCause default_options (codes "YAML") }
    ensures kind_24 { NoCause default_options (codes "%YAML 1.9\n--- a\n") }
    ensures kind_30 { NoCause default_options (codes "a,") }
    ensures kind_31 { NoCause default_options (codes ": a") }
    ensures kind_32 { NoCause default_options (codes "[a,]") }
    ensures kind_33 { NoCause default_options (codes "'':") }
    ensures kind_34 { NoCause default_options (codes "- >\n-") }
    ensures kind_35 { NoCause default_options (codes "{a,[b]}") }
    ensures kind_37 { NoCause default_options (codes "&!") }
    ensures kind_38 { NoCause default_options (codes "!-#") }
    ensures kind_39 { NoCause default_options (codes "''") }
    ensures kind_40 { NoCause default_options (codes "'\n---'") }
    ensures kind_42 { NoCause default_options (codes "- '\n'") }
    ensures kind_43 { NoCause default_options (codes "''") }
    ensures kind_44 { NoCause default_options (codes "\"\"") }
    ensures kind_49 { NoCause default_options (codes "\"\\ud83d\\ude00\"") }
{}

/// The same for the texts with the kinds from 50 on: the original answers these with events too.
pub fn no_cause_where_a_lexeme_is_mended()
    ensures kind_53 { NoCause default_options (codes ">") }
    ensures kind_54 { NoCause default_options (codes ">\n \t") }
    ensures kind_55 { NoCause default_options (codes ">\n!") }
    ensures kind_56 { NoCause default_options (codes "!!a") }
    ensures kind_57 { NoCause default_options (codes "!<su>") }
    ensures kind_58 { NoCause default_options (codes "!") }
    ensures kind_60 { NoCause default_options (codes "!%7a") }
    ensures kind_61 { NoCause default_options (codes "!%c3%a1") }
    ensures kind_62 { NoCause default_options (codes "!%c2%80") }
    ensures kind_63 { NoCause default_options (codes "&a") }
    ensures kind_64 { NoCause default_options (codes "-\n !") }
    ensures kind_65 { NoCause default_options (codes "!\n-") }
    ensures kind_66 { NoCause default_options (codes "!\n?") }
    ensures kind_67 { NoCause default_options (codes ": :") }
    ensures kind_68 { NoCause default_options (codes "- -") }
    ensures kind_69 { NoCause default_options (codes "?") }
    ensures kind_70 { NoCause default_options (codes "-\n !") }
    ensures kind_71 { NoCause default_options (codes "?\n !") }
    ensures kind_74 { NoCause default_options (codes "1 # c\n") }
    ensures kind_75 { NoCause one_comment (codes "- #\n") }
    ensures kind_76 { NoCause default_options (codes "a") }
    ensures kind_77 { NoCause default_options (0xFEFF ∷ []) }
{}

/// Texts one character away which the original refuses with another kind: 2 for the kinds from 5 to 10, 11 for 19, 23
/// and 25, 20 for 21, 28 for 27, 39 for 41 and 45, 47 for 50, and 30 for 73. They have no cause of the first kind at
/// any place, and that of the other at its mark.
pub fn no_such_cause_where_another_is()
    ensures kind_5 { NoCauseOf small_limits (codes "[") 5 }
    ensures other_than_5 { CausedAt small_limits (codes "[") (UnclosedFlowCollection 0x5B) 0 1 0 }
    ensures kind_6 { NoCauseOf default_options (codes "[-a") 6 }
    ensures other_than_6 { CausedAt default_options (codes "[-a") (UnclosedFlowCollection 0x5B) 0 1 0 }
    ensures kind_7 { NoCauseOf default_options (codes "[-a,") 7 }
    ensures other_than_7 { CausedAt default_options (codes "[-a,") (UnclosedFlowCollection 0x5B) 0 1 0 }
    ensures kind_8 { NoCauseOf default_options (codes "[: [") 8 }
    ensures other_than_8 { CausedAt default_options (codes "[: [") (UnclosedFlowCollection 0x5B) 3 1 3 }
    ensures kind_9 { NoCauseOf default_options (codes "[! :") 9 }
    ensures other_than_9 { CausedAt default_options (codes "[! :") (UnclosedFlowCollection 0x5B) 0 1 0 }
    ensures kind_10 { NoCauseOf strict_lines (codes ":\n[\n [") 10 }
    ensures other_than_10 { CausedAt strict_lines (codes ":\n[\n [") (UnclosedFlowCollection 0x5B) 5 3 1 }
    ensures kind_19 { NoCauseOf default_options (codes "%: ") 19 }
    ensures other_than_19 { CausedAt default_options (codes "%: ") ExpectedDocumentStart 3 1 3 }
    ensures kind_21 { NoCauseOf default_options (codes "%YAML 1.") 21 }
    ensures other_than_21 { CausedAt default_options (codes "%YAML 1.") MissingYamlVersion 0 1 0 }
    ensures kind_23 { NoCauseOf default_options (codes "%YAML 1.2\n#YAML 1.2") 23 }
    ensures other_than_23 { CausedAt default_options (codes "%YAML 1.2\n#YAML 1.2") ExpectedDocumentStart 19 2 9 }
    ensures kind_25 { NoCauseOf default_options (codes "%TAG !e! tag:e,\n%TAG !f! tag:e,\n") 25 }
    ensures other_than_25 { CausedAt default_options (codes "%TAG !e! tag:e,\n%TAG !f! tag:e,\n")
        ExpectedDocumentStart 32 3 0 }
    ensures kind_27 { NoCauseOf default_options (codes "%TAG !m!") 27 }
    ensures other_than_27 { CausedAt default_options (codes "%TAG !m!") InvalidGlobalTagCharacter 0 1 0 }
    ensures kind_41 { NoCauseOf default_options (codes "a: \"b\n ") 41 }
    ensures other_than_41 { CausedAt default_options (codes "a: \"b\n ") UnclosedQuotedScalar 3 1 3 }
    ensures kind_45 { NoCauseOf default_options (codes "\"\\n") 45 }
    ensures other_than_45 { CausedAt default_options (codes "\"\\n") UnclosedQuotedScalar 0 1 0 }
    ensures kind_50 { NoCauseOf default_options (codes "\"\\ud83d\"") 50 }
    ensures other_than_50 { CausedAt default_options (codes "\"\\ud83d\"") MissingLowSurrogate 0 1 0 }
    ensures kind_73 { NoCauseOf default_options (codes ", #") 73 }
    ensures other_than_73 { CausedAt default_options (codes ", #") UnexpectedEofBlockSequence 0 1 0 }
{}
