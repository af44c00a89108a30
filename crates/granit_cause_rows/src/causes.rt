//! The smallest text that was found with each kind of fault, its cause and its mark: its index, its line from 1 and its
//! column from 0. Kinds and marks are the original's, with docs/DIFFERENCES.md built in.
ghost use Rattle.granit_cause_rows.specs.CauseRows.{CausedAt};
ghost use Rattle.granit_error.specs.FaultKind.{BlockEntryInFlowCollection, BlockSequenceEntryNotAllowed};
ghost use Rattle.granit_error.specs.FaultKind.{BomInsideDocument, CommentInterceptedScalar, CommentNotSeparated};
ghost use Rattle.granit_error.specs.FaultKind.{DirectiveByteLimitExceeded, DirectiveDisallowed};
ghost use Rattle.granit_error.specs.FaultKind.{DocumentIndicatorInQuotedScalar, DuplicateTagDirective};
ghost use Rattle.granit_error.specs.FaultKind.{DuplicateVersionDirective, ExpectedBlockMappingKey};
ghost use Rattle.granit_error.specs.FaultKind.{ExpectedBlockSequenceEntry, ExpectedDocumentStart};
ghost use Rattle.granit_error.specs.FaultKind.{ExpectedFlowMappingSeparator, ExpectedFlowSequenceSeparator};
ghost use Rattle.granit_error.specs.FaultKind.{ExpectedTagBang, ExpectedTagDirectiveBang, ExpectedWhitespace};
ghost use Rattle.granit_error.specs.FaultKind.{FlowMappingValueAdjacentCollection, InvalidBlockEntryWhitespace};
ghost use Rattle.granit_error.specs.FaultKind.{InvalidBlockScalarHeader, InvalidBlockScalarIndent};
ghost use Rattle.granit_error.specs.FaultKind.{InvalidColonPlacement, InvalidDirectiveName};
ghost use Rattle.granit_error.specs.FaultKind.{InvalidDirectiveTerminator, InvalidDocumentEnd};
ghost use Rattle.granit_error.specs.FaultKind.{InvalidGlobalTagCharacter, InvalidIndentation, InvalidLowSurrogate};
ghost use Rattle.granit_error.specs.FaultKind.{InvalidLowSurrogateHexEscape, InvalidQuotedScalarHexEscape};
ghost use Rattle.granit_error.specs.FaultKind.{InvalidQuotedScalarIndent, InvalidTagDirectiveTerminator};
ghost use Rattle.granit_error.specs.FaultKind.{InvalidTagEscape, InvalidTagTerminator, InvalidTagUtf8};
ghost use Rattle.granit_error.specs.FaultKind.{InvalidTagUtf8LeadingByte, InvalidTagUtf8TrailingByte};
ghost use Rattle.granit_error.specs.FaultKind.{InvalidTrailingDoubleQuotedScalar, InvalidTrailingSingleQuotedScalar};
ghost use Rattle.granit_error.specs.FaultKind.{InvalidUnicodeEscape, MappingKeyNotAllowed, MappingValueNotAllowed};
ghost use Rattle.granit_error.specs.FaultKind.{MismatchedFlowCollectionEnd, MisplacedFlowCollectionEnd};
ghost use Rattle.granit_error.specs.FaultKind.{MissingAnchorOrAliasName, MissingDirectiveName};
ghost use Rattle.granit_error.specs.FaultKind.{MissingDocumentEndBeforeDirective, MissingLowSurrogate, MissingTagUri};
ghost use Rattle.granit_error.specs.FaultKind.{MissingYamlVersion, MissingYamlVersionSeparator};
ghost use Rattle.granit_error.specs.FaultKind.{PlainScalarStartsWithDashFlowIndicator, RecursionLimitExceeded};
ghost use Rattle.granit_error.specs.FaultKind.{SimpleKeyExpected, TabAtBlockScalarStart, TabInBlockIndentation};
ghost use Rattle.granit_error.specs.FaultKind.{TabInIndentation, TabInPlainScalar, TabNotAllowed, TooManyComments};
ghost use Rattle.granit_error.specs.FaultKind.{TooManyReservedDirectiveParams, UnclosedFlowCollection};
ghost use Rattle.granit_error.specs.FaultKind.{UnclosedQuotedScalar, UnclosedVerbatimTag, UndeclaredTagHandle};
ghost use Rattle.granit_error.specs.FaultKind.{UnexpectedCharacter, UnexpectedEofBlockMapping};
ghost use Rattle.granit_error.specs.FaultKind.{UnexpectedEofBlockSequence, UnexpectedEofImplicitFlowMapping};
ghost use Rattle.granit_error.specs.FaultKind.{UnknownAnchor, UnknownQuotedScalarEscape, UnpairedLowSurrogate};
ghost use Rattle.granit_error.specs.FaultKind.{UnsupportedYamlMajorVersion, YamlVersionTooLong};
ghost use Rattle.granit_error.specs.FaultKind.{ZeroBlockScalarIndent};
ghost use Rattle.granit_error.specs.OptionsData.{default_options};
ghost use Rattle.granit_machine.specs.ExampleOptions.{no_directives, one_comment, small_limits, strict_lines};
ghost use Rattle.std.specs.Prelude.{[], ◌∷◌, ◌++◌, codes};

/// The smallest text with each fault of brackets, documents and directives has its cause at its mark.
pub fn causes_of_brackets_and_directives()
    ensures kind_2 { CausedAt default_options (codes "[") (UnclosedFlowCollection 0x5B) 0 1 0 }
    ensures kind_3 { CausedAt default_options (codes "[}") (MismatchedFlowCollectionEnd 0x5B 0x7D) 0 1 0 }
    ensures kind_4 { CausedAt default_options (codes "]") MisplacedFlowCollectionEnd 0 1 0 }
    ensures kind_5 { CausedAt small_limits (codes "[[") RecursionLimitExceeded 1 1 1 }
    ensures kind_6 { CausedAt default_options (codes "[-") BlockEntryInFlowCollection 1 1 1 }
    ensures kind_7 { CausedAt default_options (codes "[-,") PlainScalarStartsWithDashFlowIndicator 1 1 1 }
    ensures kind_8 { CausedAt default_options (codes "[:[") FlowMappingValueAdjacentCollection 1 1 1 }
    ensures kind_9 { CausedAt default_options (codes "[!\n:") InvalidColonPlacement 3 2 0 }
    ensures kind_10 { CausedAt strict_lines (codes ":\n[\n[") InvalidIndentation 4 3 0 }
    ensures kind_11 { CausedAt default_options (codes "%!") ExpectedDocumentStart 2 1 2 }
    ensures kind_12 { CausedAt default_options (codes "!\n%!") MissingDocumentEndBeforeDirective 2 2 0 }
    ensures kind_13 { CausedAt default_options (codes "... >") InvalidDocumentEnd 4 1 4 }
    ensures kind_14 { CausedAt no_directives (codes "%YAML 1.2") DirectiveDisallowed 0 1 0 }
    ensures kind_15 { CausedAt default_options (codes "%") MissingDirectiveName 1 1 1 }
    ensures kind_16 { CausedAt default_options ((codes "%`") ++ (0x7F ∷ [])) InvalidDirectiveName 1 1 1 }
    ensures kind_17 { CausedAt small_limits (codes "%FOO abcdefghij") (DirectiveByteLimitExceeded 9) 0 1 0 }
    ensures kind_18 { CausedAt default_options (codes "%F a a a a a a a a a a a a a a a a a")
        (TooManyReservedDirectiveParams 16) 0 1 0 }
    ensures kind_19 { CausedAt default_options ((codes "%: ") ++ (0x7F ∷ [])) InvalidDirectiveTerminator 0 1 0 }
    ensures kind_20 { CausedAt default_options (codes "%YAML") MissingYamlVersion 0 1 0 }
    ensures kind_21 { CausedAt default_options (codes "%YAML 1") MissingYamlVersionSeparator 0 1 0 }
    ensures kind_22 { CausedAt default_options (codes "%YAML 1234567890.1") YamlVersionTooLong 0 1 0 }
    ensures kind_23 { CausedAt default_options (codes "%YAML 1.2\n%YAML 1.2") DuplicateVersionDirective 10 2 0 }
    ensures kind_24 { CausedAt default_options (codes "%YAML 9.9\n--- a\n") UnsupportedYamlMajorVersion 0 1 0 }
    ensures kind_25 { CausedAt default_options (codes "%TAG !e! tag:e,\n%TAG !e! tag:e,\n")
        DuplicateTagDirective 16 2 0 }
    ensures kind_26 { CausedAt default_options (codes "%TAG") ExpectedTagBang 0 1 0 }
    ensures kind_27 { CausedAt default_options (codes "%TAG !m") ExpectedTagDirectiveBang 0 1 0 }
    ensures kind_28 { CausedAt default_options (codes "%TAG !") InvalidGlobalTagCharacter 0 1 0 }
    ensures kind_29 { CausedAt default_options ((codes "%TAG !b! tag':b..com,2019") ++ (0xE9 ∷ []))
        InvalidTagDirectiveTerminator 0 1 0 }
{}

/// The smallest text with each fault of where lexemes stand, and of quoted scalars, has its cause at its mark.
pub fn causes_of_places_and_quotes()
    ensures kind_30 { CausedAt default_options (codes ",") UnexpectedEofBlockSequence 0 1 0 }
    ensures kind_31 { CausedAt default_options (codes ": ,") UnexpectedEofBlockMapping 2 1 2 }
    ensures kind_32 { CausedAt default_options (codes "[,]") UnexpectedEofImplicitFlowMapping 1 1 1 }
    ensures kind_33 { CausedAt default_options (codes "''::") ExpectedBlockMappingKey 2 1 2 }
    ensures kind_34 { CausedAt default_options (codes "- >\n:") ExpectedBlockSequenceEntry 4 2 0 }
    ensures kind_35 { CausedAt default_options (codes "{a[b]}") ExpectedFlowMappingSeparator 2 1 2 }
    ensures kind_36 { CausedAt default_options (codes "--- &a [*a\n? ") ExpectedFlowSequenceSeparator 11 2 0 }
    ensures kind_37 { CausedAt default_options (codes "*!") UnknownAnchor 0 1 0 }
    ensures kind_38 { CausedAt default_options (codes "!-!#") UndeclaredTagHandle 0 1 0 }
    ensures kind_39 { CausedAt default_options (codes "'") UnclosedQuotedScalar 0 1 0 }
    ensures kind_40 { CausedAt default_options (codes "'\n---") DocumentIndicatorInQuotedScalar 0 1 0 }
    ensures kind_41 { CausedAt default_options (codes "a: \"b\n\t") TabInIndentation 6 2 0 }
    ensures kind_42 { CausedAt default_options (codes "- '\n") InvalidQuotedScalarIndent 4 2 0 }
    ensures kind_43 { CausedAt default_options (codes "''!") InvalidTrailingSingleQuotedScalar 2 1 2 }
    ensures kind_44 { CausedAt default_options (codes "\"\"!") InvalidTrailingDoubleQuotedScalar 2 1 2 }
    ensures kind_45 { CausedAt default_options (codes "\"\\") UnknownQuotedScalarEscape 0 1 0 }
    ensures kind_46 { CausedAt default_options (codes "\"\\u") InvalidQuotedScalarHexEscape 0 1 0 }
    ensures kind_47 { CausedAt default_options (codes "\"\\ud83d") MissingLowSurrogate 0 1 0 }
    ensures kind_48 { CausedAt default_options (codes "\"\\ud83d\\u") InvalidLowSurrogateHexEscape 0 1 0 }
    ensures kind_49 { CausedAt default_options (codes "\"\\ud83d\\uade00\"") InvalidLowSurrogate 0 1 0 }
    ensures kind_50 { CausedAt default_options (codes "\"\\udd83d\"") UnpairedLowSurrogate 0 1 0 }
    ensures kind_51 { CausedAt default_options (codes "\"\\U00110000\"") InvalidUnicodeEscape 0 1 0 }
{}

/// The smallest text with each fault of block scalars, properties, indicators, tabs and comments has its
/// cause at its mark.
pub fn causes_of_lexemes()
    ensures kind_52 { CausedAt default_options (codes "v: >-0.1\n") ZeroBlockScalarIndent 3 1 3 }
    ensures kind_53 { CausedAt default_options (codes ">!") InvalidBlockScalarHeader 0 1 0 }
    ensures kind_54 { CausedAt default_options (codes ">\n\t") TabAtBlockScalarStart 0 1 0 }
    ensures kind_55 { CausedAt default_options (codes ">2\n!") InvalidBlockScalarIndent 3 2 0 }
    ensures kind_56 { CausedAt default_options (codes "!!") MissingTagUri 0 1 0 }
    ensures kind_57 { CausedAt default_options (codes "!<su") UnclosedVerbatimTag 0 1 0 }
    ensures kind_58 { CausedAt default_options (codes "!,") InvalidTagTerminator 0 1 0 }
    ensures kind_59 { CausedAt default_options (codes "!%") InvalidTagEscape 0 1 0 }
    ensures kind_60 { CausedAt default_options (codes "!%aa") InvalidTagUtf8LeadingByte 0 1 0 }
    ensures kind_61 { CausedAt default_options (codes "!%c3%41") InvalidTagUtf8TrailingByte 0 1 0 }
    ensures kind_62 { CausedAt default_options (codes "!%c0%80") InvalidTagUtf8 0 1 0 }
    ensures kind_63 { CausedAt default_options (codes "&") MissingAnchorOrAliasName 0 1 0 }
    ensures kind_64 { CausedAt default_options (codes "-\n!") SimpleKeyExpected 2 2 0 }
    ensures kind_65 { CausedAt default_options (codes "! -") BlockSequenceEntryNotAllowed 2 1 2 }
    ensures kind_66 { CausedAt default_options (codes "! ?") MappingKeyNotAllowed 2 1 2 }
    ensures kind_67 { CausedAt default_options (codes ":\t:") MappingValueNotAllowed 2 1 2 }
    ensures kind_68 { CausedAt default_options (codes "-\t-") InvalidBlockEntryWhitespace 2 1 2 }
    ensures kind_69 { CausedAt default_options ((codes "?") ++ (0x0 ∷ [])) ExpectedWhitespace 1 1 1 }
    ensures kind_70 { CausedAt default_options (codes "-\n\t!") TabInBlockIndentation 3 2 1 }
    ensures kind_71 { CausedAt default_options (codes "?\n\t!") TabNotAllowed 2 2 0 }
    ensures kind_72 { CausedAt default_options (codes "\n- ~\n\t]") TabInPlainScalar 3 2 2 }
    ensures kind_73 { CausedAt default_options (codes ",#") CommentNotSeparated 1 1 1 }
    ensures kind_74 { CausedAt default_options ((codes "1 # c\n") ++ (0x85 ∷ [])) CommentInterceptedScalar 2 1 2 }
    ensures kind_75 { CausedAt one_comment (codes "- #\n#") TooManyComments 4 2 0 }
    ensures kind_76 { CausedAt default_options (codes "@") (UnexpectedCharacter 0x40) 0 1 0 }
    ensures kind_77 { CausedAt default_options ((codes " ") ++ (0xFEFF ∷ [])) BomInsideDocument 1 1 1 }
{}
