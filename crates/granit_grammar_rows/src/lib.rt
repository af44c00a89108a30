//! Worked rows of the grammar, by computation: lists of lexemes with the events that they are read as, or the kind and
//! the lexeme at which they are refused. They hold each sequence of two kinds of lexemes and each kind of refusal.
#![tactic(auto)]

ghost use Rattle.std.specs.Prelude.{◌≡◌, [], ◌∷◌};
ghost use Rattle.granit_grammar_rows.specs.BlockRows.{at_most_one_lexeme, simple_keys, properties_in_front, sequences};
ghost use Rattle.granit_grammar_rows.specs.BlockRows.{asked_keys, empty_keys};
ghost use Rattle.granit_grammar_rows.specs.IndentlessRows.{keys_behind_sequences};
ghost use Rattle.granit_grammar_rows.specs.Refusals.{no_root_or_entry, where_a_document_must_start, no_key_or_value};
ghost use Rattle.granit_grammar_rows.specs.Refusals.{no_entry_of_a_sequence, no_entry_of_a_mapping, no_node_in_flow};
ghost use Rattle.granit_grammar_rows.specs.Refusals.{directives_without_document_end, no_separator_in_a_sequence};
ghost use Rattle.granit_grammar_rows.specs.Refusals.{no_separator_in_a_mapping};
ghost use Rattle.granit_grammar_rows.specs.DocumentRows.{marks_in_front, marks_behind};
ghost use Rattle.granit_grammar_rows.specs.FitRows.{fits_of_items, fits_of_terminals, told_fits};
ghost use Rattle.granit_grammar_rows.specs.FitRows.{keys_of_colons, lines_of_entries};
ghost use Rattle.granit_grammar_rows.specs.FlowRows.{square_brackets, curly_brackets};
ghost use Rattle.granit_grammar_rows.specs.Row.{answers, tellings};
ghost use Rattle.granit_error.specs.OptionsData.{default_options};
ghost use Rattle.granit_language.specs.GrammarFault.{DuplicateVersionDirective, TooManyBlocks, UndeclaredTagHandle};
ghost use Rattle.granit_language.specs.GrammarFault.{UnknownAnchor, UnsupportedYamlMajorVersion};
ghost use Rattle.granit_grammar_rows.specs.Row.{EventsAre, RefusedAs, dash_at, start_mark_at, end_mark_at, end_at};
ghost use Rattle.granit_grammar_rows.specs.Scoped.{alias_named, anchor_named, answered_by, handle_x, limited, tag_x};
ghost use Rattle.granit_grammar_rows.specs.Scoped.{version};
ghost use Rattle.std.specs.Prelude.{false};

/// Block sequences and mappings.
pub fn block_collections_are_read()
    ensures at_most_one_lexeme { answers at_most_one_lexeme ≡ tellings at_most_one_lexeme }
    ensures simple_keys { answers simple_keys ≡ tellings simple_keys }
    ensures properties_in_front { answers properties_in_front ≡ tellings properties_in_front }
    ensures sequences { answers sequences ≡ tellings sequences }
    ensures asked_keys { answers asked_keys ≡ tellings asked_keys }
    ensures empty_keys { answers empty_keys ≡ tellings empty_keys }
    ensures keys_behind_sequences { answers keys_behind_sequences ≡ tellings keys_behind_sequences }
{}

/// Each kind of refusal, at the lexeme that is told.
pub fn lists_are_refused()
    ensures no_root_or_entry { answers no_root_or_entry ≡ tellings no_root_or_entry }
    ensures where_a_document_must_start { answers where_a_document_must_start ≡ tellings where_a_document_must_start }
    ensures no_key_or_value { answers no_key_or_value ≡ tellings no_key_or_value }
    ensures no_entry_of_a_sequence { answers no_entry_of_a_sequence ≡ tellings no_entry_of_a_sequence }
    ensures no_entry_of_a_mapping { answers no_entry_of_a_mapping ≡ tellings no_entry_of_a_mapping }
    ensures no_node_in_flow { answers no_node_in_flow ≡ tellings no_node_in_flow }
    ensures directives_without_document_end { answers directives_without_document_end
        ≡ tellings directives_without_document_end }
    ensures no_separator_in_a_sequence { answers no_separator_in_a_sequence ≡ tellings no_separator_in_a_sequence }
    ensures no_separator_in_a_mapping { answers no_separator_in_a_mapping ≡ tellings no_separator_in_a_mapping }
{}

/// Documents, their marks and directives.
pub fn documents_are_read()
    ensures marks_in_front { answers marks_in_front ≡ tellings marks_in_front }
    ensures marks_behind { answers marks_behind ≡ tellings marks_behind }
{}

/// Flow sequences, mappings and pairs.
pub fn flow_collections_are_read()
    ensures square_brackets { answers square_brackets ≡ tellings square_brackets }
    ensures curly_brackets { answers curly_brackets ≡ tellings curly_brackets }
{}

/// Names of anchors, handles of tags, versions, and the limit of open block collections. The texts are `*a`;
/// `- &a` and `- *a`; `- &a` and `- *b`; `--- &a` and `--- *a`; `&a`, `...` and `*a`; `!x!y`;
/// `%TAG !x! z`, `--- !x!y` and `--- !x!y`;
/// `%YAML 1.2` twice; `%YAML 2.0`; and `- - ` where one block collection may be open, and where two may.
pub fn names_and_limits_are_kept()
    ensures unknown_name { answered_by default_options (alias_named 97 0 0 ∷ end_at 2 2 ∷ [])
        ≡ RefusedAs UnknownAnchor 0 }
    ensures known_name { answered_by default_options
        (dash_at 0 1 0 ∷ anchor_named 97 2 2 ∷ dash_at 5 6 0 ∷ alias_named 97 7 2 ∷ end_at 9 4 ∷ []) ≡ EventsAre [] }
    ensures other_name { answered_by default_options
        (dash_at 0 1 0 ∷ anchor_named 97 2 2 ∷ dash_at 5 6 0 ∷ alias_named 98 7 2 ∷ end_at 9 4 ∷ [])
        ≡ RefusedAs UnknownAnchor 3 }
    ensures name_of_another_document { answered_by default_options
        (start_mark_at 0 ∷ anchor_named 97 4 4 ∷ start_mark_at 7 ∷ alias_named 97 11 4 ∷ end_at 13 6 ∷ [])
        ≡ RefusedAs UnknownAnchor 3 }
    ensures name_behind_a_document_end { answered_by default_options
        (anchor_named 97 0 0 ∷ end_mark_at 3 ∷ alias_named 97 7 0 ∷ end_at 9 2 ∷ []) ≡ RefusedAs UnknownAnchor 2 }
    ensures unknown_handle { answered_by default_options (tag_x 0 0 ∷ end_at 4 4 ∷ [])
        ≡ RefusedAs UndeclaredTagHandle 0 }
    ensures handle_of_another_document { answered_by default_options
        (handle_x 0 ∷ start_mark_at 11 ∷ tag_x 15 4 ∷ start_mark_at 20 ∷ tag_x 24 4 ∷ end_at 28 8 ∷ [])
        ≡ RefusedAs UndeclaredTagHandle 4 }
    ensures second_version { answered_by default_options (version 1 2 0 ∷ version 1 2 10 ∷ [])
        ≡ RefusedAs DuplicateVersionDirective 1 }
    ensures other_version { answered_by default_options (version 2 0 0 ∷ []) ≡ RefusedAs UnsupportedYamlMajorVersion 0 }
    ensures one_too_many { answered_by (limited 1) (dash_at 0 2 0 ∷ dash_at 2 4 2 ∷ end_at 4 4 ∷ [])
        ≡ RefusedAs (TooManyBlocks false) 1 }
    ensures as_many_as_may_be { answered_by (limited 2) (dash_at 0 2 0 ∷ dash_at 2 4 2 ∷ end_at 4 4 ∷ [])
        ≡ EventsAre [] }
{}

/// Which lexemes fit their lines and which `:` their keys, as items and as the grammar sees them.
pub fn lexemes_fit_their_lines_and_keys()
    ensures lines_of_items { fits_of_items lines_of_entries ≡ told_fits lines_of_entries }
    ensures lines { fits_of_terminals lines_of_entries ≡ told_fits lines_of_entries }
    ensures keys_of_items { fits_of_items keys_of_colons ≡ told_fits keys_of_colons }
    ensures keys { fits_of_terminals keys_of_colons ≡ told_fits keys_of_colons }
{}
