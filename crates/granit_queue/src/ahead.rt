//! What is asked of the items behind another.
ghost use Rattle.std.specs.Prelude.{◌≡◌, ◌||◌, if◌then◌else◌, Some, None};
ghost use Rattle.std.specs.Option.{option_map};
ghost use Rattle.granit_items.specs.ItemViews.{boxed_view, item_view, kind_view, lexeme_view};
ghost use Rattle.granit_machine.specs.Parser as parser;
ghost use Rattle.granit_steps.specs.Steps as spec;

use crate::queue::Queued;
use granit_items::{Item, Lexeme, LexemeKind, Note};

/// Whether the place of an item's comment depends on what comes behind it (YAML 1.2.2, 6.6).
pub fn asks_next(item: &Item<'_>) -> bool
    ensures { result ≡ spec.asks_next (item_view item.now) }
{
    match item {
        Item::Lexeme(lexeme) => is_open(&lexeme.tail),
        Item::Note(note) => !note.is_right,
    }
}

fn is_open(tail: &Option<Box<Note<'_>>>) -> bool
    ensures { result ≡ spec.is_open_comment (option_map boxed_view tail.now) }
{
    match tail {
        None => false,
        Some(note) => !note.is_right,
    }
}

/// The line by which a comment before an item is placed, and none before an end that ends no column.
pub fn line_of(queued: &Queued<'_>) -> Option<usize>
    ensures { result ≡ parser.line_of_item (item_view queued.now.item) queued.now.begins_key }
{
    match &queued.item {
        Item::Lexeme(lexeme) => line_of_lexeme(lexeme, queued.begins_key || lexeme.key.is_some()),
        Item::Note(note) => Some(note.start.line()),
    }
}

fn line_of_lexeme(lexeme: &Lexeme<'_>, begins_key: bool) -> Option<usize>
    ensures { result ≡ parser.line_of_lexeme (kind_view lexeme.now.kind) (lexeme_view lexeme.now) begins_key }
{
    match lexeme.kind {
        LexemeKind::StreamEnd => line_of_end(lexeme),
        _ => line_of_token(lexeme, begins_key),
    }
}

fn line_of_end(lexeme: &Lexeme<'_>) -> Option<usize>
    ensures { result ≡ (if lexeme.now.ends_column then Some lexeme.now.start.place.line else None) }
{
    if lexeme.ends_column {
        Some(lexeme.start.line())
    } else {
        None
    }
}

fn line_of_token(lexeme: &Lexeme<'_>, begins_key: bool) -> Option<usize>
    ensures { result ≡ (if lexeme.now.ends_column || begins_key then Some lexeme.now.start.place.line
        else Some lexeme.now.shown_start.place.line) }
{
    if lexeme.ends_column || begins_key {
        Some(lexeme.start.line())
    } else {
        Some(lexeme.shown_start.line())
    }
}
