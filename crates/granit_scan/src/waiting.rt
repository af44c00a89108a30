//! The tokens that are made and not yet given. One goes by a call of `drop`: in place, proofs write it out a kind.
ghost use Rattle.std.specs.Prelude.{◌≡◌, ◌==◌, [], ◌∷◌, ◌++◌, length, replicate, drop, slice_get, false, None, Some};
ghost use Rattle.std.specs.Prelude.{IfOk, IsOk, OnOk};
ghost use Rattle.std.specs.Option.{option_map};
ghost use Rattle.granit_items.specs.ItemViews.{boxed_lexeme, boxed_view, kind_view, note_view};
ghost use Rattle.granit_scan.specs.Marks as marks;
ghost use Rattle.granit_scan.specs.TokenViews.{CollectionEnd, inserted_if, marked, plain_token, token_kind};

use crate::convert::{mark_of, note_of};
use granit_base::{Marker, NoMemory, Span};
use granit_cursor::{Token, TokenType};
use granit_items::{Lexeme, LexemeKind, Note};
use std::alloc::Global;
use std::collections::VecDeque;
use std::marker::Model;

/// Tokens that wait, the oldest first. Contracts see their plain tokens.
#[derive(Drop)]
pub(crate) struct Waiting<'input> {
    tokens: VecDeque<Token<'input>>,
}

impl<'input> Model for Waiting<'input> {
    ghost use Rattle.std.specs.Prelude.{List, map};
    ghost use Rattle.granit_scan.specs.TokenViews.{PlainToken, plain_token};

    ghost Value = { List PlainToken };

    ghost view = { λ w. map plain_token w.tokens.items };
}

impl<'input> Waiting<'input> {
    /// None waits.
    pub(crate) fn new(alloc: Global) -> Waiting<'input>
        ensures { result ≡ [] }
    {
        Waiting {
            tokens: VecDeque::new(alloc),
        }
    }

    /// None waits any more.
    pub(crate) fn clear(&mut self)
        ensures { self.new ≡ [] }
    {
        self.tokens.clear();
    }

    /// Whether none waits.
    #[tactic(auto, using(crate::proofs::WriteLemmas::shown_length))]
    pub(crate) fn is_empty(&self) -> bool
        ensures { result ≡ (length self.now == 0) }
    {
        self.tokens.is_empty()
    }

    /// The oldest one goes.
    pub(crate) fn pop(&mut self) -> Option<Token<'input>>
        ensures first { option_map plain_token result ≡ slice_get self.old 0 }
        ensures rest { self.new ≡ drop 1 self.old }
    {
        self.tokens.pop_front()
    }

    /// One more waits.
    #[inline(always)]
    pub(crate) fn push(&mut self, token: Token<'input>) -> Result<(), NoMemory>
        ensures { OnOk result (self.new ≡ self.old ++ plain_token token.entry ∷ []) }
    {
        self.tokens.reserve(1)?;
        self.tokens.push_back_reserved(token);
        Ok(())
    }

    /// What is inserted at a place waits, where it is wanted.
    #[inline(always)]
    pub(crate) fn insert_if(
        &mut self,
        wanted: bool,
        what: TokenType<'input>,
        mark: Marker,
    ) -> Result<(), NoMemory>
        ensures inserted { OnOk result (self.new ≡ self.old ++ inserted_if wanted (token_kind what.entry) mark) }
        ensures memory { wanted ≡ false → IsOk result }
    {
        if !wanted {
            return Ok(());
        }
        self.push(Token::new(Span::empty(mark), what))
    }

    /// So many block collections end at a place.
    #[tactic(auto, using(crate::proofs::WriteLemmas::no_more, crate::proofs::WriteLemmas::one_more))]
    pub(crate) fn insert_ends(&mut self, count: usize, mark: Marker) -> Result<(), NoMemory>
        ensures inserted { OnOk result (self.new ≡ self.old ++ replicate count (marked CollectionEnd mark)) }
        ensures memory { count ≡ 0 → IsOk result }
    {
        'ends: for _done in 0..count {
            self.push(Token::new(Span::empty(mark), TokenType::BlockEnd))?;
        }
        Ok(())
    }

    /// The first mark of a document, or of the end, from a token that was handed back on, with the comment behind it;
    /// of what waits some goes.
    ///
    /// # Errors
    ///
    /// `NoMemory` alone.
    pub(crate) fn take_mark(
        &mut self,
        alloc: Global,
        handed: Option<Token<'input>>,
    ) -> Result<Option<Box<Lexeme<'input>>>, NoMemory>
        ensures taken { IfOk result (λ m. option_map boxed_lexeme m
            ≡ marks.mark_in (marks.handed (option_map plain_token handed.entry) ++ self.old)) }
        ensures memory { marks.mark_in (marks.handed (option_map plain_token handed.entry) ++ self.old) ≡ None
            → IsOk result }
    {
        let Some(token) = handed else {
            return self.pop_mark(alloc);
        };
        let kind = mark_of(&token);
        let span = token.span();
        drop(token);
        match kind {
            None => self.pop_mark(alloc),
            Some(kind) => self.with_note(alloc, kind, span),
        }
    }

    fn pop_mark(&mut self, alloc: Global) -> Result<Option<Box<Lexeme<'input>>>, NoMemory>
        ensures taken { IfOk result (λ m. option_map boxed_lexeme m ≡ marks.mark_in self.old) }
        ensures memory { marks.mark_in self.old ≡ None → IsOk result }
    {
        'tokens: loop {
            match self.pop() {
                None => return Ok(None),
                Some(token) => {
                    let kind = mark_of(&token);
                    let span = token.span();
                    drop(token);
                    if let Some(kind) = kind {
                        return self.with_note(alloc, kind, span);
                    }
                }
            }
        }
    }

    /// A mark with the comment that waits behind it.
    fn with_note(
        &mut self,
        alloc: Global,
        kind: LexemeKind<'input>,
        span: Span,
    ) -> Result<Option<Box<Lexeme<'input>>>, NoMemory>
        ensures { IfOk result (λ m. option_map boxed_lexeme m
            ≡ Some (marks.mark_lexeme (kind_view kind.entry) span (marks.tail_in self.old))) }
    {
        let tail = self.pop_note(alloc)?;
        let mark = Lexeme {
            number: 0,
            kind,
            start: span.start,
            shown_start: span.start,
            shown_end: span.end,
            end: span.end,
            indent: None,
            in_flow: false,
            begins_line: true,
            follows_indicator: false,
            ends_column: false,
            key: None,
            tail,
        };
        Ok(Some(Box::new(alloc, mark)?))
    }

    fn pop_note(&mut self, alloc: Global) -> Result<Option<Box<Note<'input>>>, NoMemory>
        ensures taken { IfOk result (λ t. option_map boxed_view t ≡ marks.tail_in self.old) }
        ensures memory { marks.tail_in self.old ≡ None → IsOk result }
    {
        match self.pop() {
            None => Ok(None),
            Some(token) => boxed(alloc, note_of(token)),
        }
    }
}

fn boxed<'input>(
    alloc: Global,
    note: Option<Note<'input>>,
) -> Result<Option<Box<Note<'input>>>, NoMemory>
    ensures moved { IfOk result (λ t. option_map boxed_view t ≡ option_map note_view note.entry) }
    ensures memory { option_map note_view note.entry ≡ None → IsOk result }
{
    match note {
        None => Ok(None),
        Some(note) => Ok(Some(Box::new(alloc, note)?)),
    }
}
