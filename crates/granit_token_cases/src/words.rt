//! The words of tokens and of faults, which are written behind others.
use anyhow::Result;
use granit_base::{Marker, Placement, ScalarStyle, Span, Text, TextList};
use granit_cursor::{Comment, Cursor, Token, TokenType};
use granit_error::ScanError;
use granit_input::{Input, StrInput};

/// Passes that many characters. What is generic in the input is cheap to prove.
fn pass<T: Input>(cursor: &mut Cursor<T>, count: usize) {
    for _ in 0..count {
        cursor.step();
    }
}

/// A cursor that many characters into a text.
pub fn cursor_at<'a>(text: &'a str, index: usize) -> Cursor<StrInput<'a>> {
    let mut cursor = Cursor::new(StrInput::new(text));
    pass(&mut cursor, index);
    cursor
}

/// A place, as `index:line:column`, the column from 1.
pub fn push_place(line: &mut String, mark: Marker) -> Result<()> {
    let column = mark.col().saturating_add(1);
    write!(line, "{}:{}:{}", mark.index(), mark.line(), column)?;
    Ok(())
}

fn style_word(style: &ScalarStyle) -> &'static str {
    match style {
        ScalarStyle::Plain => "plain",
        ScalarStyle::SingleQuoted => "single",
        ScalarStyle::DoubleQuoted => "double",
        ScalarStyle::Literal => "literal",
        ScalarStyle::Folded => "folded",
    }
}

/// A text in quotes behind a space.
fn push_text(line: &mut String, text: &str) -> Result<()> {
    write!(line, " \"{}\"", text.escape_default())?;
    Ok(())
}

/// A name and a text.
fn push_one(line: &mut String, name: &str, text: &str) -> Result<()> {
    line.push_str(name)?;
    push_text(line, text)
}

/// A name and two texts.
fn push_two(line: &mut String, name: &str, first: &Text<'_>, second: &Text<'_>) -> Result<()> {
    push_one(line, name, first.as_str())?;
    push_text(line, second.as_str())
}

/// What a token without a text says.
fn word(token: &TokenType<'_>) -> &'static str {
    match token {
        TokenType::StreamStart => "StreamStart",
        TokenType::StreamEnd => "StreamEnd",
        TokenType::DocumentStart => "DocumentStart",
        TokenType::DocumentEnd => "DocumentEnd",
        TokenType::BlockSequenceStart => "BlockSequenceStart",
        TokenType::BlockMappingStart => "BlockMappingStart",
        TokenType::BlockEnd => "BlockEnd",
        TokenType::FlowSequenceStart => "FlowSequenceStart",
        TokenType::FlowSequenceEnd => "FlowSequenceEnd",
        TokenType::FlowMappingStart => "FlowMappingStart",
        TokenType::FlowMappingEnd => "FlowMappingEnd",
        TokenType::BlockEntry => "BlockEntry",
        TokenType::FlowEntry => "FlowEntry",
        TokenType::Key => "Key",
        TokenType::Value => "Value",
        _ => "?",
    }
}

fn placement_word(comment: &Comment<'_>) -> &'static str {
    match comment.placement() {
        Placement::Right => "Comment right",
        Placement::Free => "Comment free",
        _ => "Comment elsewhere",
    }
}

fn push_scalar(line: &mut String, style: &ScalarStyle, text: &str) -> Result<()> {
    line.push_str("Scalar ")?;
    push_one(line, style_word(style), text)
}

fn push_version(line: &mut String, major: u32, minor: u32) -> Result<()> {
    write!(line, "VersionDirective {major}.{minor}")?;
    Ok(())
}

fn push_reserved(line: &mut String, name: &Text<'_>, parameters: &TextList) -> Result<()> {
    push_one(line, "ReservedDirective", name.as_str())?;
    for parameter in parameters.as_slice() {
        push_text(line, parameter.as_str())?;
    }
    Ok(())
}

/// What a token says.
fn push_words(line: &mut String, token: &TokenType<'_>) -> Result<()> {
    match token {
        TokenType::VersionDirective(major, minor) => push_version(line, *major, *minor),
        TokenType::TagDirective(handle, prefix) => push_two(line, "TagDirective", handle, prefix),
        TokenType::Alias(name) => push_one(line, "Alias", name.as_str()),
        TokenType::Anchor(name) => push_one(line, "Anchor", name.as_str()),
        TokenType::Tag(handle, suffix) => push_two(line, "Tag", handle, suffix),
        TokenType::Scalar(style, text) => push_scalar(line, style, text.as_str()),
        TokenType::Comment(comment) => push_one(line, placement_word(comment), comment.text()),
        TokenType::ReservedDirective(name, parameters) => push_reserved(line, name, parameters),
        _ => Ok(line.push_str(word(token))?),
    }
}

fn push_span(line: &mut String, span: Span) -> Result<()> {
    push_place(line, span.start)?;
    line.push_str("-")?;
    push_place(line, span.end)?;
    if let Some(indent) = span.indent {
        write!(line, " indent={indent}")?;
    }
    Ok(())
}

/// A token with its span, and the column that the span tells.
pub fn push_token(line: &mut String, token: &Token<'_>) -> Result<()> {
    push_words(line, token.token_type())?;
    line.push_str(" ")?;
    push_span(line, token.span())
}

/// A fault with its number.
pub fn push_fault(line: &mut String, error: &ScanError) -> Result<()> {
    write!(line, "fault {}: {error}", error.kind().number())?;
    Ok(())
}
