//! The words of the program, and the options that they say.
ghost use Rattle.std.specs.Prelude.{◌≡◌, ℕ, ◌<◌, ◌≤◌, ◌++◌, Bool, List, true, false, codes, IfOk, IfErr, IfSome};
ghost use Rattle.std.specs.Prelude.{IfNone};
ghost use Rattle.std.specs.Fmt.{decimal};
ghost use Rattle.std.specs.Str.{encode_utf8_all};
ghost use Rattle.granit_error.specs.OptionsView.{options_of};
ghost use Rattle.granit_words.specs.Words.{IsNumber, option_of, option_count, set_in, switch_text, word_of};
ghost use Rattle.granit_words.specs.Words.{GoWrongAt, IsSaidBy, Say, spelled};
ghost use Rattle.granit_words.specs.declared.words.Setting.{Setting};

use granit_base::{OwnedText, TextList};
use granit_error::Options;

/// What an option word says.
#[derive(Clone, Copy, Debug, PartialEq, Eq)]
pub enum Setting {
    StrictIndentation(bool),
    DisallowDirectives(bool),
    EmitUnresolvedAliases(bool),
    EmitAnchorEvents(bool),
    EmitComments(bool),
    MaxBufferedCommentEvents(usize),
    SimpleKeyMaxLookahead(usize),
    FlowNestingLimit(usize),
    BlockNestingLimit(usize),
    MaxDirectiveBytes(usize),
    MaxReservedDirectiveParams(usize),
}

// how many options there are
const OPTIONS: usize = 11;

impl Setting {
    /// The number of the option that is set.
    fn option(&self) -> usize
        ensures is { result ≡ option_of self.now }
        ensures bound { result < option_count }
    {
        match self {
            Setting::StrictIndentation(_) => 0,
            Setting::DisallowDirectives(_) => 1,
            Setting::EmitUnresolvedAliases(_) => 2,
            Setting::EmitAnchorEvents(_) => 3,
            Setting::EmitComments(_) => 4,
            Setting::MaxBufferedCommentEvents(_) => 5,
            Setting::SimpleKeyMaxLookahead(_) => 6,
            Setting::FlowNestingLimit(_) => 7,
            Setting::BlockNestingLimit(_) => 8,
            Setting::MaxDirectiveBytes(_) => 9,
            Setting::MaxReservedDirectiveParams(_) => 10,
        }
    }

    /// Sets the option.
    fn set_in(&self, options: &mut Options)
        ensures { options_of options.new ≡ set_in self.now (options_of options.old) }
    {
        match *self {
            Setting::StrictIndentation(on) => options.strict_indentation = on,
            Setting::DisallowDirectives(on) => options.disallow_directives = on,
            Setting::EmitUnresolvedAliases(on) => options.emit_unresolved_aliases = on,
            Setting::EmitAnchorEvents(on) => options.emit_anchor_events = on,
            Setting::EmitComments(on) => options.emit_comments = on,
            Setting::MaxBufferedCommentEvents(most) => options.max_buffered_comment_events = most,
            Setting::SimpleKeyMaxLookahead(most) => options.simple_key_max_lookahead = most,
            Setting::FlowNestingLimit(most) => options.flow_nesting_limit = most,
            Setting::BlockNestingLimit(most) => options.block_nesting_limit = most,
            Setting::MaxDirectiveBytes(most) => options.max_directive_bytes = most,
            Setting::MaxReservedDirectiveParams(most) => {
                options.max_reserved_directive_params = most;
            }
        }
    }
}

/// What follows a name in a word, where the word begins with it.
fn behind<'a>(name: &str, word: &'a str) -> Option<&'a str>
    ensures some { IfSome result (λ value. word.now ≡ name.now ++ value.now) }
    ensures none { IfNone result ((value : List ℕ) → word.now ≡ name.now ++ value → ⊥) }
{
    word.strip_prefix(name)
}

/// Whether the switch of that name is on, where a word says it.
fn switch(name: &str, word: &str) -> Option<bool>
    ensures some { IfSome result (λ on. word.now ≡ name.now ++ switch_text on) }
    ensures none { IfNone result ((on : Bool) → word.now ≡ name.now ++ switch_text on → ⊥) }
{
    let value = behind(name, word)?;
    if value == "on" {
        Some(true)
    } else if value == "off" {
        Some(false)
    } else {
        None
    }
}

/// The number that digits write, nine of them at most and no zero in front of others.
pub fn number_of(digits: &str) -> Option<usize>
    ensures some { IfSome result (λ n. IsNumber n × (digits.now ≡ decimal n)) }
    ensures none { IfNone result ((n : ℕ) → IsNumber n → digits.now ≡ decimal n → ⊥) }
{
    let bytes = digits.as_bytes();
    if bytes.is_empty() {
        return None;
    }
    let first = bytes[0];
    if first == b'0' {
        return if bytes.len() == 1 { Some(0) } else { None };
    }
    if first == b'+' {
        return None;
    }
    match digits.parse::<usize>() {
        Ok(number) => {
            if number < 1_000_000_000 {
                Some(number)
            } else {
                None
            }
        }
        Err(_) => None,
    }
}

/// The number that a word says of the option of that name.
fn number(name: &str, word: &str) -> Option<usize>
    ensures some { IfSome result (λ n. IsNumber n × (word.now ≡ name.now ++ decimal n)) }
    ensures none { IfNone result ((n : ℕ) → IsNumber n → word.now ≡ name.now ++ decimal n → ⊥) }
{
    number_of(behind(name, word)?)
}

/// The switch that a word sets.
fn switch_setting(word: &str) -> Option<Setting>
    ensures some { IfSome result (λ s. IsSaidBy s word.now) }
    ensures none { IfNone result ((s : Setting) → option_of s < 5 → IsSaidBy s word.now → ⊥) }
{
    if let Some(on) = switch("strict=", word) {
        return Some(Setting::StrictIndentation(on));
    }
    if let Some(on) = switch("no-directives=", word) {
        return Some(Setting::DisallowDirectives(on));
    }
    if let Some(on) = switch("unresolved=", word) {
        return Some(Setting::EmitUnresolvedAliases(on));
    }
    if let Some(on) = switch("anchors=", word) {
        return Some(Setting::EmitAnchorEvents(on));
    }
    if let Some(on) = switch("comments=", word) {
        return Some(Setting::EmitComments(on));
    }
    None
}

/// The limit that a word sets.
fn limit_setting(word: &str) -> Option<Setting>
    ensures some { IfSome result (λ s. IsSaidBy s word.now) }
    ensures none { IfNone result ((s : Setting) → 5 ≤ option_of s → IsSaidBy s word.now → ⊥) }
{
    if let Some(most) = number("max-comments=", word) {
        return Some(Setting::MaxBufferedCommentEvents(most));
    }
    if let Some(most) = number("key-lookahead=", word) {
        return Some(Setting::SimpleKeyMaxLookahead(most));
    }
    if let Some(most) = number("flow-limit=", word) {
        return Some(Setting::FlowNestingLimit(most));
    }
    if let Some(most) = number("block-limit=", word) {
        return Some(Setting::BlockNestingLimit(most));
    }
    if let Some(most) = number("directive-bytes=", word) {
        return Some(Setting::MaxDirectiveBytes(most));
    }
    if let Some(most) = number("directive-params=", word) {
        return Some(Setting::MaxReservedDirectiveParams(most));
    }
    None
}

/// What an option word says.
fn setting_of(word: &OwnedText) -> Option<Setting>
    ensures some { IfSome result (λ s. IsSaidBy s (encode_utf8_all word.now.characters)) }
    ensures none { IfNone result ((s : Setting) → IsSaidBy s (encode_utf8_all word.now.characters) → ⊥) }
{
    let word = word.as_str();
    match switch_setting(word) {
        Some(setting) => Some(setting),
        None => limit_setting(word),
    }
}

/// Whether a word is `events`.
fn is_events(word: &OwnedText) -> bool
    ensures yes { result ≡ true → encode_utf8_all word.now.characters ≡ codes "events" }
    ensures no { result ≡ false → encode_utf8_all word.now.characters ≡ codes "events" → ⊥ }
{
    word.as_str() == "events"
}

/// The options that the words say.
///
/// # Errors
///
/// The number of the first wrong word, from 1, or one past the last where a word is missing.
pub fn read_words(words: &TextList) -> Result<Options, usize>
    ensures right { IfOk result (λ o. Say (spelled words.now) (options_of o)) }
    ensures wrong { IfErr result (λ k. GoWrongAt (spelled words.now) k) }
{
    let list = words.as_slice();
    if list.is_empty() || !is_events(&list[0]) {
        return Err(1);
    }
    let mut is_set = [false; OPTIONS];
    let mut options = Options::default();
    'words: for i in 1..list.len() {
        let Some(setting) = setting_of(&list[i]) else {
            return Err(i + 1);
        };
        let option = setting.option();
        if is_set[option] {
            return Err(i + 1);
        }
        is_set[option] = true;
        setting.set_in(&mut options);
    }
    Ok(options)
}
