//! Options by the words of the program.
use granit_error::Options;

/// Turns an option on or off; whether there is one of that name.
fn set_switch(options: &mut Options, name: &str, on: bool) -> bool {
    match name {
        "strict" => options.strict_indentation = on,
        "no-directives" => options.disallow_directives = on,
        "unresolved" => options.emit_unresolved_aliases = on,
        "anchors" => options.emit_anchor_events = on,
        "comments" => options.emit_comments = on,
        _ => return false,
    }
    true
}

/// Sets a limit; whether there is one of that name.
fn set_limit(options: &mut Options, name: &str, limit: usize) -> bool {
    match name {
        "max-comments" => options.max_buffered_comment_events = limit,
        "key-lookahead" => options.simple_key_max_lookahead = limit,
        "flow-limit" => options.flow_nesting_limit = limit,
        "block-limit" => options.block_nesting_limit = limit,
        "directive-bytes" => options.max_directive_bytes = limit,
        "directive-params" => options.max_reserved_directive_params = limit,
        _ => return false,
    }
    true
}

fn set_option(options: &mut Options, name: &str, value: &str) -> bool {
    match value {
        "on" => set_switch(options, name, true),
        "off" => set_switch(options, name, false),
        _ => match value.parse::<usize>() {
            Ok(limit) => set_limit(options, name, limit),
            Err(_) => false,
        },
    }
}

/// The options that words behind `events` say, where each is right.
pub fn options_of(words: &str) -> Option<Options> {
    let mut options = Options::default();
    for word in words.split_whitespace().skip(1) {
        let (name, value) = word.split_once('=')?;
        if !set_option(&mut options, name, value) {
            return None;
        }
    }
    Some(options)
}
