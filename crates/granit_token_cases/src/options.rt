//! Options by words.
use anyhow::{Context, Result, bail};
use granit_error::Options;

/// Turns an option on or off; whether there is one of that name.
fn set_switch(options: &mut Options, name: &str, on: bool) -> bool {
    match name {
        "strict" => options.strict_indentation = on,
        "no-directives" => options.disallow_directives = on,
        "comments" => options.emit_comments = on,
        _ => return false,
    }
    true
}

/// Sets a limit; whether there is one of that name.
fn set_limit(options: &mut Options, name: &str, limit: usize) -> bool {
    match name {
        "key-lookahead" => options.simple_key_max_lookahead = limit,
        "flow-limit" => options.flow_nesting_limit = limit,
        "block-limit" => options.block_nesting_limit = limit,
        "directive-bytes" => options.max_directive_bytes = limit,
        "directive-params" => options.max_reserved_directive_params = limit,
        _ => return false,
    }
    true
}

/// One option, as the program's words give it; whether there is such a one.
fn set_option(options: &mut Options, name: &str, value: &str) -> bool {
    match value {
        "on" => set_switch(options, name, true),
        "off" => set_switch(options, name, false),
        _ => match value.parse::<usize>() {
            Ok(limit) => set_limit(options, name, limit),
            Err(_) => false,
        },
    }
}

/// The options that words say.
pub fn case_options(words: &str) -> Result<Options> {
    let mut options = Options::default();
    for word in words.split_whitespace() {
        let (name, value) = word.split_once('=').context("an option has a value")?;
        if !set_option(&mut options, name, value) {
            bail!("no such option");
        }
    }
    Ok(options)
}
