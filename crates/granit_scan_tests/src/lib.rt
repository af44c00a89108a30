//! Tests of granit_base and of the parts of escapes in granit_lexemes (characters, places and texts), and of
//! granit_properties, granit_plain, granit_quoted, granit_reader and granit_scan, by their public calls; the values of
//! lexemes and directives stand in granit_token_cases.
#![tactic(auto)]

#[cfg(test)]
mod agree;
#[cfg(test)]
mod base;
#[cfg(test)]
mod begun;
#[cfg(test)]
mod escapes;
#[cfg(test)]
mod failing;
#[cfg(test)]
mod lex;
#[cfg(test)]
mod properties;
#[cfg(test)]
mod reader;
#[cfg(test)]
mod recovery;
