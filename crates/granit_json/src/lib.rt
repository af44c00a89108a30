//! JSON is read as the YAML that it is: laws, each the contract of a function without a body.
#![tactic(auto)]

mod examples;
mod readings;

pub use examples::json_examples;
pub use readings::{a_text_is_one_value, json_is_read, json_tells_its_value};
