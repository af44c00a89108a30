//! Laws of the parameters of directives: versions, handles and prefixes.
#![tactic(auto)]
