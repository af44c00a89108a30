//! Each step of the plain machine's parser in a collection agrees with the grammar.
#![tactic(auto)]
