//! Each step of the plain machine's parser within a node agrees with the grammar.
#![tactic(auto)]
