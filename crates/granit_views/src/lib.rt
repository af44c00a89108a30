//! What stands between the plain machine's parser and the grammar: views of its frames, and how they end.
#![tactic(auto)]
