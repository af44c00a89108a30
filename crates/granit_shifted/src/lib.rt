//! Lexemes of a text that stands behind another one are read as they are alone, with their places moved.
#![tactic(auto)]
