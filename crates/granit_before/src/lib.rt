//! What the lexemes before a place say of it, in words of the lexemes alone.
#![tactic(auto)]
