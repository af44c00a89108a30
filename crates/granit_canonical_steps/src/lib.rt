//! Canonical flow text as the plain machine's reader and parser take it, a part at a time.
#![tactic(auto)]
