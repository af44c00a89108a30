//! The lines of canonical block text as the plain machine takes them.
#![tactic(auto)]
