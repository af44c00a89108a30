//! JSON's scalars, keys and gaps as the plain machine takes them.
#![tactic(auto)]
