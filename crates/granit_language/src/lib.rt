//! What a text is read as, in relations: its lexemes and comments, with what those before a place say of it; and over
//! lexemes the trees, their places, scopes and events, what is open at a place, and the causes of faults of the
//! grammar.
#![tactic(auto)]
