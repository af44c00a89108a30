//! A machine over the grammar's places gives the events of its trees.
#![tactic(auto)]
