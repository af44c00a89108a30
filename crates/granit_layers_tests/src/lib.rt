//! Tests of granit_error, granit_event and granit_model by their public calls: kinds and errors, printed events and
//! rows of the tags' table, trees, their depth and their canonical flow text; and of granit_replay and granit_layers.
//! They stand here since a crate with tests is proved twice; generated trees stand in granit_cases, characters, places
//! and texts in granit_scan_tests.
#![tactic(auto)]

#[cfg(test)]
mod agree;
#[cfg(test)]
mod error;
#[cfg(test)]
mod event;
#[cfg(test)]
mod layers;
#[cfg(test)]
mod letters;
#[cfg(test)]
mod replay;
#[cfg(test)]
mod resolver;
#[cfg(test)]
mod trees;
