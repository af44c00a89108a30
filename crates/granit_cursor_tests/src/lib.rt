//! Tests of granit_cursor, granit_properties and granit_directives by their public calls, some over an input that
//! refuses slices (granit_stream). They stand here since a crate with tests is proved twice; tests of granit_input and
//! granit_buffered stand in granit_input_tests.
#![tactic(auto)]

#[cfg(test)]
mod agree;
#[cfg(test)]
mod cursor;
#[cfg(test)]
mod refused_slices;
