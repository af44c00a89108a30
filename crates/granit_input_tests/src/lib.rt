//! Tests of granit_input and granit_buffered by their public calls, of granit_input also over an input of one's own
//! (granit_stream), of which the laws alone are known. They stand here since a crate with tests is proved twice; tests
//! of granit_cursor stand in granit_cursor_tests.
#![tactic(auto)]

#[cfg(test)]
mod agree;
#[cfg(test)]
mod calls;
#[cfg(test)]
mod iterators;
#[cfg(test)]
mod taken;
