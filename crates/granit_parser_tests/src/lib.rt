//! Tests of granit_parser by its public calls: events one by one, recovery, and sources that fail. They stand here
//! since a crate with tests is proved twice; what it sends to receivers, its numbers and its handles stand in
//! granit_receive_tests.
#![tactic(auto)]

#[cfg(test)]
mod agree;
#[cfg(test)]
mod failing;
#[cfg(test)]
mod parser;
#[cfg(test)]
mod recovery;
#[cfg(test)]
mod sourced;
