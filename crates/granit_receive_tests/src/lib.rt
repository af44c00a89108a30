//! Tests of what a parser of granit_parser sends to receivers, of the numbers of its anchors and of the handles that it
//! keeps, by its public calls. They stand here since a crate with tests is proved twice.
#![tactic(auto)]

#[cfg(test)]
mod agree;
#[cfg(test)]
mod numbers;
#[cfg(test)]
mod receive;
#[cfg(test)]
mod tags;
