//! Tests of granit_stack by its public calls, and the laws of granit_stack_laws at concrete types. They stand here
//! since a crate with tests is proved twice.
#![tactic(auto)]

#[cfg(test)]
mod agree;
#[cfg(test)]
mod included;
#[cfg(test)]
mod includes;
#[cfg(test)]
mod laws;
#[cfg(test)]
mod pushes;
#[cfg(test)]
mod receivers;
#[cfg(test)]
mod resolver;
#[cfg(test)]
mod stack;
#[cfg(test)]
mod texts;
#[cfg(test)]
mod told;
