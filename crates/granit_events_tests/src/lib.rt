//! Tests of granit_load and granit_events by their public calls, and of trees that are written as canonical text and
//! read back.
#![tactic(auto)]

#[cfg(test)]
mod agree;
#[cfg(test)]
mod answers;
#[cfg(test)]
mod failing;
#[cfg(test)]
mod iterators;
#[cfg(test)]
mod load;
#[cfg(test)]
mod printing;
#[cfg(test)]
mod round_trip;
#[cfg(test)]
mod running;
#[cfg(test)]
mod testing;
