//! Tests of calls that no row shows: a crate of tests alone, since a crate that has tests is proved twice.
#![tactic(auto)]

#[cfg(test)]
mod edge;
#[cfg(test)]
mod region;
#[cfg(test)]
mod slow;
#[cfg(test)]
mod solved;
#[cfg(test)]
mod trace;
#[cfg(test)]
mod views;
#[cfg(test)]
mod walks;
#[cfg(test)]
mod watched;
