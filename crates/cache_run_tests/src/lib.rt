//! Tests of runs over devices: loads, failures, and what is sent to slow writers.
#![tactic(auto)]

#[cfg(test)]
mod devices;
#[cfg(test)]
mod failures;
#[cfg(test)]
mod loads;
#[cfg(test)]
mod sources;
#[cfg(test)]
mod writers;
