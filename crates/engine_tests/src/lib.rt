//! Tests of the cache of one part.
#![tactic(auto)]

#[cfg(test)]
mod cells;
#[cfg(test)]
mod frequencies;
#[cfg(test)]
mod hashes;
#[cfg(test)]
mod housekeeping;
#[cfg(test)]
mod laws;
#[cfg(test)]
mod looks;
#[cfg(test)]
mod names;
#[cfg(test)]
mod predicates;
#[cfg(test)]
mod refusals;
#[cfg(test)]
mod rows;
#[cfg(test)]
mod running;
#[cfg(test)]
mod without_memory;
#[cfg(test)]
mod writes;
