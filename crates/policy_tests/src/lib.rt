//! Tests of the policy's structures.
#![tactic(auto)]

#[cfg(test)]
mod queues;
#[cfg(test)]
mod records;
#[cfg(test)]
mod regions;
#[cfg(test)]
mod rows;
#[cfg(test)]
mod sketches;
#[cfg(test)]
mod texts;
#[cfg(test)]
mod timers;
#[cfg(test)]
mod uses;
#[cfg(test)]
mod without_memory;
