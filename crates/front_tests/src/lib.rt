//! Rows of a cache that is lent, and uses of it.
#![tactic(auto)]

#[cfg(test)]
mod builder;
#[cfg(test)]
mod counting;
#[cfg(test)]
mod covering;
#[cfg(test)]
mod crowds;
#[cfg(test)]
mod iterating;
#[cfg(test)]
mod playing;
#[cfg(test)]
mod rows;
#[cfg(test)]
mod turns;
#[cfg(test)]
mod uses;
#[cfg(test)]
mod without_memory;
