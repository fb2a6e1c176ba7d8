//! A service that threads share, one that is read, and connections over a shared service: over memory, over sockets, and over devices
//! that fail; and how it is used.
#![tactic(auto)]

#[cfg(test)]
mod crews;
#[cfg(test)]
mod devices;
#[cfg(test)]
mod hosting;
#[cfg(test)]
mod inputs;
#[cfg(test)]
mod judging;
#[cfg(test)]
mod lending;
#[cfg(test)]
mod loaders;
#[cfg(test)]
mod meetings;
#[cfg(test)]
mod plays;
#[cfg(test)]
mod reading;
#[cfg(test)]
mod serving;
#[cfg(test)]
mod steps;
#[cfg(test)]
mod tests;
#[cfg(test)]
mod uses;
#[cfg(test)]
mod waiting;
#[cfg(test)]
mod without_memory;
