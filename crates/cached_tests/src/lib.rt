//! Tests of configurations, of scripts over readers and writers that fail, of the program over its words, and of servers over
//! sockets of this machine.
#![tactic(auto)]

#[cfg(test)]
mod caches;
#[cfg(test)]
mod clients;
#[cfg(test)]
mod configs;
#[cfg(test)]
mod devices;
#[cfg(test)]
mod meetings;
#[cfg(test)]
mod outboxes;
#[cfg(test)]
mod scripts;
#[cfg(test)]
mod servers;
#[cfg(test)]
mod sinks;
#[cfg(test)]
mod stages;
#[cfg(test)]
mod texts;
#[cfg(test)]
mod words;
