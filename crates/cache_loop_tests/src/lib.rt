//! Tests of servers whose loops wait for many connections.
#![tactic(auto)]

#[cfg(test)]
mod clients;
#[cfg(test)]
mod hosted;
#[cfg(test)]
mod loads;
#[cfg(test)]
mod refusals;
#[cfg(test)]
mod scenes;
#[cfg(test)]
mod servers;
