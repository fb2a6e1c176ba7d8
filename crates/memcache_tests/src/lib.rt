//! Tests of the memcache service. Expected replies are those of memcached 1.6.18.
#![tactic(auto)]

#[cfg(test)]
mod connections;
#[cfg(test)]
mod links;
#[cfg(test)]
mod playing;
#[cfg(test)]
mod rows;
