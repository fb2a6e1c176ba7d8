//! Tests of the service.
#![tactic(auto)]

#[cfg(test)]
mod closing;
#[cfg(test)]
mod commanding;
#[cfg(test)]
mod inputs;
#[cfg(test)]
mod journals;
#[cfg(test)]
mod limiting;
#[cfg(test)]
mod loading;
#[cfg(test)]
mod parting;
#[cfg(test)]
mod playing;
#[cfg(test)]
mod refused_in_turn;
#[cfg(test)]
mod refusing;
#[cfg(test)]
mod retrying;
#[cfg(test)]
mod rows;
#[cfg(test)]
mod serving;
#[cfg(test)]
mod stores;
#[cfg(test)]
mod texts;
#[cfg(test)]
mod without_memory;
