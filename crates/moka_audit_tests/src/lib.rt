//! Tests of the judge of transcripts: of its definitions, of lines, of what a step does to values,
//! of verdicts, and that what a service plays is right, whole and cut at every byte.
#![tactic(auto)]

#[cfg(test)]
mod deeds;
#[cfg(test)]
mod lines;
#[cfg(test)]
mod model;
#[cfg(test)]
mod played;
#[cfg(test)]
mod refused_in_turn;
#[cfg(test)]
mod rows;
#[cfg(test)]
mod transcripts;
