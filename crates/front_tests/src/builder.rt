//! Rows of what builds a cache that is lent, and of what it shows.
mod building;
mod naming;
mod showing;
mod states;
mod texts;
