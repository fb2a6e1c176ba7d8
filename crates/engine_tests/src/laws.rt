//! Tests of the rules of a cache, and rows of the reference cache and of the laws over its runs, as
//! computed checks.
mod reference;
mod rules;
mod runs;
mod settings;
