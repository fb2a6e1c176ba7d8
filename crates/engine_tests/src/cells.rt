//! Tests of the fast cache's keys, tables and timers, as far as they allocate.
mod keys;
mod tables;
mod timers;
