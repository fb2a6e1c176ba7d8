//! How `moka_policy` is used.
mod queues;
mod timers;
mod weighing;
