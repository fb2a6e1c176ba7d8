//! How `moka` is used: rows of a table that are read through a cache, and sessions that end by
//! themselves.
mod names;
mod products;
mod reading;
mod sessions;
