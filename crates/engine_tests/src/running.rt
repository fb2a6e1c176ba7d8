//! Tests of the fast cache's maintenance, as far as it allocates.
mod runs;
