//! Tests of lines and requests.
mod buffers;
mod requests;
