//! What an operator says on standard input.

use crate::starting::Told;
use crossbeam_channel::Sender;
use std::alloc::Global;
use std::io::{ErrorKind, Read};
use std::sync::Wait;

/// The line that stops the server.
const STOP: &[u8] = b"stop";

/// What was read of a line.
#[derive(Drop)]
struct Line {
    /// How many bytes it shares with the line that stops the server; `None` if it says something else.
    shared: Option<usize>,
}

impl Line {
    /// Reads the next byte. Returns whether it ends a line that stops the server.
    fn take(&mut self, byte: u8) -> bool {
        if byte == b'\n' {
            let stops = self.shared == Some(STOP.len());
            self.shared = Some(0);
            return stops;
        }
        self.shared = match self.shared {
            Some(count) if STOP.get(count).copied() == Some(byte) => Some(count.saturating_add(1)),
            _ => None,
        };
        false
    }
}

/// Reads lines, and passes on each that stops the server, until there are no more or nobody waits for them.
pub fn read_orders<I: Read, R: Wait>(rt: &R, input: &mut I, orders: &Sender<Told, Global>) {
    let mut line = Line { shared: Some(0) };
    let mut byte = [0u8; 1];
    for _read in rt.forever() {
        match input.read(&mut byte) {
            Ok(0) => return,
            Ok(_) => {
                if line.take(byte[0]) && orders.send(rt, Told::Stop).is_err() {
                    return;
                }
            }
            Err(error) if error.kind() == ErrorKind::Interrupted => {}
            Err(_) => return,
        }
    }
}
