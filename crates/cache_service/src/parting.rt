//! What follows the end of a connection.

use cache_run::Clock;
use std::io::{ErrorKind, Read};
use std::net::{Shutdown, TcpStream};
use std::time::Duration;

/// So long, in nanoseconds, what comes in after the end is read at most.
const PATIENCE: u64 = 1_000_000_000;

/// Ends the writing of a connection that is over, and reads and drops what comes in until its client has ended it too, or a second has
/// passed by the clock: the system takes back what was written to a socket that is closed while something waits to be read.
pub fn part<C: Clock>(stream: &TcpStream, clock: &mut C) {
    if stream.shutdown(Shutdown::Write).is_err() {
        return;
    }
    let until = clock.now().saturating_add(PATIENCE);
    for _read in 0..u64::MAX {
        if !drops_more(stream, until.saturating_sub(clock.now())) {
            return;
        }
    }
}

/// Reads and drops what comes in within so many nanoseconds. Returns whether more may come.
fn drops_more(stream: &TcpStream, left: u64) -> bool {
    let mut stream = stream;
    let mut buffer = [0u8; 4096];
    if left == 0
        || stream
            .set_read_timeout(Some(Duration::from_nanos(left)))
            .is_err()
    {
        return false;
    }
    match stream.read(&mut buffer) {
        Ok(count) => count > 0,
        Err(error) => error.kind() == ErrorKind::Interrupted,
    }
}
