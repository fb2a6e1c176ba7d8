//! Messages on standard error.

use bivrangd_metrics::unix_time;
use cache_run::{Watched, send};
use httpdate::HttpDate;
use std::alloc::{AllocError, Global};
use std::fmt::Display;
use std::io::Write;
use std::time::Clock;

/// A writer of messages, each on a line of its own with the time.
#[derive(Drop)]
pub struct Alarms<R: Clock + Copy, E: Write + Drop> {
    rt: R,
    alloc: Global,
    writer: Watched<E>,
}

impl<R: Clock + Copy, E: Write + Drop> Alarms<R, E> {
    /// Creates a writer of messages to `writer`.
    pub fn new(rt: R, alloc: Global, writer: E) -> Alarms<R, E> {
        Alarms {
            rt,
            alloc,
            writer: Watched::new(writer),
        }
    }

    /// Writes a text as it is. What cannot be written is lost.
    pub fn show(&mut self, text: &[u8]) {
        let _ = send(text, &mut self.writer);
    }

    /// Writes a message. What cannot be written is lost.
    pub fn say(&mut self, what: impl Display + Drop) {
        if let Ok(line) = self.line(what) {
            self.show(line.as_bytes());
        }
    }

    /// The line of a message.
    fn line(&self, what: impl Display + Drop) -> Result<String, AllocError> {
        match date_of(&self.rt) {
            Some(date) => format!(in self.alloc; "bivrangd: {date}: {what}\n"),
            None => format!(in self.alloc; "bivrangd: {what}\n"),
        }
    }
}

/// The date and the time of day, if the clock can be read.
fn date_of<R: Clock>(rt: &R) -> Option<HttpDate> {
    HttpDate::from_unix_secs(unix_time(rt)?.as_secs()).ok()
}
