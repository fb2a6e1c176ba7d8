//! Why a file cannot be read.
use std::fmt::{Display, Formatter, Write};
use std::io::ErrorKind;
use std::{fmt, io};

/// Why a configuration file cannot be read, to be printed behind its path: it is missing, is not UTF-8, or what the system says.
#[derive(Debug, Drop)]
pub struct Unread(pub io::Error);

impl Display for Unread {
    fn fmt<W: Write>(&self, f: &mut Formatter<W>) -> fmt::Result {
        match self.0.kind() {
            ErrorKind::NotFound => write!(f, "there is no such file"),
            ErrorKind::InvalidData => write!(f, "it is not UTF-8"),
            _ => write!(f, "it cannot be read: {}", self.0),
        }
    }
}
