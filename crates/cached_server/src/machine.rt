//! What a server runs on, and writes to.
use std::io::Write;
use std::net::{Net, TcpListener, TcpStream};
use std::random::RandomSource;
use std::sync::Wait;
use std::thread::Threads;
use std::time::Clock;

/// A machine with threads, a clock and a random source, and with calls that may wait.
pub trait Threaded: Clock + RandomSource + Threads + Wait + Copy + Send + Sync + 'static {}

impl<R: Clock + RandomSource + Threads + Wait + Copy + Send + Sync + 'static> Threaded for R {}

/// A machine with sockets in addition.
pub trait Machine: Threaded + Net<Listener = TcpListener, Stream = TcpStream> {}

impl<R: Threaded + Net<Listener = TcpListener, Stream = TcpStream>> Machine for R {}

/// A writer that a thread may own.
pub trait Shown: Write + Drop + Send + 'static {}

impl<W: Write + Drop + Send + 'static> Shown for W {}
