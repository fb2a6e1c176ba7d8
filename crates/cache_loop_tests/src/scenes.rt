//! What clients do.
use crate::clients::{
    connect, drips, ends, finds, is_at_end, reads_lines, reads_times, sends_times,
};
use bivrangd_server::Told;
use cached_server::Machine;
use crossbeam_channel::Sender;
use std::alloc::Global;
use std::net::TcpStream;
use std::thread;
use std::time::Duration;

/// A step of a scene. Clients are numbered in the order in which they connect.
#[derive(Clone, Copy, Drop)]
pub enum Step {
    /// Another client connects.
    Connect,
    /// Another client connects to the port of the metrics.
    Visit,
    /// A client sends a text so many times.
    Send(usize, &'static [u8], u32),
    /// A client sends a text byte by byte.
    Drip(usize, &'static [u8]),
    /// A client says that it sends nothing more.
    End(usize),
    /// A client reads just this, so many times.
    Read(usize, &'static [u8], u32),
    /// A client reads so many lines, of whatever text.
    Lines(usize, u32),
    /// A client reads to the end, and this is among what it reads.
    Find(usize, &'static [u8]),
    /// A client reads nothing more, since the server has ended its side.
    AtEnd(usize),
    /// A client goes.
    Leave(usize),
    /// So many milliseconds pass.
    Pause(u64),
    /// The server is told to stop.
    Stop,
}

/// The clients of a scene, and how the server is told to stop.
#[derive(Drop)]
pub struct Players {
    pub port: u16,
    /// The port of the metrics.
    pub metrics: u16,
    pub streams: Vec<Option<TcpStream>>,
    pub orders: Sender<Told, Global>,
}

impl Players {
    /// The client with this number, if it has connected and not gone.
    fn client(&mut self, number: usize) -> Option<&mut TcpStream> {
        self.streams.get_mut(number)?.as_mut()
    }

    /// Another client connects to a port.
    fn connect<R: Machine>(&mut self, rt: &R, port: u16) -> Option<bool> {
        let stream = connect(rt, port)?;
        self.streams.push(Some(stream)).ok()?;
        Some(true)
    }

    /// A client goes.
    fn leave(&mut self, number: usize) -> Option<bool> {
        let stream = self.streams.get_mut(number)?;
        *stream = None;
        Some(true)
    }

    /// Plays a step. Whether it comes out as it says.
    fn play<R: Machine>(&mut self, rt: &R, step: Step) -> Option<bool> {
        match step {
            Step::Connect => self.connect(rt, self.port),
            Step::Visit => self.connect(rt, self.metrics),
            Step::Send(number, text, times) => {
                Some(sends_times(self.client(number)?, text, times))
            }
            Step::Drip(number, text) => Some(drips(self.client(number)?, text)),
            Step::End(number) => Some(ends(self.client(number)?)),
            Step::Read(number, text, times) => {
                Some(reads_times(self.client(number)?, text, times))
            }
            Step::Lines(number, count) => Some(reads_lines(self.client(number)?, count)),
            Step::Find(number, text) => Some(finds(self.client(number)?, text)),
            Step::AtEnd(number) => Some(is_at_end(self.client(number)?)),
            Step::Leave(number) => self.leave(number),
            Step::Pause(millis) => {
                thread::sleep(rt, Duration::from_millis(millis));
                Some(true)
            }
            Step::Stop => Some(self.orders.send(rt, Told::Stop).is_ok()),
        }
    }

    /// Plays all steps, as long as they come out as they say. Whether all did.
    pub fn play_all<R: Machine>(&mut self, rt: &R, steps: &[Step]) -> bool {
        for step in steps {
            if self.play(rt, *step) != Some(true) {
                return false;
            }
        }
        true
    }
}
