//! Where namespaces are served.

use crate::alarms::Alarms;
use crate::paths::Paths;
use bivrangd_metrics::listen_for_metrics;
use cache_loop::Doorway;
use cached_config::{Hosted, HostedNamespace, Hosting, read_hosted};
use cached_server::{Cause, Ending, Fault, Lines, Machine, Shown};
use mio::net::{TcpListener, UnixListener};
use std::alloc::{AllocError, Global};
use std::fs::{Files, Permissions};
use std::io::{ErrorKind, Write};
use std::net::{IpAddr, SocketAddr};
use std::os::unix::fs::{FileTypeExt, PermissionsExt};
use std::os::unix::net::{UnixListener as StdUnixListener, UnixStream};
use std::{fs, io, net};

/// A listener of a namespace, which its loops share.
#[derive(Drop)]
pub enum Listener {
    /// A listener at an address of the network.
    Tcp(net::TcpListener),
    /// A listener at a path.
    Unix(StdUnixListener),
}

impl Listener {
    /// Returns another owner of the same listener, for a loop. Returns the system's error.
    pub fn doorway(&self) -> io::Result<Doorway> {
        match self {
            Listener::Tcp(listener) => {
                Ok(Doorway::Tcp(TcpListener::from_std(listener.try_clone()?)))
            }
            Listener::Unix(listener) => {
                Ok(Doorway::Unix(UnixListener::from_std(listener.try_clone()?)))
            }
        }
    }
}

/// The namespaces of a configuration, each with its listener, and the port of the metrics with theirs.
#[derive(Drop)]
pub struct Opened {
    /// The namespaces, in the file's order.
    pub spaces: Vec<HostedNamespace>,
    /// How each namespace is served, in the same order.
    pub hostings: Vec<Hosting>,
    /// The listener of each namespace, in the same order.
    pub listeners: Vec<Listener>,
    /// The listener of the metrics, or `None` if they are not served.
    pub metrics: Option<TcpListener>,
}

/// Reads the text of a configuration file, and listens where it says. The paths at which it made sockets are added to others, also if it
/// fails. Returns an error if the file is not accepted, a listener cannot be had, or there is not enough memory.
pub fn open_all<R: Machine + Files>(
    rt: &R,
    alloc: Global,
    text: &str,
    paths: &mut Paths,
) -> Result<Opened, Ending> {
    let Hosted {
        spaces,
        hostings,
        metrics,
    } = read_hosted(alloc, text)?;
    let listeners = listen_all(rt, alloc, &spaces, &hostings, paths)?;
    let metrics = listen_for(rt, alloc, metrics)?;
    Ok(Opened {
        spaces,
        hostings,
        listeners,
        metrics,
    })
}

/// A listener for each namespace, in their order.
fn listen_all<R: Machine + Files>(
    rt: &R,
    alloc: Global,
    spaces: &[HostedNamespace],
    hostings: &[Hosting],
    paths: &mut Paths,
) -> Result<Vec<Listener>, Ending> {
    let mut listeners = Vec::with_capacity(alloc, spaces.len())?;
    for (space, hosting) in spaces.iter().zip(hostings) {
        match listen(rt, space, hosting, paths) {
            Ok(listener) => listeners.push(listener)?,
            Err(error) => return Err(refused(alloc, space, hosting, &error)),
        }
    }
    Ok(listeners)
}

/// A listener for the metrics, if there is a port for them.
fn listen_for<R: Machine>(
    rt: &R,
    alloc: Global,
    port: Option<u16>,
) -> Result<Option<TcpListener>, Ending> {
    let Some(port) = port else {
        return Ok(None);
    };
    match listen_for_metrics(rt, port) {
        Ok(listener) => Ok(Some(listener)),
        Err(error) => Err(unlistened(format!(in alloc;
            "metrics {port}: cannot listen at 127.0.0.1: {error}\n"
        ))),
    }
}

/// Why a namespace cannot be served.
fn refused(alloc: Global, space: &HostedNamespace, hosting: &Hosting, error: &io::Error) -> Ending {
    unlistened(refusal_line(alloc, space, hosting, error))
}

/// Why the program ends that cannot listen, with the line that says so, unless there was no memory for that.
fn unlistened(line: Result<String, AllocError>) -> Ending {
    match line {
        Ok(line) => Ending {
            fault: Fault::CannotListen,
            cause: Cause::Said(line),
        },
        Err(_) => Ending::from(Fault::CannotListen),
    }
}

/// The line that says why a namespace cannot be served.
fn refusal_line(
    alloc: Global,
    space: &HostedNamespace,
    hosting: &Hosting,
    error: &io::Error,
) -> Result<String, AllocError> {
    let name = String::from_utf8_lossy(alloc, space.name.as_slice())?;
    let (port, bind) = (space.port, &hosting.bind);
    format!(in alloc; "{name} {port}: cannot listen at {bind}: {error}\n")
}

/// The address of a namespace; `None` if it listens at a path.
fn address_of(space: &HostedNamespace, hosting: &Hosting) -> Option<SocketAddr> {
    let address: IpAddr = hosting.bind.as_str().parse().ok()?;
    Some(SocketAddr::from((address, space.port)))
}

/// Writes where the namespaces are served, and returns the writer. Returns an error if that cannot be written or there is not enough
/// memory.
pub fn announce_all<W: Shown>(
    alloc: Global,
    opened: &Opened,
    shown: W,
) -> Result<Lines<W>, Ending> {
    let mut lines = Lines::new(alloc, shown)?;
    for (space, hosting) in opened.spaces.iter().zip(&opened.hostings) {
        let line = announcement(alloc, space, hosting)?;
        if lines.send(line.as_slice()).is_err() {
            return Err(Ending::from(Fault::Write));
        }
    }
    Ok(lines)
}

/// Says where the namespaces are served, as messages. Returns an error if there is not enough memory.
pub fn say_all<E: Write + Drop, R: Machine>(
    alloc: Global,
    opened: &Opened,
    alarms: &mut Alarms<R, E>,
) -> Result<(), AllocError> {
    for (space, hosting) in opened.spaces.iter().zip(&opened.hostings) {
        let line = announcement(alloc, space, hosting)?;
        let line = String::from_utf8_lossy(alloc, line.as_slice())?;
        alarms.say(line.as_str().trim_end());
    }
    Ok(())
}

/// The line that says where a namespace is served.
fn announcement(
    alloc: Global,
    space: &HostedNamespace,
    hosting: &Hosting,
) -> Result<Vec<u8>, AllocError> {
    let mut line = Vec::new(alloc);
    line.extend_from_slice(b"listening ")?;
    line.extend_from_slice(space.name.as_slice())?;
    let place = match address_of(space, hosting) {
        Some(address) => format!(in alloc; " {address}\n")?,
        None => format!(in alloc; " {}\n", hosting.bind)?,
    };
    line.extend_from_slice(place.as_bytes())?;
    Ok(line)
}

/// A listener for a namespace, which does not block.
fn listen<R: Machine + Files>(
    rt: &R,
    space: &HostedNamespace,
    hosting: &Hosting,
    paths: &mut Paths,
) -> io::Result<Listener> {
    match address_of(space, hosting) {
        Some(address) => {
            let listener = TcpListener::bind(rt, address)?;
            Ok(Listener::Tcp(net::TcpListener::from(listener)))
        }
        None => listen_at(rt, hosting, paths),
    }
}

/// A listener at a path, which does not block. The path is added to others.
fn listen_at<R: Machine + Files>(
    rt: &R,
    hosting: &Hosting,
    paths: &mut Paths,
) -> io::Result<Listener> {
    let path = hosting.bind.as_str();
    let listener = bind_at(rt, path)?;
    paths.add(rt, path)?;
    fs::set_permissions(rt, path, Permissions::from_mode(hosting.mode))?;
    listener.set_nonblocking(true)?;
    Ok(Listener::Unix(listener))
}

/// A listener at a path. A socket there at which nobody listens is removed.
fn bind_at<R: Machine + Files>(rt: &R, path: &str) -> io::Result<StdUnixListener> {
    match StdUnixListener::bind(rt, path) {
        Err(error) if error.kind() == ErrorKind::AddrInUse && is_left(rt, path) => {
            fs::remove_file(rt, path)?;
            StdUnixListener::bind(rt, path)
        }
        bound => bound,
    }
}

/// Whether there is a socket at a path at which nobody listens.
fn is_left<R: Machine + Files>(rt: &R, path: &str) -> bool {
    match fs::metadata(rt, path) {
        Ok(found) if found.file_type().is_socket() => match UnixStream::connect(rt, path) {
            Ok(_) => false,
            Err(error) => error.kind() == ErrorKind::ConnectionRefused,
        },
        _ => false,
    }
}
