//! Servers with clients.
use crate::clients::free_port;
use crate::scenes::{Players, Step};
use bivrangd_server::{Alarms, Orders, Stopped, Told, serve_text};
use cached_server::Machine;
use crossbeam_channel::{Sender, unbounded};
use std::alloc::{AllocError, Global};
use std::net::{Net, TcpListener, TcpStream};
use std::random::RandomSource;
use std::rt::Files;
use std::sync::Wait;
use std::thread;
use std::thread::Threads;
use std::time::Clock;

/// What the namespace's table says beside its name and its port, and what its kind of namespaces has, and what clients do.
#[derive(Clone, Copy)]
struct Scene {
    keys: &'static str,
    steps: &'static [Step],
}

/// What becomes of a server that ends well: the service is handed back, and no notice is lost.
const WELL: Stopped = Stopped {
    is_whole: true,
    lost: 0,
};

/// Serves a text, and tells nobody. Whether it ends well.
fn serve<R: Machine + Files>(rt: R, alloc: Global, text: &str, orders: Orders) -> bool {
    let mut alarms = Alarms::new(rt, alloc, Vec::new(alloc));
    let shown = (Vec::new(alloc), Vec::new(alloc));
    match serve_text(rt, alloc, text, shown, &mut alarms, orders) {
        Ok(stopped) => stopped == WELL,
        Err(_) => false,
    }
}

/// What each namespace of lines has beside.
const LINES: &str = "[namespace.loads]\nk = \"v\"";

/// What each namespace that speaks the memcache protocol has beside.
const MEMCACHE: &str = "protocol = \"memcache\"\ncapacity = 67108864";

/// The configuration of a namespace, and of metrics, at two ports.
fn config_of(
    alloc: Global,
    port: u16,
    metrics: u16,
    keys: &str,
    rest: &str,
) -> Result<String, AllocError> {
    format!(in alloc;
        "[metrics]\nport = {metrics}\n[[namespace]]\nname = \"m\"\nport = {port}\n{keys}\n{rest}\n"
    )
}

/// Whether a scene comes out as it says with a server on free ports, and the server ends well when it is told to stop.
fn comes_out<R: Machine + Files>(rt: R, alloc: Global, scene: Scene, rest: &str) -> Option<bool> {
    let (port, metrics) = (free_port(&rt)?, free_port(&rt)?);
    let text = config_of(alloc, port, metrics, scene.keys, rest).ok()?;
    let (orders, told) = unbounded(alloc).ok()?;
    let players = Players {
        port,
        metrics,
        streams: Vec::new(alloc),
        orders: Sender::clone(&orders).ok()?,
    };
    let playing = move || play_to_the_end(&rt, players, scene.steps);
    let clients = thread::spawn(&rt, playing).ok()?;
    let served = serve(rt, alloc, text.as_str(), (orders, told));
    Some(clients.join(&rt) && served)
}

/// Plays the steps, and then tells the server to stop. Whether all came out as they say.
fn play_to_the_end<R: Machine>(rt: &R, players: Players, steps: &[Step]) -> bool {
    let mut players = players;
    let good = players.play_all(rt, steps);
    let stopped = players.orders.send(rt, Told::Stop).is_ok();
    good && stopped
}

/// The same, at the second try if memory was refused at the first.
fn comes_out_twice<R: Machine + Files>(rt: R, alloc: Global, scene: Scene, rest: &str) -> bool {
    comes_out(rt, alloc, scene, rest) == Some(true)
        || comes_out(rt, alloc, scene, rest) == Some(true)
}

/// Whether all scenes come out as they say.
fn all_come_out<R>(rt: R, alloc: Global, scenes: &[Scene], rest: &str) -> bool
where
    R: Net<Listener = TcpListener, Stream = TcpStream>
        + Clock
        + Files
        + RandomSource
        + Threads
        + Wait
        + Copy
        + Send
        + Sync
        + 'static,
{
    for scene in scenes {
        if !comes_out_twice(rt, alloc, *scene, rest) {
            return false;
        }
    }
    true
}

const SCENES: &[Scene] = &[
    // The metrics.
    Scene {
        keys: "notices = \"keys\"",
        steps: &[
            Step::Connect,
            Step::Send(0, b"SET a - 1\nSET a - 2\nLOAD k\n", 1),
            Step::Read(0, b"OK\nOK\nVAL v\n", 1),
            Step::Visit,
            Step::Drip(1, b"GET /healthz HTTP/1.1\r\n\r\n"),
            Step::Find(1, b"\r\n\r\nok\n"),
            Step::Visit,
            Step::Send(2, b"GET /metrics HTTP/1.1\r\nHost: a\r\n\r\n", 1),
            Step::Find(2, b"\nbivrangd_values{namespace=\"m\"} 2\n"),
            Step::Visit,
            Step::Send(3, b"GET /metrics HTTP/1.1\r\n\r\n", 1),
            Step::Find(
                3,
                b"\nbivrangd_removals_total{namespace=\"m\",cause=\"replaced\"} 1\n",
            ),
            Step::Visit,
            Step::Send(4, b"GET / HTTP/1.1\r\n\r\n", 1),
            Step::Find(4, b"HTTP/1.1 404 Not Found\r\n"),
            Step::Visit,
            Step::Send(5, b"\x01", 1),
            Step::Find(5, b"HTTP/1.1 400 Bad Request\r\n"),
        ],
    },
    // Other methods, the head alone, and what stands behind a question mark; a client that says nothing holds up no other.
    Scene {
        keys: "max_connections = 2",
        steps: &[
            Step::Visit,
            Step::Send(0, b"GET /he", 1),
            Step::Visit,
            Step::Send(1, b"HEAD /healthz?full HTTP/1.1\r\n\r\n", 1),
            Step::Find(1, b"\r\nContent-Length: 3\r\nConnection: close\r\n\r\n"),
            Step::Visit,
            Step::Send(
                2,
                b"POST /metrics HTTP/1.1\r\nContent-Length: 2\r\n\r\na\n",
                1,
            ),
            Step::Find(
                2,
                b"HTTP/1.1 405 Method Not Allowed\r\nAllow: GET, HEAD\r\n",
            ),
            Step::Connect,
            Step::Connect,
            Step::Send(3, b"GET z\n", 1),
            Step::Read(3, b"NONE\n", 1),
            Step::Send(4, b"GET z\n", 1),
            Step::Read(4, b"NONE\n", 1),
            Step::Visit,
            Step::Send(5, b"GET /metrics?a=b HTTP/1.1\r\n\r\n", 1),
            Step::Find(5, b"\nbivrangd_max_connections{namespace=\"m\"} 2\n"),
            Step::Visit,
            Step::Send(6, b"GET /metrics HTTP/1.1\r\n\r\n", 1),
            Step::Find(
                6,
                b"\nbivrangd_connections_refused_total{namespace=\"m\"} 0\n",
            ),
            Step::AtEnd(0),
        ],
    },
    // Values that are told, and replies that there is none, are counted; a key in a reply to `KEYS` is neither.
    Scene {
        keys: "loops = 1",
        steps: &[
            Step::Connect,
            Step::Send(
                0,
                b"SET NONE - 1\nSET VAL - 2\nKEYS\nGET VAL\nGET z\nHAS z\nADD n - 3\nGET n\nNO\n",
                1,
            ),
            Step::Read(
                0,
                b"OK\nOK\nKEYS 2\nNONE\nVAL\nVAL 2\nNONE\nNO\nVAL 3\nVAL 3\nERR command\n",
                1,
            ),
            Step::Visit,
            Step::Send(1, b"GET /metrics HTTP/1.1\r\n\r\n", 1),
            Step::Find(1, b"\nbivrangd_hits_total{namespace=\"m\"} 3\n"),
            Step::Visit,
            Step::Send(2, b"GET /metrics HTTP/1.1\r\n\r\n", 1),
            Step::Find(2, b"\nbivrangd_errors_total{namespace=\"m\"} 1\n"),
            Step::Visit,
            Step::Send(3, b"GET /metrics HTTP/1.1\r\n\r\n", 1),
            Step::Find(3, b"\nbivrangd_misses_total{namespace=\"m\"} 1\n"),
        ],
    },
    // Byte by byte.
    Scene {
        keys: "",
        steps: &[
            Step::Connect,
            Step::Drip(0, b"SET a - 1\nGET a\n"),
            Step::Read(0, b"OK\nVAL 1\n", 1),
        ],
    },
    // The end comes with the last bytes.
    Scene {
        keys: "loops = 1",
        steps: &[
            Step::Connect,
            Step::Send(0, b"GET z\nGET", 1),
            Step::End(0),
            Step::Read(0, b"NONE\n", 1),
            Step::AtEnd(0),
        ],
    },
    // Many lines at once, and nothing more.
    Scene {
        keys: "",
        steps: &[
            Step::Connect,
            Step::Send(0, b"GET z\n", 20_000),
            Step::End(0),
            Step::Read(0, b"NONE\n", 20_000),
            Step::AtEnd(0),
        ],
    },
    // A client does not read; another one is answered by the same loop; then the first one reads all.
    Scene {
        keys: "loops = 1",
        steps: &[
            Step::Connect,
            Step::Send(0, b"SET long - ", 1),
            Step::Send(0, b"vvvvvvvv", 1000),
            Step::Send(0, b"\n", 1),
            Step::Read(0, b"OK\n", 1),
            Step::Send(0, b"GET long\n", 3000),
            Step::Connect,
            Step::Send(1, b"GET z\n", 1),
            Step::Read(1, b"NONE\n", 1),
            Step::Lines(0, 3000),
            Step::Send(0, b"GET z\n", 1),
            Step::Read(0, b"NONE\n", 1),
        ],
    },
    // A client asks for all keys again and again; another one is answered by the same loop in the meantime.
    Scene {
        keys: "loops = 1",
        steps: &[
            Step::Connect,
            Step::Connect,
            Step::Send(0, b"SET a - 1\n", 1),
            Step::Read(0, b"OK\n", 1),
            Step::Send(0, b"KEYS\n", 1000),
            Step::Send(1, b"GET a\n", 1),
            Step::Read(1, b"VAL 1\n", 1),
            Step::Read(0, b"KEYS 1\na\n", 1000),
        ],
    },
    // Two loops, each with some of the connections, have the same values.
    Scene {
        keys: "loops = 2",
        steps: &[
            Step::Connect,
            Step::Send(0, b"SET a - 1\n", 1),
            Step::Read(0, b"OK\n", 1),
            Step::Connect,
            Step::Send(1, b"GET a\nLOAD k\n", 1),
            Step::Connect,
            Step::Send(2, b"LOAD k\nGET a\n", 1),
            Step::Connect,
            Step::Send(3, b"GET a\nLOAD k\n", 1),
            Step::Read(1, b"VAL 1\nVAL v\n", 1),
            Step::Read(2, b"VAL v\nVAL 1\n", 1),
            Step::Read(3, b"VAL 1\nVAL v\n", 1),
        ],
    },
    // More than is read at once stands behind a load.
    Scene {
        keys: "",
        steps: &[
            Step::Connect,
            Step::Send(0, b"LOAD k\n", 1),
            Step::Send(0, b"GET z\n", 3000),
            Step::Read(0, b"VAL v\n", 1),
            Step::Read(0, b"NONE\n", 3000),
        ],
    },
    // A client quits, and sends more.
    Scene {
        keys: "",
        steps: &[
            Step::Connect,
            Step::Send(0, b"GET z\nQUIT\nGET z\n", 1),
            Step::Read(0, b"NONE\nOK\n", 1),
            Step::AtEnd(0),
        ],
    },
    // A line that is too long ends its connection, and no other one.
    Scene {
        keys: "",
        steps: &[
            Step::Connect,
            Step::Connect,
            Step::Send(0, b"kkkkkkkk", 1024),
            Step::Send(0, b"k", 1),
            Step::AtEnd(0),
            Step::Send(1, b"GET z\n", 1),
            Step::Read(1, b"NONE\n", 1),
        ],
    },
    // What was answered before a line that is too long is read, and much that follows it is dropped.
    Scene {
        keys: "",
        steps: &[
            Step::Connect,
            Step::Send(0, b"GET z\n", 1000),
            Step::Send(0, &[b'k'; 262_144], 1),
            Step::Read(0, b"NONE\n", 1000),
            Step::AtEnd(0),
        ],
    },
    // One more than may be connected is told so; there is a place again when another one goes.
    Scene {
        keys: "max_connections = 2",
        steps: &[
            Step::Connect,
            Step::Connect,
            Step::Send(0, b"GET z\n", 1),
            Step::Read(0, b"NONE\n", 1),
            Step::Send(1, b"GET z\n", 1),
            Step::Read(1, b"NONE\n", 1),
            Step::Connect,
            Step::Read(2, b"ERR connections\n", 1),
            Step::AtEnd(2),
            Step::Leave(0),
            Step::Pause(1000),
            Step::Connect,
            Step::Send(3, b"GET z\n", 1),
            Step::Read(3, b"NONE\n", 1),
        ],
    },
    // An idle client is closed, and not one that asks.
    Scene {
        keys: "idle_s = 2",
        steps: &[
            Step::Connect,
            Step::Connect,
            Step::Send(0, b"GET z\n", 1),
            Step::Pause(1000),
            Step::Send(0, b"GET z\n", 1),
            Step::Pause(1000),
            Step::Send(0, b"GET z\n", 1),
            Step::Read(0, b"NONE\n", 3),
            Step::AtEnd(1),
            Step::AtEnd(0),
        ],
    },
    // When it stops, an idle client is closed, and another one gets all that it has asked for.
    Scene {
        keys: "loops = 2",
        steps: &[
            Step::Connect,
            Step::Connect,
            Step::Send(1, b"SET a - 1\n", 1),
            Step::Read(1, b"OK\n", 1),
            Step::Send(1, b"KEYS\n", 1000),
            Step::Send(0, b"GET a\n", 1),
            Step::Read(0, b"VAL 1\n", 1),
            Step::Stop,
            Step::AtEnd(0),
        ],
    },
    // Told twice, it does not wait for a client that does not read.
    Scene {
        keys: "",
        steps: &[
            Step::Connect,
            Step::Send(0, b"SET long - ", 1),
            Step::Send(0, b"vvvvvvvv", 1000),
            Step::Send(0, b"\n", 1),
            Step::Send(0, b"GET long\n", 3000),
            Step::Pause(200),
            Step::Stop,
            Step::Pause(200),
        ],
    },
];

#[test]
fn scenes_of_servers(rt: HostRuntime) {
    assert!(rt; all_come_out(rt, rt.alloc(), SCENES, LINES));
}

const MEMCACHE_SCENES: &[Scene] = &[
    // Requests, and the metrics. What is held is known since the last maintenance, and a request runs that after 300 milliseconds.
    Scene {
        keys: "",
        steps: &[
            Step::Connect,
            Step::Send(0, b"set a 5 0 3\r\nx\ny\r\nget a z\r\nget z\r\n", 1),
            Step::Read(0, b"STORED\r\nVALUE a 5 3\r\nx\ny\r\nEND\r\nEND\r\n", 1),
            Step::Pause(1000),
            Step::Send(0, b"get a\r\n", 1),
            Step::Read(0, b"VALUE a 5 3\r\nx\ny\r\nEND\r\n", 1),
            Step::Visit,
            Step::Send(1, b"GET /metrics HTTP/1.1\r\n\r\n", 1),
            Step::Find(1, b"\nbivrangd_values{namespace=\"m\"} 1\n"),
            Step::Visit,
            Step::Send(2, b"GET /metrics HTTP/1.1\r\n\r\n", 1),
            Step::Find(2, b"\nbivrangd_hits_total{namespace=\"m\"} 2\n"),
            Step::Visit,
            Step::Send(3, b"GET /metrics HTTP/1.1\r\n\r\n", 1),
            Step::Find(3, b"\nbivrangd_misses_total{namespace=\"m\"} 2\n"),
        ],
    },
    // Byte by byte; the end comes with the last bytes.
    Scene {
        keys: "",
        steps: &[
            Step::Connect,
            Step::Drip(0, b"set a 0 0 1\r\n1\r\nget a\r\n"),
            Step::Read(0, b"STORED\r\nVALUE a 0 1\r\n1\r\nEND\r\n", 1),
            Step::Send(0, b"get z\r\nget", 1),
            Step::End(0),
            Step::Read(0, b"END\r\n", 1),
            Step::AtEnd(0),
        ],
    },
    // Many requests at once, and nothing more.
    Scene {
        keys: "",
        steps: &[
            Step::Connect,
            Step::Send(0, b"get z\r\n", 20_000),
            Step::End(0),
            Step::Read(0, b"END\r\n", 20_000),
            Step::AtEnd(0),
        ],
    },
    // A client does not read what is far more than waits for it; another one is answered; then the first one reads all.
    Scene {
        keys: "",
        steps: &[
            Step::Connect,
            Step::Send(0, b"set long 0 0 800000\r\n", 1),
            Step::Send(0, b"vvvvvvvv", 100_000),
            Step::Send(0, b"\r\n", 1),
            Step::Read(0, b"STORED\r\n", 1),
            Step::Send(0, b"get long\r\n", 20),
            Step::Connect,
            Step::Send(1, b"get z\r\n", 1),
            Step::Read(1, b"END\r\n", 1),
            Step::Lines(0, 60),
            Step::Send(0, b"get z\r\n", 1),
            Step::Read(0, b"END\r\n", 1),
        ],
    },
    // A client quits, and sends more.
    Scene {
        keys: "",
        steps: &[
            Step::Connect,
            Step::Send(0, b"get z\r\nquit\r\nget z\r\n", 1),
            Step::Read(0, b"END\r\n", 1),
            Step::AtEnd(0),
        ],
    },
    // A data block that is too large is passed over.
    Scene {
        keys: "item_size = 10",
        steps: &[
            Step::Connect,
            Step::Send(0, b"set a 0 0 11\r\n12345678901\r\nget a\r\n", 1),
            Step::Read(0, b"SERVER_ERROR object too large for cache\r\nEND\r\n", 1),
        ],
    },
    // One more than may be connected is told so.
    Scene {
        keys: "max_connections = 1",
        steps: &[
            Step::Connect,
            Step::Send(0, b"get z\r\n", 1),
            Step::Read(0, b"END\r\n", 1),
            Step::Connect,
            Step::Read(1, b"ERROR Too many open connections\r\n", 1),
            Step::AtEnd(1),
        ],
    },
    // An idle client is closed.
    Scene {
        keys: "idle_s = 1",
        steps: &[
            Step::Connect,
            Step::Send(0, b"get z\r\n", 1),
            Step::Read(0, b"END\r\n", 1),
            Step::AtEnd(0),
        ],
    },
    // When it stops, an idle client is closed, while another one has not read what it has asked for.
    Scene {
        keys: "",
        steps: &[
            Step::Connect,
            Step::Connect,
            Step::Send(1, b"set long 0 0 800000\r\n", 1),
            Step::Send(1, b"vvvvvvvv", 100_000),
            Step::Send(1, b"\r\n", 1),
            Step::Read(1, b"STORED\r\n", 1),
            Step::Send(1, b"get long\r\n", 20),
            Step::Send(0, b"get z\r\n", 1),
            Step::Read(0, b"END\r\n", 1),
            Step::Stop,
            Step::AtEnd(0),
        ],
    },
];

#[test]
fn scenes_of_memcache(rt: HostRuntime) {
    assert!(rt; all_come_out(rt, rt.alloc(), MEMCACHE_SCENES, MEMCACHE));
}
