//! The numbers of all namespaces, as text for Prometheus.

use crate::holdings::Commands;
use crate::resources::Resources;
use crate::sources::{Reading, Source};
use cached_config::Protocol;
use cached_server::Machine;
use std::alloc::{AllocError, Global};
use std::sync::Arc;

/// What the numbers are read from.
#[derive(Drop)]
pub struct Facts {
    /// The version of the program.
    pub version: &'static str,
    /// Where the numbers of the namespaces are.
    pub sources: Arc<Vec<Source>>,
    /// What the program takes of the machine.
    pub resources: Arc<Resources>,
    /// The Unix time at which the program began, in seconds; `None` if it is not known.
    pub begun: Option<u64>,
}

impl Facts {
    /// Returns another owner of the same. Returns an error if there is not enough memory.
    pub fn share(&self) -> Result<Facts, AllocError> {
        Ok(Facts {
            version: self.version,
            sources: Arc::try_clone(&self.sources)?,
            resources: Arc::try_clone(&self.resources)?,
            begun: self.begun,
        })
    }
}

/// A number that each namespace has.
#[derive(Clone, Copy, Drop)]
enum Figure {
    Values,
    Weight,
    Capacity,
    Open,
    Limit,
    Accepted,
    Refused,
    Idle,
    Starved,
    Lacking,
    Read,
    Written,
    Hits,
    Misses,
    Errors,
    Loads,
}

/// What Prometheus is told of a number: its name, its kind, and what it says.
const FIGURES: [(Figure, &str, &str, &str); 16] = [
    (Figure::Values, "values", "gauge", "Values that are held."),
    (
        Figure::Weight,
        "weight",
        "gauge",
        "What the values that are held weigh.",
    ),
    (
        Figure::Capacity,
        "capacity",
        "gauge",
        "How many values, or how much weight, may be held.",
    ),
    (Figure::Open, "connections", "gauge", "Open connections."),
    (
        Figure::Limit,
        "max_connections",
        "gauge",
        "How many connections may be open.",
    ),
    (
        Figure::Accepted,
        "connections_accepted_total",
        "counter",
        "Accepted connections.",
    ),
    (
        Figure::Refused,
        "connections_refused_total",
        "counter",
        "Connections beyond max_connections.",
    ),
    (
        Figure::Idle,
        "connections_idle_total",
        "counter",
        "Connections that were closed because they were idle.",
    ),
    (
        Figure::Starved,
        "accepts_failed_total",
        "counter",
        "Accepts that failed for lack of descriptors or memory.",
    ),
    (
        Figure::Lacking,
        "connections_out_of_memory_total",
        "counter",
        "Connections that were closed for lack of memory.",
    ),
    (
        Figure::Read,
        "read_bytes_total",
        "counter",
        "Bytes that were read from connections.",
    ),
    (
        Figure::Written,
        "written_bytes_total",
        "counter",
        "Bytes that were written to connections.",
    ),
    (
        Figure::Hits,
        "hits_total",
        "counter",
        "Replies that told a value.",
    ),
    (
        Figure::Misses,
        "misses_total",
        "counter",
        "Replies that there is no value.",
    ),
    (
        Figure::Errors,
        "errors_total",
        "counter",
        "Replies that told an error.",
    ),
    (
        Figure::Loads,
        "loads_total",
        "counter",
        "Loads that the loader was asked for.",
    ),
];

impl Figure {
    /// What it is; `None` if it is not known.
    fn of(self, source: &Source, reading: &Reading) -> Option<u64> {
        match self {
            Figure::Values => reading.holding.map(|holding| holding.values),
            Figure::Weight => reading.holding.map(|holding| holding.weight),
            Figure::Capacity => source.capacity,
            Figure::Limit => Some(source.connections),
            Figure::Errors => errors_of(source, reading),
            _ => Some(self.counted(reading)),
        }
    }

    /// What it is, if it is counted.
    fn counted(self, reading: &Reading) -> u64 {
        match self {
            Figure::Values | Figure::Weight | Figure::Capacity | Figure::Limit => 0,
            Figure::Open => reading.open,
            Figure::Accepted => reading.counts.accepted,
            Figure::Refused => reading.counts.refused,
            Figure::Idle => reading.counts.idle,
            Figure::Starved => reading.counts.starved,
            Figure::Lacking => reading.counts.lacking,
            Figure::Read => reading.counts.read,
            Figure::Written => reading.counts.written,
            Figure::Hits => reading.counts.found.hits,
            Figure::Misses => reading.counts.found.misses,
            Figure::Errors => reading.counts.found.errors,
            Figure::Loads => reading.counts.loads,
        }
    }
}

/// How many replies told an error, where replies are read.
fn errors_of(source: &Source, reading: &Reading) -> Option<u64> {
    match source.protocol {
        Protocol::Lines => Some(reading.counts.found.errors),
        Protocol::Memcache(_) => None,
    }
}

/// The text.
#[derive(Drop)]
struct Page {
    alloc: Global,
    text: String,
}

impl Page {
    /// Says what the numbers of a name are.
    fn head(&mut self, name: &str, kind: &str, help: &str) -> Result<(), AllocError> {
        let lines = format!(in self.alloc;
            "# HELP bivrangd_{name} {help}\n# TYPE bivrangd_{name} {kind}\n"
        );
        self.text.push_str(lines?.as_str())
    }

    /// Adds a number of a namespace.
    fn number(&mut self, name: &str, source: &Source, number: u64) -> Result<(), AllocError> {
        let space = source.name.as_str();
        let line = format!(in self.alloc; "bivrangd_{name}{{namespace=\"{space}\"}} {number}\n");
        self.text.push_str(line?.as_str())
    }

    /// Adds a number of a namespace that has one more label.
    fn labelled(
        &mut self,
        name: &str,
        source: &Source,
        label: (&str, &str),
        number: u64,
    ) -> Result<(), AllocError> {
        let space = source.name.as_str();
        let (key, value) = label;
        let line = format!(in self.alloc;
            "bivrangd_{name}{{namespace=\"{space}\",{key}=\"{value}\"}} {number}\n"
        );
        self.text.push_str(line?.as_str())
    }

    /// Adds a figure of each namespace that has it.
    fn figure(
        &mut self,
        figure: Figure,
        name: &str,
        sources: &[Source],
        readings: &[Reading],
    ) -> Result<(), AllocError> {
        for (source, reading) in sources.iter().zip(readings) {
            if let Some(number) = figure.of(source, reading) {
                self.number(name, source, number)?;
            }
        }
        Ok(())
    }

    /// Adds all figures.
    fn all_figures(&mut self, sources: &[Source], readings: &[Reading]) -> Result<(), AllocError> {
        for (figure, name, kind, help) in &FIGURES {
            self.head(*name, *kind, *help)?;
            self.figure(*figure, *name, sources, readings)?;
        }
        Ok(())
    }

    /// Adds the numbers of all namespaces.
    fn namespaces<R: Machine>(&mut self, rt: &R, sources: &[Source]) -> Result<(), AllocError> {
        let readings = read_all(rt, self.alloc, sources)?;
        self.all_figures(sources, &readings)?;
        self.all_requests(sources, &readings)?;
        self.all_departures(sources, &readings)?;
        self.all_turns(sources, &readings)
    }

    /// Adds how many requests there were in a namespace, by what is known of them.
    fn requests(&mut self, source: &Source, reading: &Reading) -> Result<(), AllocError> {
        match source.protocol {
            Protocol::Lines => {
                let replies = reading.counts.found.replies;
                self.labelled("requests_total", source, ("protocol", "lines"), replies)
            }
            Protocol::Memcache(_) => match reading.holding.and_then(|holding| holding.commands) {
                Some(commands) => self.commands(source, commands),
                None => Ok(()),
            },
        }
    }

    /// Adds how many commands of the memcache protocol there were in a namespace.
    fn commands(&mut self, source: &Source, commands: Commands) -> Result<(), AllocError> {
        let all = [
            ("get", commands.get),
            ("set", commands.set),
            ("touch", commands.touch),
            ("flush_all", commands.flush),
        ];
        let space = source.name.as_str();
        for (command, count) in &all {
            let line = format!(in self.alloc;
                "bivrangd_requests_total{{namespace=\"{space}\",protocol=\"memcache\",command=\"{command}\"}} {count}\n"
            );
            self.text.push_str(line?.as_str())?;
        }
        Ok(())
    }

    /// Adds how many requests there were in each namespace.
    fn all_requests(&mut self, sources: &[Source], readings: &[Reading]) -> Result<(), AllocError> {
        self.head(
            "requests_total",
            "counter",
            "Requests that were answered; of memcache by command, as its statistics count them.",
        )?;
        for (source, reading) in sources.iter().zip(readings) {
            self.requests(source, reading)?;
        }
        Ok(())
    }

    /// Adds a number of the process, under a name that is the same for all programs, if it is known.
    fn of_process(
        &mut self,
        name: &str,
        help: &str,
        number: Option<u64>,
    ) -> Result<(), AllocError> {
        let Some(number) = number else {
            return Ok(());
        };
        let lines = format!(in self.alloc;
            "# HELP process_{name} {help}\n# TYPE process_{name} gauge\nprocess_{name} {number}\n"
        );
        self.text.push_str(lines?.as_str())
    }

    /// Adds what the program takes of the machine, when it began, and its version.
    fn process(&mut self, facts: &Facts) -> Result<(), AllocError> {
        let memory = facts.resources.memory();
        self.of_process("resident_memory_bytes", "Resident memory in bytes.", memory)?;
        let descriptors = facts.resources.descriptors();
        self.of_process("open_fds", "Open descriptors.", descriptors)?;
        let help = "When the program began, in seconds of Unix time.";
        self.of_process("start_time_seconds", help, facts.begun)?;
        self.head("build_info", "gauge", "The version.")?;
        let version = facts.version;
        let line = format!(in self.alloc; "bivrangd_build_info{{version=\"{version}\"}} 1\n");
        self.text.push_str(line?.as_str())
    }

    /// Adds how many values have left a namespace, by cause.
    fn departures(&mut self, source: &Source, reading: &Reading) -> Result<(), AllocError> {
        let left = reading.departures;
        let causes = [
            ("expired", left.expired),
            ("explicit", left.explicit),
            ("replaced", left.replaced),
            ("size", left.size),
        ];
        for (cause, count) in &causes {
            self.labelled("removals_total", source, ("cause", *cause), *count)?;
        }
        Ok(())
    }

    /// Adds how many values have left each namespace.
    fn all_departures(
        &mut self,
        sources: &[Source],
        readings: &[Reading],
    ) -> Result<(), AllocError> {
        self.head(
            "removals_total",
            "counter",
            "Values that have left, by cause.",
        )?;
        for (source, reading) in sources.iter().zip(readings) {
            self.departures(source, reading)?;
        }
        Ok(())
    }

    /// Adds how long the turns of each namespace took.
    fn all_turns(&mut self, sources: &[Source], readings: &[Reading]) -> Result<(), AllocError> {
        self.head(
            "turn_seconds",
            "histogram",
            "How long a turn of a connection took.",
        )?;
        for (source, reading) in sources.iter().zip(readings) {
            self.turns(source, reading)?;
        }
        Ok(())
    }

    /// Adds how long the turns of a namespace took.
    fn turns(&mut self, source: &Source, reading: &Reading) -> Result<(), AllocError> {
        let mut count = 0u64;
        for (turns, bound) in reading.counts.turns.iter().zip(&BOUND_TEXTS) {
            count = count.saturating_add(*turns);
            self.labelled("turn_seconds_bucket", source, ("le", *bound), count)?;
        }
        self.number("turn_seconds_count", source, count)?;
        let nanos = reading.counts.nanos;
        let (whole, part) = (nanos / 1_000_000_000, nanos % 1_000_000_000);
        let space = source.name.as_str();
        let line = format!(in self.alloc;
            "bivrangd_turn_seconds_sum{{namespace=\"{space}\"}} {whole}.{part:09}\n"
        );
        self.text.push_str(line?.as_str())
    }
}

/// The bounds of turns (`cache_loop::TURN_BOUNDS`) in seconds, and the one above all.
const BOUND_TEXTS: [&str; 14] = [
    "0.00001", "0.00002", "0.00005", "0.0001", "0.0002", "0.0005", "0.001", "0.002", "0.005",
    "0.01", "0.02", "0.05", "0.1", "+Inf",
];

/// Returns the numbers of all namespaces and of the program, as text for Prometheus. Returns an error if there is not enough memory.
pub fn show_metrics<R: Machine>(
    rt: &R,
    alloc: Global,
    facts: &Facts,
) -> Result<String, AllocError> {
    let mut page = Page {
        alloc,
        text: String::new(alloc),
    };
    page.process(facts)?;
    page.namespaces(rt, &facts.sources)?;
    Ok(page.text)
}

/// The numbers of all namespaces, at some moment each.
fn read_all<R: Machine>(
    rt: &R,
    alloc: Global,
    sources: &[Source],
) -> Result<Vec<Reading>, AllocError> {
    sources.iter().map(|source| source.read(rt)).collect(alloc)
}
