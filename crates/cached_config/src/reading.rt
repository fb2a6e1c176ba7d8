//! A configuration file, read, with all that is wrong with it.
ghost use Rattle.std.specs.Prelude.{List, codes, ◌≡◌, ◌≢◌, ◌≤◌, ◌<◌, [], None, Ok, IsErr, IsTrue, IfOk, IsSomeAnd, OnOk, vec_len};
ghost use Rattle.toml.specs.Data.{table, no_members};
ghost use Rattle.toml.specs.Parse.{parse_document};
ghost use Rattle.toml.specs.View.{view, table_view};
ghost use Rattle.cached_config.specs.Good.{are_good};
ghost use Rattle.cached_config.specs.Said.{IsConfigOf, Says, SaysAll, SaysLimits, SaysSpace, SaysSpaces, loads_table, said_or};

use crate::good::{MOST, are_good};
use crate::hosting::{
    OF_LINES, OF_MEMCACHE, bind_in, connections_in, idle_in, is_at_path, item_capacity_in,
    item_policy_in, item_size_in, key_of_metrics, load_limit_in, loops_in, memcache_in, metrics_in,
    mode_in, notices_in,
};
use crate::listed::{
    ConfigError, ConfigFault, ConfigReport, HostedNamespace, Hosting, ItemLimits, Listed, Notices,
    Protocol,
};
use crate::places::{Part, line_at, line_of_header, line_of_key, line_of_metrics, line_outside};
use crate::values::{
    at_key, capacity_in, deadlines_in, load_in, name_in, parts_in, policy_in, port_in, time_in,
    weight_in,
};
use crate::words::meant;
use audit_model::{Bytes, Config, EvictionPolicy, Seq, Weight};
use std::alloc::{AllocError, Global};
use std::fmt::Display;
use toml::{Table, Value};

/// The keys of a namespace's table. All programs know the first `COMMON` of them.
const KEYS: [&str; 19] = [
    "name",
    "port",
    "capacity",
    "policy",
    "parts",
    "weight",
    "live_ms",
    "idle_ms",
    "deadlines",
    "loads",
    "bind",
    "mode",
    "loops",
    "max_connections",
    "idle_s",
    "notices",
    "load_ms",
    "protocol",
    "item_size",
];

const COMMON: usize = 10;

/// A program that reads configuration files. Each knows its own keys.
#[derive(Clone, Copy, Debug, PartialEq, Eq, Drop)]
enum Program {
    /// `cached`: the keys of `read_config`.
    Cached,
    /// `bivrangd`: also those of `read_hosted`.
    Bivrangd,
}

impl Program {
    /// The keys of a namespace's table that it knows.
    fn keys(self) -> &'static [&'static str] {
        match self {
            Program::Cached => &KEYS[..COMMON],
            Program::Bivrangd => &KEYS,
        }
    }

    /// The tables that it knows.
    fn tables(self) -> &'static [&'static str] {
        match self {
            Program::Cached => &["namespace"],
            Program::Bivrangd => &["namespace", "metrics"],
        }
    }
}

/// The namespaces of a configuration file, and how each is hosted, in the same order.
#[derive(Drop)]
pub struct Hosted {
    /// The namespaces, in the file's order.
    pub spaces: Vec<HostedNamespace>,
    /// How `bivrangd` serves each namespace, in the same order.
    pub hostings: Vec<Hosting>,
    /// The port of 127.0.0.1 at which metrics are served, or `None` if they are not.
    pub metrics: Option<u16>,
}

/// Returns the namespaces of a configuration file, in its order.
///
/// The file is TOML: tables `[[namespace]]`, 1 to 16, each with `name` and `port`, both different from the others', and optionally
/// `capacity`, `policy` (`"lru"` or `"tinylfu"`, the default), `parts` (1 to 256, by default 1), `weight` (`"one"`, the default, or
/// `"bytes"`), `live_ms` and `idle_ms` (1 to 999,999,999,999), `deadlines` (by default false; not together with `live_ms`) and a table
/// `loads` of texts without line ends, of at most 8192 bytes. Anything else is `Bad`. If memory runs out, `OutOfMemory`.
pub fn read_config(alloc: Global, text: &str) -> Result<Vec<HostedNamespace>, ConfigError>
    ensures ok { IfOk result (λ spaces. IsTrue (are_good spaces.items)) }
    ensures said { IfOk result (λ spaces. IsConfigOf text.now spaces.items) }
    ensures text { parse_document text.now ≡ None → IsErr result }
{
    let Read { spaces, report, .. } = read_text(alloc, text, Program::Cached)?;
    match report.faults.into_iter().next() {
        None => Ok(spaces),
        Some(first) => Err(ConfigError::Bad(first)),
    }
}

/// Like `read_config`, for `bivrangd`. In addition a namespace may have `bind` (an IP address, by default 127.0.0.1, or the path of a Unix
/// socket, of at most 107 bytes), `mode` (the permissions of that socket, by default `"660"`), `loops` (1 to 64), `max_connections` (1 to
/// 1,000,000, by default 10,000), `idle_s` (1 to 86,400,000; by default as the server has it), `notices` (`"values"`, the default,
/// `"keys"` or `"off"`), `load_ms` (1 to 86,400,000; by default no load is given up for its time) and `protocol` (`"lines"`, the default, or
/// `"memcache"`), and the file may have a table `metrics` with a `port`, which is no namespace's. No two namespaces have the same path.
///
/// One that speaks the memcache protocol has a `capacity`, in bytes, and optionally `policy` (by default `"lru"`) and `item_size` (1 to
/// 134,217,728 bytes, by default 1,048,576), and none of `parts`, `weight`, `live_ms`, `idle_ms`, `deadlines`, `loads`, `loops`,
/// `notices` and `load_ms`.
pub fn read_hosted(alloc: Global, text: &str) -> Result<Hosted, ConfigError>
    ensures ok { IfOk result (λ hosted. IsTrue (are_good hosted.spaces.items)) }
    ensures said { IfOk result (λ hosted. IsConfigOf text.now hosted.spaces.items) }
    ensures text { parse_document text.now ≡ None → IsErr result }
{
    let Read {
        spaces,
        hostings,
        metrics,
        report,
    } = read_text(alloc, text, Program::Bivrangd)?;
    match report.faults.into_iter().next() {
        None => Ok(Hosted {
            spaces,
            hostings,
            metrics,
        }),
        Some(first) => Err(ConfigError::Bad(first)),
    }
}

/// Returns the faults of the text of a configuration file, in the order of its lines, and its warnings; there are no faults if
/// `read_config` accepts it. Returns an error if there is not enough memory.
///
/// Of a text that is not TOML only the first fault is reported. A fault of a key is reported with the line of the key, or, if no line begins
/// with it (as in a table on one line), with the line of its table. There is a warning for each namespace without a capacity.
pub fn check_config(alloc: Global, text: &str) -> Result<ConfigReport, AllocError>
    ensures text { parse_document text.now ≡ None
        → IfOk result (λ report. report.faults.items ≢ []) }
    // a text without faults says some namespaces, which a file may have
    ensures good { IfOk result (λ report. report.faults.items ≡ [] → (spaces : List HostedNamespace)
        × IsTrue (are_good spaces) × IsConfigOf text.now spaces) }
{
    Ok(read_text(alloc, text, Program::Cached)?.report)
}

/// Like `check_config`, for what `read_hosted` accepts. Returns an error if there is not enough memory.
pub fn check_hosted(alloc: Global, text: &str) -> Result<ConfigReport, AllocError>
    ensures text { parse_document text.now ≡ None
        → IfOk result (λ report. report.faults.items ≢ []) }
    ensures good { IfOk result (λ report. report.faults.items ≡ [] → (spaces : List HostedNamespace)
        × IsTrue (are_good spaces) × IsConfigOf text.now spaces) }
{
    Ok(read_text(alloc, text, Program::Bivrangd)?.report)
}

/// What was read of a text. Without faults a file may have these namespaces.
#[derive(Drop)]
struct Read {
    spaces: Vec<HostedNamespace>,
    hostings: Vec<Hosting>,
    metrics: Option<u16>,
    report: ConfigReport,
}

/// Reads a text.
fn read_text(alloc: Global, text: &str, program: Program) -> Result<Read, AllocError>
    ensures good { IfOk result
        (λ read. read.report.faults.items ≡ [] → IsTrue (are_good read.spaces.items)) }
    ensures said { IfOk result
        (λ read. read.report.faults.items ≡ [] → IsConfigOf text.now read.spaces.items) }
{
    let mut reader = Reader {
        alloc,
        text,
        program,
        hostings: Vec::new(alloc),
        metrics: None,
        faults: Vec::new(alloc),
        warnings: Vec::new(alloc),
    };
    let spaces = reader.text()?;
    if reader.faults.is_empty() && !are_good(&spaces) {
        reader.add(1, "bad configuration")?;
    }
    let Reader {
        hostings,
        metrics,
        mut faults,
        warnings,
        ..
    } = reader;
    faults.sort_by_key(|fault| fault.line)?;
    Ok(Read {
        spaces,
        hostings,
        metrics,
        report: ConfigReport { faults, warnings },
    })
}

/// The table of a namespace, with its number.
#[derive(Clone, Copy)]
struct At<'a> {
    place: usize,
    table: &'a Table,
}

/// What was found wrong with a file so far.
#[derive(Drop)]
struct Reader<'a> {
    alloc: Global,
    text: &'a str,
    program: Program,
    hostings: Vec<Hosting>,
    metrics: Option<u16>,
    faults: Vec<ConfigFault>,
    warnings: Vec<ConfigFault>,
}

impl Reader<'_> {
    /// Adds a fault of a line.
    fn add(&mut self, line: usize, what: impl Display + Drop) -> Result<(), AllocError>
        ensures { OnOk result (vec_len self.old.faults < vec_len self.new.faults) }
    {
        let what = format!(in self.alloc; "{what}")?;
        self.faults.push(ConfigFault { line, what })?;
        Ok(())
    }

    /// Adds a fault of a key of a namespace.
    fn fault(&mut self, at: At<'_>, part: Part, key: &str, what: &str) -> Result<(), AllocError>
        ensures { OnOk result (vec_len self.old.faults < vec_len self.new.faults) }
    {
        let line = line_of_key(self.text, at.place, part, key);
        self.add(line, format_args!("{key} {what}"))
    }

    /// Adds the fault that a key is not known, and which of the known ones may be meant.
    fn unknown(&mut self, line: usize, key: &str, known: &[&str]) -> Result<(), AllocError>
        ensures { OnOk result (vec_len self.old.faults < vec_len self.new.faults) }
    {
        match meant(key, known) {
            Some(other) => {
                self.add(
                    line,
                    format_args!("unknown key {key}: did you mean `{other}`?"),
                )
            }
            None => self.add(line, format_args!("unknown key {key}")),
        }
    }

    /// Reads the text.
    fn text(&mut self) -> Result<Vec<HostedNamespace>, AllocError>
        ensures { IfOk result (λ spaces. vec_len self.new.faults ≤ vec_len self.old.faults
            → IsConfigOf self.old.text.now spaces.items) }
    {
        match toml::table_from_str(self.alloc, self.text) {
            Ok(document) => self.document(&document),
            Err(error) if error.is_memory() => Err(AllocError),
            Err(error) => {
                let line = error
                    .span()
                    .map_or(1, |span| line_at(self.text, span.start));
                self.add(line, error.message())?;
                Ok(Vec::new(self.alloc))
            }
        }
    }

    /// Reads the document.
    fn document(&mut self, document: &Table) -> Result<Vec<HostedNamespace>, AllocError>
        ensures { IfOk result (λ spaces. vec_len self.new.faults ≤ vec_len self.old.faults
            → SaysAll (table_view document.now) spaces.items) }
    {
        self.only(document)?;
        self.metrics(document)?;
        match at_key(document, "namespace") {
            Some(value) => self.array(value),
            None => {
                self.add(1, "there is no [[namespace]]")?;
                Ok(Vec::new(self.alloc))
            }
        }
    }

    /// Refuses tables that are not known.
    fn only(&mut self, document: &Table) -> Result<(), AllocError>
        ensures { OnOk result (vec_len self.old.faults ≤ vec_len self.new.faults) }
    {
        let program = self.program;
        for key in document.keys() {
            if !program.tables().contains(&key.as_str()) {
                let line = line_outside(self.text, key.as_str());
                self.unknown(line, key.as_str(), program.tables())?;
            }
        }
        Ok(())
    }

    /// Reads where metrics are served.
    fn metrics(&mut self, document: &Table) -> Result<(), AllocError>
        ensures { OnOk result (vec_len self.old.faults ≤ vec_len self.new.faults) }
    {
        if self.program == Program::Cached {
            return Ok(());
        }
        match metrics_in(document) {
            Ok(port) => {
                self.metrics = port;
                Ok(())
            }
            Err(what) => {
                let line = line_of_metrics(self.text, key_of_metrics(document));
                self.add(line, format_args!("metrics {what}"))
            }
        }
    }

    /// Reads the array of namespaces.
    fn array(&mut self, value: &Value) -> Result<Vec<HostedNamespace>, AllocError>
        ensures { IfOk result (λ spaces. vec_len self.new.faults ≤ vec_len self.old.faults
            → SaysSpaces (view value.now) spaces.items) }
    {
        let mut spaces = Vec::new(self.alloc);
        let Some(values) = value.as_array() else {
            let line = line_outside(self.text, "namespace");
            self.add(line, "a namespace begins with [[namespace]]")?;
            return Ok(spaces);
        };
        self.count(values.len())?;
        for (place, value) in values.iter().enumerate() {
            if let Some(space) = self.value(place, value, &values[..place])? {
                spaces.push(space)?;
            }
        }
        Ok(spaces)
    }

    /// Refuses that there are no namespaces, or too many.
    fn count(&mut self, count: usize) -> Result<(), AllocError>
        ensures { OnOk result (vec_len self.old.faults ≤ vec_len self.new.faults) }
    {
        if count == 0 {
            return self.add(1, "there is no [[namespace]]");
        }
        if count > MOST {
            let line = line_of_header(self.text, MOST);
            return self.add(line, format_args!("there are more than {MOST} namespaces"));
        }
        Ok(())
    }

    /// Reads a namespace, with those before it; `None` if it is no table.
    fn value(
        &mut self,
        place: usize,
        value: &Value,
        before: &[Value],
    ) -> Result<Option<HostedNamespace>, AllocError>
        ensures kept { OnOk result (vec_len self.old.faults ≤ vec_len self.new.faults) }
        ensures said { IfOk result (λ said. vec_len self.new.faults ≤ vec_len self.old.faults
            → IsSomeAnd said (SaysSpace (view value.now))) }
    {
        let Some(table) = value.as_table() else {
            let line = line_outside(self.text, "namespace");
            self.add(line, "a namespace is a table")?;
            return Ok(None);
        };
        let at = At { place, table };
        self.known(at)?;
        let space = self.space(at)?;
        self.hosting(at)?;
        self.twins(at, before)?;
        self.apart_from_metrics(at)?;
        Ok(Some(space))
    }

    /// Refuses keys that are not known.
    fn known(&mut self, at: At<'_>) -> Result<(), AllocError>
        ensures { OnOk result (vec_len self.old.faults ≤ vec_len self.new.faults) }
    {
        let program = self.program;
        for key in at.table.keys() {
            if !program.keys().contains(&key.as_str()) {
                let line = line_of_key(self.text, at.place, Part::Own, key.as_str());
                self.unknown(line, key.as_str(), program.keys())?;
            }
        }
        Ok(())
    }

    /// Reads how a namespace is hosted.
    fn hosting(&mut self, at: At<'_>) -> Result<(), AllocError>
        ensures { OnOk result (vec_len self.old.faults ≤ vec_len self.new.faults) }
    {
        if self.program == Program::Cached {
            return Ok(());
        }
        let bind = self.said(at, "bind", bind_in(at.table), "")?;
        let mode = self.said(at, "mode", mode_in(at.table), 0)?;
        let loops = self.said(at, "loops", loops_in(at.table), None)?;
        let connections = self.said(at, "max_connections", connections_in(at.table), 1)?;
        let idle = self.said(at, "idle_s", idle_in(at.table), None)?;
        let notices = self.said(at, "notices", notices_in(at.table), Notices::Values)?;
        let load_ms = self.said(at, "load_ms", load_limit_in(at.table), None)?;
        let protocol = self.protocol(at)?;
        let hosting = Hosting {
            bind: String::from_str(self.alloc, bind)?,
            mode,
            loops,
            connections,
            idle,
            notices,
            load_ms,
            protocol,
        };
        self.hostings.push(hosting)?;
        Ok(())
    }

    /// Reads which protocol a namespace speaks.
    fn protocol(&mut self, at: At<'_>) -> Result<Protocol, AllocError>
        ensures { OnOk result (vec_len self.old.faults ≤ vec_len self.new.faults) }
    {
        if !self.said(at, "protocol", memcache_in(at.table), false)? {
            self.refuse(at, OF_MEMCACHE, "goes with the memcache protocol only")?;
            return Ok(Protocol::Lines);
        }
        for key in &OF_LINES {
            self.refuse(at, *key, "does not go with the memcache protocol")?;
        }
        let capacity = self.said(at, "capacity", item_capacity_in(at.table), 0)?;
        let item_size = self.said(at, OF_MEMCACHE, item_size_in(at.table), 0)?;
        Ok(Protocol::Memcache(ItemLimits {
            capacity,
            policy: item_policy_in(at.table),
            item_size,
        }))
    }

    /// Refuses a key of a namespace, if it is there.
    fn refuse(&mut self, at: At<'_>, key: &str, what: &str) -> Result<(), AllocError>
        ensures { OnOk result (vec_len self.old.faults ≤ vec_len self.new.faults) }
    {
        if at.table.contains_key(key) {
            return self.fault(at, Part::Own, key, what);
        }
        Ok(())
    }

    /// Reads the fields of a namespace.
    fn space(&mut self, at: At<'_>) -> Result<HostedNamespace, AllocError>
        ensures kept { OnOk result (vec_len self.old.faults ≤ vec_len self.new.faults) }
        ensures said { IfOk result (λ space. vec_len self.new.faults ≤ vec_len self.old.faults
            → Says (table_view at.entry.table.now) space) }
    {
        let name = self.said(at, "name", name_in(at.table), "")?;
        let port = self.said(at, "port", port_in(at.table), 0)?;
        let config = self.config(at)?;
        self.suits(at, &config)?;
        let loads = self.loads(at)?;
        Ok(HostedNamespace {
            name: bytes_of(self.alloc, name)?,
            port,
            config,
            loads,
        })
    }

    /// Reads the limits of a namespace.
    fn config(&mut self, at: At<'_>) -> Result<Config, AllocError>
        ensures kept { OnOk result (vec_len self.old.faults ≤ vec_len self.new.faults) }
        ensures said { IfOk result (λ config. vec_len self.new.faults ≤ vec_len self.old.faults
            → SaysLimits (table_view at.entry.table.now) config) }
    {
        let capacity = self.said(at, "capacity", capacity_in(at.table), None)?;
        let policy = self.said(at, "policy", policy_in(at.table), EvictionPolicy::TinyLfu)?;
        let parts = self.said(at, "parts", parts_in(at.table), 1)?;
        let weight = self.said(at, "weight", weight_in(at.table), Weight::One)?;
        let live_ms = self.said(at, "live_ms", time_in(at.table, "live_ms"), None)?;
        let idle_ms = self.said(at, "idle_ms", time_in(at.table, "idle_ms"), None)?;
        let own_deadlines = self.said(at, "deadlines", deadlines_in(at.table), false)?;
        Ok(Config {
            capacity,
            policy,
            parts,
            weight,
            live_ms,
            idle_ms,
            own_deadlines,
        })
    }

    /// What a key says. If that is not valid, adds a fault, and returns what is given instead.
    fn said<T: Drop>(
        &mut self,
        at: At<'_>,
        key: &str,
        said: Result<T, &'static str>,
        instead: T,
    ) -> Result<T, AllocError>
        ensures kept { OnOk result (vec_len self.old.faults ≤ vec_len self.new.faults) }
        ensures said { IfOk result (λ x. vec_len self.new.faults ≤ vec_len self.old.faults
            → said.entry ≡ Ok x) }
    {
        match said {
            Ok(said) => Ok(said),
            Err(what) => {
                self.fault(at, Part::Own, key, what)?;
                Ok(instead)
            }
        }
    }

    /// Refuses limits that do not go together, and warns if there is no capacity.
    fn suits(&mut self, at: At<'_>, config: &Config) -> Result<(), AllocError>
        ensures { OnOk result (vec_len self.old.faults ≤ vec_len self.new.faults) }
    {
        let is_memcache = matches!(memcache_in(at.table), Ok(true));
        if !is_memcache && !at.table.contains_key("capacity") {
            let what =
                "no capacity, so nothing leaves for want of room, and the memory has no bound";
            let what = String::from_str(self.alloc, what)?;
            let line = line_of_header(self.text, at.place);
            self.warnings.push(ConfigFault { line, what })?;
        }
        if config.own_deadlines && at.table.contains_key("live_ms") {
            self.fault(at, Part::Own, "deadlines", "does not go with live_ms")?;
        }
        Ok(())
    }

    /// Reads what the loads of a namespace find.
    fn loads(&mut self, at: At<'_>) -> Result<Vec<Listed>, AllocError>
        ensures kept { OnOk result (vec_len self.old.faults ≤ vec_len self.new.faults) }
        ensures said { IfOk result (λ loads. vec_len self.new.faults ≤ vec_len self.old.faults
            → said_or (codes "loads") (table no_members) (table_view at.entry.table.now)
            ≡ table (loads_table loads.items)) }
    {
        match at_key(at.table, "loads") {
            None => Ok(Vec::new(self.alloc)),
            Some(value) => match value.as_table() {
                Some(table) => self.listed(at, table),
                None => {
                    self.fault(at, Part::Own, "loads", "is a table of texts")?;
                    Ok(Vec::new(self.alloc))
                }
            },
        }
    }

    /// Reads a table of what loads find.
    fn listed(&mut self, at: At<'_>, table: &Table) -> Result<Vec<Listed>, AllocError>
        ensures kept { OnOk result (vec_len self.old.faults ≤ vec_len self.new.faults) }
        ensures said { IfOk result (λ loads. vec_len self.new.faults ≤ vec_len self.old.faults
            → table_view table.now ≡ loads_table loads.items) }
    {
        let mut loads = Vec::new(self.alloc);
        for (key, value) in table.iter() {
            match load_in(value) {
                Ok(text) => loads.push(Listed {
                    key: bytes_of(self.alloc, key.as_str())?,
                    value: bytes_of(self.alloc, text)?,
                })?,
                Err(what) => self.fault(at, Part::Loads, key.as_str(), what)?,
            }
        }
        Ok(loads)
    }

    /// Refuses what a namespace before this one has too.
    fn twins(&mut self, at: At<'_>, before: &[Value]) -> Result<(), AllocError>
        ensures { OnOk result (vec_len self.old.faults ≤ vec_len self.new.faults) }
    {
        for other in before {
            self.twin(at, other, "name")?;
            self.twin(at, other, "port")?;
            if is_at_path(at.table) {
                self.twin(at, other, "bind")?;
            }
        }
        Ok(())
    }

    /// Refuses the port at which metrics are served.
    fn apart_from_metrics(&mut self, at: At<'_>) -> Result<(), AllocError>
        ensures { OnOk result (vec_len self.old.faults ≤ vec_len self.new.faults) }
    {
        match (self.metrics, port_in(at.table)) {
            (Some(metrics), Ok(port)) if metrics == port => {
                self.fault(at, Part::Own, "port", "is that of the metrics")
            }
            _ => Ok(()),
        }
    }

    /// Refuses that another namespace has the same at a key.
    fn twin(&mut self, at: At<'_>, other: &Value, key: &str) -> Result<(), AllocError>
        ensures { OnOk result (vec_len self.old.faults ≤ vec_len self.new.faults) }
    {
        if at.table.contains_key(key) && at.table.get(key) == other.get(key) {
            return self.fault(at, Part::Own, key, "is that of another namespace");
        }
        Ok(())
    }
}

/// The bytes of a text.
fn bytes_of(alloc: Global, text: &str) -> Result<Bytes, AllocError>
    ensures { IfOk result (λ bytes. bytes ≡ text.now) }
{
    Ok(Seq::from_vec(Vec::from_slice(alloc, text.as_bytes())?))
}
