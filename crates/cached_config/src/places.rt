//! On which line of a configuration file a key stands.
ghost use Rattle.std.specs.Prelude.{◌≡◌};

/// Where a key is in the table of a namespace.
#[derive(Clone, Copy, PartialEq, Eq, Drop)]
pub enum Part {
    /// In the namespace's table itself.
    Own,
    /// In the namespace's table `loads`.
    Loads,
}

/// In which table of a file a line is.
#[derive(Clone, Copy, PartialEq, Eq, Drop)]
enum Within {
    /// In none.
    Top,
    /// In that of a namespace.
    Namespace,
    /// In the table `loads` of a namespace.
    Loads,
    /// In that of the metrics.
    Metrics,
    /// In another one.
    Other,
}

impl Within {
    /// That of a table with this name.
    fn named(name: &str) -> Within {
        if bare(name) == "namespace" {
            return Within::Namespace;
        }
        if bare(name) == "metrics" {
            return Within::Metrics;
        }
        match behind(name, "namespace") {
            Some(rest) if bare(rest) == "loads" => Within::Loads,
            _ => Within::Other,
        }
    }
}

/// A place in a file, behind a line.
#[derive(Clone, Copy, Drop)]
struct Spot {
    // how many namespaces have begun
    begun: usize,
    // in which table it is
    within: Within,
}

impl Spot {
    /// The place before the first line.
    fn top() -> Spot {
        Spot {
            begun: 0,
            within: Within::Top,
        }
    }

    /// The place behind the next line.
    fn pass(self, line: &str) -> Spot {
        let Some(name) = table_in(line) else {
            return self;
        };
        let more = usize::from(begins_namespace(line));
        Spot {
            begun: self.begun.saturating_add(more),
            within: Within::named(name),
        }
    }

    /// Whether the line right before this place gives a value to a key of this part of a namespace's table, or begins a table of that name.
    fn has(self, line: &str, part: Part, key: &str) -> bool {
        match part {
            Part::Own => self.has_own(line, key),
            Part::Loads => self.has_load(line, key),
        }
    }

    /// The same of a key of the namespace's table itself.
    fn has_own(self, line: &str, key: &str) -> bool {
        match (key_in(line), table_in(line)) {
            (Some(name), _) => self.within == Within::Namespace && leads(name, key),
            (None, Some(table)) => {
                behind(table, "namespace").is_some_and(|name| leads(name, key))
            }
            (None, None) => false,
        }
    }

    /// The same of a key of the namespace's table `loads`.
    fn has_load(self, line: &str, key: &str) -> bool {
        let Some(name) = key_in(line) else {
            return false;
        };
        match self.within {
            Within::Loads => bare(name) == key,
            Within::Namespace => behind(name, "loads").is_some_and(|name| bare(name) == key),
            _ => false,
        }
    }

    /// Whether the line right before this place, outside all tables, gives a value to a key, or begins a table of that name.
    fn has_outside(self, line: &str, key: &str) -> bool {
        match (key_in(line), table_in(line)) {
            (Some(name), _) => self.within == Within::Top && leads(name, key),
            (None, Some(table)) => leads(table, key),
            (None, None) => false,
        }
    }

    /// Whether the line right before this place gives a value to a key of the metrics.
    fn has_of_metrics(self, line: &str, key: &str) -> bool {
        let Some(name) = key_in(line) else {
            return false;
        };
        match self.within {
            Within::Metrics => bare(name) == key,
            Within::Top => behind(name, "metrics").is_some_and(|name| bare(name) == key),
            _ => false,
        }
    }
}

/// Returns the number of the line, counted from 1, with the header of the namespace of this number, or of the key `namespace`, or 1 if there
/// is none.
pub fn line_of_header(text: &str, place: usize) -> usize {
    let mut headers = text
        .lines()
        .enumerate()
        .filter(|(_, line)| begins_namespace(line));
    match headers.nth(place) {
        Some((index, _)) => index.saturating_add(1),
        None => line_outside(text, "namespace"),
    }
}

/// Returns the number of the line, counted from 1, with a key of the namespace of this number, or with the header of a table of that name.
/// If the key begins no line, that is the line of `loads` for a key in it, and else of the namespace's header.
pub fn line_of_key(text: &str, place: usize, part: Part, key: &str) -> usize {
    let found = match part {
        Part::Own => find_key(text, place, Part::Own, key),
        Part::Loads => find_key(text, place, Part::Loads, key).or(find_key(
            text,
            place,
            Part::Own,
            "loads",
        )),
    };
    found.unwrap_or(line_of_header(text, place))
}

/// Returns the number of the line, counted from 1, in which the namespace of this number, counted from 0, says where it listens, or else of
/// its header.
pub fn line_of_bind(text: &str, place: usize) -> usize {
    line_of_key(text, place, Part::Own, "bind")
}

/// The number of the line, counted from 1, with a key of the namespace of this number.
fn find_key(text: &str, place: usize, part: Part, key: &str) -> Option<usize> {
    let mut spot = Spot::top();
    for (index, line) in text.lines().enumerate() {
        spot = spot.pass(line);
        if spot.begun == place.saturating_add(1) && spot.has(line, part, key) {
            return Some(index.saturating_add(1));
        }
    }
    None
}

/// Returns the number of the line, counted from 1, with a key, or a table of that name, outside all namespaces, or 1 if there is none.
pub fn line_outside(text: &str, key: &str) -> usize {
    let mut spot = Spot::top();
    for (index, line) in text.lines().enumerate() {
        spot = spot.pass(line);
        if spot.has_outside(line, key) {
            return index.saturating_add(1);
        }
    }
    1
}

/// Returns the number of the line, counted from 1, with a key of the metrics, or with their table if the key begins no line.
pub fn line_of_metrics(text: &str, key: &str) -> usize {
    let mut spot = Spot::top();
    for (index, line) in text.lines().enumerate() {
        spot = spot.pass(line);
        if spot.has_of_metrics(line, key) {
            return index.saturating_add(1);
        }
    }
    line_outside(text, "metrics")
}

/// Returns the number of the line, counted from 1, in which the byte of that number stands.
pub fn line_at(text: &str, byte: usize) -> usize {
    let before = text.as_bytes().iter().take(byte);
    let ends = before.filter(|found| **found == b'\n');
    ends.count().saturating_add(1)
}

/// The name to which a line gives a value, as it stands there.
fn key_in(line: &str) -> Option<&str> {
    if line.trim().starts_with("[") {
        return None;
    }
    let (left, _) = line.split_once("=")?;
    Some(left)
}

/// The name of the table that a line begins, as it stands there.
fn table_in(line: &str) -> Option<&str> {
    let line = line.trim();
    if !line.starts_with("[") {
        return None;
    }
    let (name, _) = line.trim_start_matches("[").split_once("]")?;
    Some(name)
}

/// Whether a line begins a namespace.
fn begins_namespace(line: &str) -> bool {
    line.trim().starts_with("[[") && table_in(line).is_some_and(|name| bare(name) == "namespace")
}

/// Whether a name is a key, or begins with it and a dot.
fn leads(name: &str, key: &str) -> bool {
    bare(name) == key || behind(name, key).is_some()
}

/// What stands behind a key and a dot in a name that begins with them.
fn behind<'a>(name: &'a str, key: &str) -> Option<&'a str> {
    match name.split_once(".") {
        Some((first, rest)) if bare(first) == key => Some(rest),
        _ => None,
    }
}

/// A key without the spaces and quotes around it.
fn bare(key: &str) -> &str {
    key.trim().trim_matches("\"").trim_matches("'")
}
