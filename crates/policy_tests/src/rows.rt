//! Rows of tests: tables with a name, played on stages, of which the first row that is wrong is told by its table's name.

use std::alloc::Global;

/// What the rows of a table are played on. A row says what is done, and what has to come of it.
pub trait Stage<R>: Drop {
    /// A new one, if there is memory.
    fn new(alloc: Global) -> Option<Self>;

    /// Plays a row, and returns whether it came out right.
    fn plays(&mut self, row: &R) -> bool;
}

/// Rows that are played one after another on a new stage. The name says what they show.
pub struct Table<'a, R> {
    pub name: &'a str,
    pub rows: &'a [R],
}

/// The table and the row that did not come out right. There is no row where there was no memory for a stage.
#[derive(Clone, Copy, Debug, PartialEq, Eq)]
pub struct Wrong<'a> {
    pub table: &'a str,
    pub row: Option<usize>,
}

/// The place of the first row that does not come out right on a stage.
fn wrong_row<S: Stage<R>, R>(stage: &mut S, rows: &[R]) -> Option<usize> {
    for (place, row) in rows.iter().enumerate() {
        if !stage.plays(row) {
            return Some(place);
        }
    }
    None
}

/// The same on a new stage: whether there was memory for one, and the place.
fn wrong_anew<S: Stage<R>, R>(alloc: Global, rows: &[R]) -> (bool, Option<usize>) {
    match S::new(alloc) {
        Some(mut stage) => (true, wrong_row(&mut stage, rows)),
        None => (false, None),
    }
}

/// Plays tables, and returns the first wrong row.
pub fn first_wrong<'a, S: Stage<R>, R>(
    alloc: Global,
    tables: &[Table<'a, R>],
) -> Option<Wrong<'a>> {
    for table in tables {
        let (is_staged, row) = wrong_anew::<S, R>(alloc, table.rows);
        if !is_staged || row.is_some() {
            return Some(Wrong {
                table: table.name,
                row,
            });
        }
    }
    None
}
