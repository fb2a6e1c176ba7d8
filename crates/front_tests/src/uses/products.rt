//! Rows of a table, read through a cache.
ghost use Rattle.std.specs.Prelude.{◌≡◌, [], IfOk};

use crate::uses::reading::read_through;
use moka::{BuildError, CacheBuilder, CacheError, CacheState, Instant, StdHasher, next_call};
use std::alloc::Global;
use std::sync::Arc;
use std::time::Duration;
use thiserror::Error;

/// How many products are kept at most.
const CAPACITY: u64 = 10_000;

/// How long one is kept after it was read, in seconds.
const SECONDS: u64 = 60;

/// A row of the table: a price in cents, and how many are in stock.
#[derive(Clone, Copy, Debug, PartialEq, Eq, Drop)]
pub struct Product {
    pub price: i64,
    pub stock: i64,
}

/// Why a row cannot be read or written.
#[derive(Debug, Drop, Error)]
pub enum RowError {
    /// The table has no such row.
    #[error("no such row")]
    Missing,
    /// There is no memory for it.
    #[error("out of memory")]
    OutOfMemory,
}

/// A table of products, as that of a database.
pub trait Table {
    /// Reads a row.
    fn read(&mut self, number: i64) -> Result<Product, RowError>;

    /// Writes a row, new or old.
    fn write(&mut self, number: i64, product: Product) -> Result<(), RowError>;
}

/// Why a product cannot be shown or changed.
#[derive(Debug, Drop, Error)]
pub enum ProductError {
    /// The cache has no room.
    #[error("{0}")]
    Cache(#[from] CacheError),
    /// The table has no such row, or it cannot be read.
    #[error("{0}")]
    Row(Arc<RowError>),
    /// It cannot be written.
    #[error("{0}")]
    Write(#[from] RowError),
}

/// The products of a table, by the number of their row. Each is read once, and then kept for a
/// minute or until it is written.
#[derive(Drop)]
pub struct Products<T: Table> {
    table: T,
    cache: CacheState<i64, Product>,
}

impl<T: Table + Drop> Products<T> {
    /// The products of a table, none of which was read yet.
    pub fn new(alloc: Global, table: T, clock: Instant) -> Result<Self, BuildError>
        ensures alone { IfOk result (λ products. products.cache.turns ≡ []) }
    {
        let cache = CacheBuilder::new(CAPACITY)
            .time_to_live(Duration::from_secs(SECONDS))
            .build_state(alloc, StdHasher::new(), clock)?;
        Ok(Products { table, cache })
    }

    /// A product: the one that is kept, or the row of the table, which is then kept.
    pub fn find(&mut self, number: i64, clock: Instant) -> Result<Product, ProductError>
        requires alone { self.old.cache.turns ≡ [] }
        ensures alone { self.new.cache.turns ≡ [] }
    {
        let at = next_call(&self.cache, clock)?;
        let table = &mut self.table;
        match read_through(&mut self.cache, number, || table.read(number), at)? {
            Ok(product) => Ok(product),
            Err(fault) => Err(ProductError::Row(fault)),
        }
    }

    /// Writes a product. It is forgotten first, so that what is shown later was read after the
    /// write, whether that fails or not.
    pub fn set(&mut self, number: i64, product: Product, clock: Instant) -> Result<(), ProductError>
        requires alone { self.old.cache.turns ≡ [] }
        ensures alone { self.new.cache.turns ≡ [] }
    {
        let at = next_call(&self.cache, clock)?;
        self.cache.invalidate(&number, at)?;
        self.table.write(number, product)?;
        Ok(())
    }
}

mod tests;
