ghost use Rattle.std.specs.Prelude.{◌≡◌, [], IfSome};

use crate::uses::products::{Product, Products, RowError, Table};
use moka::Instant;
use std::alloc::Global;
use std::collections::BTreeMap;

const OLD: Product = Product {
    price: 500,
    stock: 3,
};

const NEW: Product = Product {
    price: 900,
    stock: 2,
};

/// So many seconds after the clock began.
fn at(seconds: u32) -> Instant {
    Instant::from_nanos(u64::from(seconds) * 1_000_000_000)
}

/// A table in memory.
#[derive(Drop)]
struct InMemory {
    rows: BTreeMap<i64, Product>,
}

impl Table for InMemory {
    fn read(&mut self, number: i64) -> Result<Product, RowError> {
        self.rows.get(&number).copied().ok_or(RowError::Missing)
    }

    fn write(&mut self, number: i64, product: Product) -> Result<(), RowError> {
        match self.rows.insert(number, product) {
            Ok(_) => Ok(()),
            Err(_) => Err(RowError::OutOfMemory),
        }
    }
}

/// The products of a table without rows.
fn open(alloc: Global) -> Option<Products<InMemory>>
    ensures { IfSome result (λ products. products.cache.turns ≡ []) }
{
    let table = InMemory {
        rows: BTreeMap::new(alloc),
    };
    Products::new(alloc, table, at(0)).ok()
}

/// What is done with product 7, by this many seconds after the clock began.
#[derive(Clone, Copy)]
enum Deed {
    /// It is found like this.
    Finds(u32, Option<Product>),
    /// It is written through the cache.
    Sets(u32, Product),
    /// It is written behind the cache's back.
    Writes(Product),
}

/// Whether a deed comes out as it says.
fn comes_so(products: &mut Products<InMemory>, deed: Deed) -> bool
    requires { products.old.cache.turns ≡ [] }
    ensures { products.new.cache.turns ≡ [] }
{
    match deed {
        Deed::Finds(seconds, wanted) => products.find(7, at(seconds)).ok() == wanted,
        Deed::Sets(seconds, product) => products.set(7, product, at(seconds)).is_ok(),
        Deed::Writes(product) => products.table.write(7, product).is_ok(),
    }
}

/// Whether each deed does.
fn come_so(products: &mut Products<InMemory>, deeds: &[Deed]) -> bool
    requires { products.old.cache.turns ≡ [] }
{
    for deed in deeds {
        if !comes_so(products, *deed) {
            return false;
        }
    }
    true
}

/// The same of a table without rows.
fn are_right(alloc: Global, deeds: &[Deed]) -> bool {
    match open(alloc) {
        Some(mut products) => come_so(&mut products, deeds),
        None => false,
    }
}

/// A product that is written behind the cache's back shows when the minute of the old one is over.
const ONCE_A_MINUTE: &[Deed] = &[
    Deed::Sets(1, OLD),
    Deed::Finds(2, Some(OLD)),
    Deed::Writes(NEW),
    Deed::Finds(61, Some(OLD)),
    Deed::Finds(62, Some(NEW)),
];

/// A product that is written through the cache shows at once.
const AT_ONCE: &[Deed] = &[
    Deed::Sets(1, OLD),
    Deed::Finds(2, Some(OLD)),
    Deed::Sets(3, NEW),
    Deed::Finds(3, Some(NEW)),
];

/// That a row is not there is not kept.
const MISSING: &[Deed] = &[
    Deed::Finds(1, None),
    Deed::Writes(NEW),
    Deed::Finds(2, Some(NEW)),
];

#[test]
fn a_row_is_read_once_a_minute(rt: HostRuntime) {
    assert!(rt; are_right(rt.alloc(), ONCE_A_MINUTE) || are_right(rt.alloc(), ONCE_A_MINUTE));
}

#[test]
fn a_write_shows_at_once(rt: HostRuntime) {
    assert!(rt; are_right(rt.alloc(), AT_ONCE) || are_right(rt.alloc(), AT_ONCE));
}

#[test]
fn a_missing_row_is_asked_for_again(rt: HostRuntime) {
    assert!(rt; are_right(rt.alloc(), MISSING) || are_right(rt.alloc(), MISSING));
}
