//! Look-ups by what names a key.
use crate::caches::{Moments, Play, Stage, passes};
use moka_sync::{BuildError, Cache, CacheError, Env, PlainCache, TextName};
use std::alloc::Global;
use std::sync::Wait;

// example: names
/// Prices by the name of an article.
type Prices<E> = PlainCache<String, u64, E>;

/// Stores the price of an article.
fn set<H: Wait, E: Env + Drop>(
    rt: &H,
    alloc: Global,
    prices: &Prices<E>,
    article: &str,
    price: u64,
) -> Result<(), CacheError> {
    prices.insert(rt, String::from_str(alloc, article)?, price)
}

/// The price of an article. No `String` is made for it.
fn price_of<H: Wait, E: Env + Drop>(
    rt: &H,
    prices: &Prices<E>,
    article: &str,
) -> Result<Option<u64>, CacheError> {
    prices.get_by_name(rt, &TextName::new(article))
}
// end

/// Articles, and the price of each, if it has one.
type Listed = &'static [(&'static str, Option<u64>)];

const SET: Listed = &[("pear", Some(3)), ("plum", Some(4)), ("peach", None)];

const FORGOTTEN: Listed = &[("pear", None), ("plum", None)];

/// Whether prices are found and known so.
fn shows<H: Wait>(rt: &H, prices: &Prices<Moments>, listed: Listed) -> bool {
    for (article, price) in listed {
        if price_of(rt, prices, article) != Ok(*price)
            || prices.contains_key_by_name(rt, &TextName::new(article)) != price.is_some()
        {
            return false;
        }
    }
    true
}

/// Whether a price is removed, and another invalidated.
fn forgets<H: Wait>(rt: &H, prices: &Prices<Moments>) -> bool {
    prices.remove_by_name(rt, &TextName::new("pear")) == Ok(Some(3))
        && prices.invalidate_by_name(rt, &TextName::new("plum")) == Ok(())
        && shows(rt, prices, FORGOTTEN)
}

struct Naming;

impl<H: Wait> Play<H> for Naming {
    type Cache = Prices<Moments>;

    fn make(
        &self,
        _rt: &H,
        alloc: Global,
        moments: Moments,
    ) -> Result<Prices<Moments>, BuildError> {
        Cache::new(alloc, 100, moments)
    }

    fn plays(&self, rt: &H, stage: &Stage<Prices<Moments>>) -> bool {
        let alloc = stage.alloc;
        set(rt, alloc, &stage.cache, "pear", 3) == Ok(())
            && set(rt, alloc, &stage.cache, "plum", 4) == Ok(())
            && shows(rt, &stage.cache, SET)
            && forgets(rt, &stage.cache)
    }
}

#[test]
fn prices_are_named(rt: HostRuntime) {
    assert!(rt; passes(&rt, rt.alloc(), &Naming));
}
