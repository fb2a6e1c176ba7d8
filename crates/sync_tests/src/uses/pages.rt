//! Pages of a shop: two threads render them, and what leaves is printed.
// example: pages
use anyhow::Result;
use moka_sync::{
    Build, BuildError, Bundle, Cache, CacheBuilder, CacheError, Env, EvictionPolicy, MachineEnv,
    NoExpiry, NoPredicate, StdHasher, Weigher,
};
use std::alloc::Global;
use std::random::RandomSource;
use std::sync::Wait;
use std::thread;
use std::thread::Threads;
use std::time::Clock;

/// A page: its article, and its size in bytes.
#[derive(Clone, Copy, Debug, PartialEq, Eq, Drop)]
struct Page {
    article: u64,
    bytes: u32,
}

/// The weight of a page is its size.
#[derive(Drop)]
struct BySize;

impl Weigher<u64, Page> for BySize {
    ghost weight_of = { λ _ _ page. page.bytes };

    fn weigh(&self, _number: &u64, page: &Page) -> u32 {
        page.bytes
    }
}

/// Pages by their number.
type Pages<E> = Cache<u64, Page, StdHasher, Bundle<NoExpiry, BySize, NoPredicate, ()>, E>;

/// An empty cache of pages, at most a thousand bytes in total, which reports removals.
fn make_pages<E: Env + Drop>(alloc: Global, env: E) -> Result<Pages<E>, BuildError> {
    CacheBuilder::new(1_000)
        .weigh_by(BySize)
        .eviction_policy(EvictionPolicy::lru())
        .report_removals()
        .build(alloc, env)
}

/// Renders the pages that no thread has rendered.
fn render<H: Wait, E: Env + Drop>(
    rt: &H,
    pages: &Pages<E>,
    numbers: &[u64],
) -> Result<(), CacheError> {
    for number in numbers {
        let article = *number;
        pages.get_with(
            rt,
            article,
            || Page {
                article,
                bytes: 400,
            },
        )?;
    }
    Ok(())
}

/// Two threads render pages at the same time.
fn render_all<R: Threads + Wait + Sync, E: Env<Watch: Send + Sync, Generator: Send> + Drop + Send>(
    rt: &R,
    pages: &Pages<E>,
) -> Result<(), CacheError> {
    let (low, high) = thread::join(
        rt,
        || render(rt, pages, &[1, 2]),
        || render(rt, pages, &[2, 3]),
    );
    low?;
    high?;
    pages.run_pending_tasks(rt)
}

/// Prints how many pages are left, and which ones are not.
fn print_pages<R: Print + Wait, E: Env + Drop>(rt: &R, pages: &Pages<E>) -> Result<()> {
    println!(rt; "{} pages", pages.entry_count(rt))?;
    for _ in rt.forever() {
        match pages.next_notice(rt) {
            Some(notice) => println!(rt;
                "page {} of {} bytes left",
                *notice.key, notice.value.bytes
            )?,
            None => return Ok(()),
        }
    }
    unreachable!()
}

/// What the shop needs of the runtime.
trait Machine: AllocGlobal + Clock + Print + RandomSource + Threads + Wait + Copy + Send + Sync {}

impl<R: AllocGlobal + Clock + Print + RandomSource + Threads + Wait + Copy + Send + Sync> Machine
    for R {}

/// Renders pages, and prints what came of it.
fn run<R: Machine + Drop>(rt: R) -> Result<()> {
    let pages = make_pages(rt.alloc(), MachineEnv::new(rt)?)?;
    render_all(&rt, &pages)?;
    print_pages(&rt, &pages)
}
// end

#[test]
fn pages_are_rendered(rt: HostRuntime) {
    assert!(rt; run(rt).is_ok() || run(rt).is_ok());
}
