//! What a service counts.
ghost use Rattle.std.specs.Prelude.{◌≡◌, if◌then◌else◌};
ghost use Rattle.memcache_model.specs.Counts.{added, looked, no_counts, no_looks, noted, touches};

/// What was counted since the last reset, by memcached's names. A count stays at 2^64 - 1 when it is there.
#[derive(Clone, Copy, Debug, PartialEq, Eq, Drop)]
pub struct Counters {
    /// Connections that were opened.
    pub total_connections: u64,
    /// Keys that were looked up.
    pub cmd_get: u64,
    /// Storage commands.
    pub cmd_set: u64,
    /// `flush_all` commands.
    pub cmd_flush: u64,
    /// Keys that were touched.
    pub cmd_touch: u64,
    /// Look-ups that found an item.
    pub get_hits: u64,
    /// Look-ups that found no item.
    pub get_misses: u64,
    /// Deletions that found no item.
    pub delete_misses: u64,
    /// Deletions of an item.
    pub delete_hits: u64,
    /// Counts upwards that found no item.
    pub incr_misses: u64,
    /// Counts upwards of an item.
    pub incr_hits: u64,
    /// Counts downwards that found no item.
    pub decr_misses: u64,
    /// Counts downwards of an item.
    pub decr_hits: u64,
    /// Comparisons of a unique that found no item.
    pub cas_misses: u64,
    /// Comparisons of a unique that found the item with it.
    pub cas_hits: u64,
    /// Comparisons of a unique that found the item with another.
    pub cas_badval: u64,
    /// Touches that found an item.
    pub touch_hits: u64,
    /// Touches that found no item.
    pub touch_misses: u64,
    /// Bytes that were read.
    pub bytes_read: u64,
    /// Bytes that were written.
    pub bytes_written: u64,
    /// Items that were stored.
    pub total_items: u64,
    /// Items that left because they had expired.
    pub expired: u64,
    /// Items that left for lack of capacity.
    pub evictions: u64,
}

impl Counters {
    /// Creates counts of nothing.
    pub fn new() -> Counters
        ensures { result ≡ no_counts }
    {
        Counters {
            total_connections: 0,
            cmd_get: 0,
            cmd_set: 0,
            cmd_flush: 0,
            cmd_touch: 0,
            get_hits: 0,
            get_misses: 0,
            delete_misses: 0,
            delete_hits: 0,
            incr_misses: 0,
            incr_hits: 0,
            decr_misses: 0,
            decr_hits: 0,
            cas_misses: 0,
            cas_hits: 0,
            cas_badval: 0,
            touch_hits: 0,
            touch_misses: 0,
            bytes_read: 0,
            bytes_written: 0,
            total_items: 0,
            expired: 0,
            evictions: 0,
        }
    }

    /// Counts look-ups.
    pub fn look(&mut self, looks: Looks)
        ensures { self.new ≡ looked looks self.old }
    {
        add(&mut self.cmd_get, looks.found);
        add(&mut self.cmd_get, looks.missing);
        add(&mut self.get_hits, looks.found);
        add(&mut self.get_misses, looks.missing);
    }

    /// Counts touches.
    pub fn touch(&mut self, looks: Looks)
        ensures { self.new ≡ touches looks self.old }
    {
        add(&mut self.cmd_touch, looks.found);
        add(&mut self.cmd_touch, looks.missing);
        add(&mut self.touch_hits, looks.found);
        add(&mut self.touch_misses, looks.missing);
    }
}

/// How many keys had an item, and how many had none.
#[derive(Clone, Copy, Debug, PartialEq, Eq, Drop)]
pub struct Looks {
    /// How many had an item.
    pub found: u64,
    /// How many had none.
    pub missing: u64,
}

impl Looks {
    /// Creates looks at no key.
    pub fn none() -> Looks
        ensures { result ≡ no_looks }
    {
        Looks {
            found: 0,
            missing: 0,
        }
    }

    /// Creates a look at one key.
    pub fn one(is_there: bool) -> Looks
        ensures { result ≡ noted is_there no_looks }
    {
        let mut looks = Looks::none();
        looks.note(is_there);
        looks
    }

    /// Notes a key that has an item, or none.
    pub fn note(&mut self, is_there: bool)
        ensures { self.new ≡ noted is_there self.old }
    {
        if is_there {
            up(&mut self.found);
        } else {
            up(&mut self.missing);
        }
    }
}

/// Counts one more.
pub fn up(count: &mut u64)
    ensures { count.new ≡ added count.old 1 }
{
    add(count, 1);
}

/// Counts so many more.
pub fn add(count: &mut u64, more: u64)
    ensures { count.new ≡ added count.old more }
{
    *count = count.saturating_add(more);
}
