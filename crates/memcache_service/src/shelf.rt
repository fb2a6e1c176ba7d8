//! Items by key, in a cache.
ghost use Rattle.std.specs.Prelude.{◌≡◌, ℕ, ◌≤◌, List, OnOk, OnErr, Some, None, option_map};
ghost use Rattle.memcache_model.specs.Items.{Item, nothing, with_item};
ghost use Rattle.memcache_service.specs.Shelves.{Becomes, CountsRemovals, IsWithinCapacity, MayComeAt, OnlyLeave, SeesLive, Shelved, live_on};

use crate::item::StoredItem;
use audit_model::Key;
use memcache_model::Counters;
use std::alloc::AllocError;

/// Items by key, in a cache: an item that was put may have gone, in a call or between calls, but no other appears.
///
/// Moments are milliseconds of Unix time below 2^43, and never fall from call to call. After an error nothing has changed.
pub trait Shelf: Drop {
    ghost view: { Self → Shelved };

    ghost weigh: { List ℕ → Item → ℕ };

    // a use of a key's item at a moment, or a miss: what it changes of what decides which item leaves next
    ghost uses: { (moment : ℕ) → List ℕ → Self → Self → Type 0 };

    // what left by itself was counted
    ghost counts: { Self → Self → Type 0 };

    /// Does nothing. Its contract says what the passing of time does.
    fn pass(&self)
        ensures { OnlyLeave (view self.now) };

    /// Does nothing. Its contract bounds what the items weigh together.
    fn bounded(&self)
        ensures { ∥ IsWithinCapacity weigh (view self.now) ∥₁ };

    /// Returns the live item of a key, or `None` if there is none. The call is not a use of the item.
    fn peek(&self, key: &Key, moment: u64) -> Option<&StoredItem>
        requires { MayComeAt (view self.now) moment }
        ensures { option_map (λ item. item.now) result
            ≡ live_on (view self.now) moment key.now };

    /// Looks a key up once: `see` is passed its live item, if there is one, and what is behind `output`. If `see` returns `Ok`, the call is a
    /// use of the item, or a miss that is counted; if `see` returns an error, nothing has changed.
    fn look<O, X, E, F: FnOnce(Option<&StoredItem>, &mut O) -> Result<X, E> + Drop>(
        &mut self,
        key: &Key,
        moment: u64,
        output: &mut O,
        see: F,
    ) -> Result<X, E>
        requires in_time { MayComeAt (view self.old) moment }
        requires callable { F.IsAlwaysCallable see }
        ensures shown { SeesLive F.FnOnce see (live_on (view self.old) moment key.now) output.old
            result output.new }
        ensures used { OnOk result (uses moment key.now self.old self.new) }
        ensures becomes { OnOk result
            (Becomes moment ((view self.old).items moment) (view self.new)) }
        ensures capacity { (view self.new).capacity ≡ (view self.old).capacity }
        ensures unchanged { OnErr result (self.new ≡ self.old) };

    /// Stores an item under a key. Returns an error if there is not enough memory, or if the item weighs more than all items may; then
    /// nothing has changed.
    fn put(&mut self, key: &Key, item: StoredItem, moment: u64) -> Result<(), AllocError>
        requires { MayComeAt (view self.old) moment }
        ensures puts { OnOk result (Becomes moment
            (with_item key.now (Some item) ((view self.old).items moment)) (view self.new)) }
        ensures fits { OnOk result (weigh key.now item ≤ (view self.old).capacity) }
        ensures capacity { (view self.new).capacity ≡ (view self.old).capacity }
        ensures unchanged { OnErr result (self.new ≡ self.old) };

    /// Removes the item of a key. Returns an error if there is not enough memory; then nothing has changed.
    fn remove(&mut self, key: &Key, moment: u64) -> Result<(), AllocError>
        requires { MayComeAt (view self.old) moment }
        ensures removes { OnOk result
            (Becomes moment (with_item key.now None ((view self.old).items moment))
            (view self.new)) }
        ensures capacity { (view self.new).capacity ≡ (view self.old).capacity }
        ensures unchanged { OnErr result (self.new ≡ self.old) };

    /// Removes all items. The call allocates nothing. Returns an error if it was made 2^64 - 1 times; then nothing has changed.
    fn clear(&mut self, moment: u64) -> Result<(), AllocError>
        requires { MayComeAt (view self.old) moment }
        ensures clears { OnOk result (Becomes moment nothing (view self.new)) }
        ensures capacity { (view self.new).capacity ≡ (view self.old).capacity }
        ensures unchanged { OnErr result (self.new ≡ self.old) };

    /// Counts the items that left by themselves since this was last called.
    fn count_removals(&mut self, counters: &mut Counters)
        ensures only { CountsRemovals counters.old counters.new }
        ensures shows { view self.new ≡ view self.old }
        ensures counted { counts self.old self.new };

    /// Returns how many items there are, as of the last maintenance.
    fn item_count(&self) -> u64;

    /// Returns what the items weigh together, in bytes, as of the last maintenance.
    fn weight(&self) -> u64;
}
