//! The results of selectors.
ghost use Rattle.std.specs.Prelude.{◌≡◌, Some, is_none, IsSome};
ghost use Rattle.front_parts.specs.Access.Entries.{shown_as, entry_in};

use front_reference::{Computed, Shared};

/// A key with its value, as the cache had them when the call returned, or as it has stored them. The value is a clone of the one in the
/// cache.
#[derive(Debug, Drop)]
pub struct Entry<K, V> {
    key: Shared<K>,
    value: V,
    is_fresh: bool,
    is_old_value_replaced: bool,
}

impl<K, V> Entry<K, V> {
    /// A key with its value.
    pub(crate) fn new(key: Shared<K>, value: V, is_fresh: bool, is_old_value_replaced: bool) -> Self
        ensures { result ≡ record {
          key = key;
          value = value;
          is_fresh = is_fresh;
          is_old_value_replaced = is_old_value_replaced;
        } }
    {
        Entry {
            key,
            value,
            is_fresh,
            is_old_value_replaced,
        }
    }

    /// Returns the key.
    /// ```
    /// let key = entry.key();
    /// ```
    pub fn key(&self) -> &K
        ensures { result.now ≡ self.now.key }
    {
        &*self.key
    }

    /// Returns the value.
    /// ```
    /// let value = entry.value();
    /// ```
    pub fn value(&self) -> &V
        ensures { result.now ≡ self.now.value }
    {
        &self.value
    }

    /// Converts the entry into its value.
    /// ```
    /// let value = cache.entry(7, at).or_insert(49)?.into_value();
    /// ```
    pub fn into_value(self) -> V
    where
        K: Drop,
        ensures { result ≡ self.value }
    {
        self.value
    }

    /// Returns whether the call that returned this entry made or put the value.
    /// ```
    /// if !entry.is_fresh() {
    ///     count_hit();
    /// }
    /// ```
    pub fn is_fresh(&self) -> bool
        ensures { result ≡ self.now.is_fresh }
    {
        self.is_fresh
    }

    /// Returns whether that call replaced a visible value by this one.
    /// ```
    /// if entry.is_old_value_replaced() {
    ///     count_update();
    /// }
    /// ```
    pub fn is_old_value_replaced(&self) -> bool
        ensures { result ≡ self.now.is_old_value_replaced }
    {
        self.is_old_value_replaced
    }
}

/// What a compute call did to a key.
#[derive(Debug, Drop)]
pub enum CompResult<K, V> {
    /// There was no value, and there still is none.
    StillNone(Shared<K>),
    /// The visible value was left as it is.
    Unchanged(Entry<K, V>),
    /// A value was put, and none was visible before.
    Inserted(Entry<K, V>),
    /// A value was put, and replaced a visible one.
    ReplacedWith(Entry<K, V>),
    /// The value was removed, whether its deadline had come or not.
    Removed(Entry<K, V>),
}

impl<K, V> CompResult<K, V> {
    /// What was done to a key.
    pub(crate) fn new(key: Shared<K>, done: Computed<V>) -> Self
        ensures { result ≡ shown_as key done }
    {
        match done {
            Computed::StillNone => CompResult::StillNone(key),
            Computed::Unchanged(value) => {
                CompResult::Unchanged(Entry::new(key, value, false, false))
            }
            Computed::Inserted(value) => CompResult::Inserted(Entry::new(key, value, true, false)),
            Computed::ReplacedWith(value) => {
                CompResult::ReplacedWith(Entry::new(key, value, true, true))
            }
            Computed::Removed(value) => CompResult::Removed(Entry::new(key, value, false, false)),
        }
    }

    /// Returns whether there was no value, and still is none.
    /// ```
    /// if done.is_still_none() {
    ///     show_nobody();
    /// }
    /// ```
    pub fn is_still_none(&self) -> bool
        ensures { result ≡ is_none (entry_in self.now) }
    {
        match self {
            CompResult::StillNone(_) => true,
            _ => false,
        }
    }

    /// Returns the entry, or `None` if there was no value and still is none.
    /// ```
    /// let value = done.into_entry().map(|entry| entry.into_value());
    /// ```
    pub fn into_entry(self) -> Option<Entry<K, V>>
    where
        K: Drop,
        ensures { result ≡ entry_in self }
    {
        match self {
            CompResult::StillNone(_) => None,
            CompResult::Unchanged(entry)
            | CompResult::Inserted(entry)
            | CompResult::ReplacedWith(entry)
            | CompResult::Removed(entry) => Some(entry),
        }
    }

    /// Returns the entry. The contract requires that there is one.
    /// ```
    /// let entry = cache.entry(7, at).and_compute_with(|_| Op::Put(1))?.unwrap();
    /// ```
    pub fn unwrap(self) -> Entry<K, V>
    where
        K: Drop,
        V: Drop,
        requires { IsSome (entry_in self) }
        ensures { entry_in self ≡ Some result }
    {
        match self.into_entry() {
            Some(entry) => entry,
            None => unreachable!(),
        }
    }
}
