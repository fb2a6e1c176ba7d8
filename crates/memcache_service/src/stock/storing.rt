//! The storage commands.
ghost use Rattle.std.specs.Prelude.{◌≡◌, ◌↔◌, ◌<◌, ◌≤◌, ◌+◌, ◌^◌, ◌++◌, [], length, nat_lt, IsTrue, true, IfOk, OnOk, OnErr, Some, None, if◌then◌else◌};
ghost use Rattle.memcache_model.specs.Answers.{passes_over, store_over};
ghost use Rattle.memcache_model.specs.Commands.{oversize};
ghost use Rattle.memcache_model.specs.Outcomes.{new_item, stores_item};
ghost use Rattle.memcache_model.specs.Items.{exptime_deadline};
ghost use Rattle.memcache_model.specs.Statistics.{compared, storage_counts, stores};
ghost use Rattle.memcache_service.specs.Shelves.{MayComeAt};
ghost use Rattle.memcache_service.specs.Stocks.{Did, LeavesAll, Spares, block_item, appends_to, may_want, stock_at};
ghost use Rattle.memcache_service.specs.Lines.{reply_text};

use super::Stock;
use crate::item::{StoredItem, deadline_of, unique_behind};
use crate::replies::Reply;
use crate::shelf::Shelf;
use memcache_model::{Exptime, Storage, up};
use std::alloc::{AllocError, Global};

/// A block that a storage command brings, with its flags and when it expires.
#[derive(Clone, Copy)]
pub struct Block<'a> {
    /// The bytes of the block.
    pub bytes: &'a [u8],
    /// The client's flags.
    pub flags: u32,
    /// The moment at which the item expires, in milliseconds of Unix time, or `None` if it does not.
    pub deadline: Option<u64>,
}

impl<'a> Block<'a> {
    /// An item of the block.
    fn item(&self, alloc: Global) -> Result<StoredItem, AllocError>
        ensures { IfOk result (λ item. item ≡ block_item self.now) }
    {
        StoredItem::new(alloc, self.bytes, self.flags, self.deadline)
    }
}

impl<T: Shelf> Stock<T> {
    /// Stores a block as the command says, and returns the reply. Returns an error if there is not enough memory; then the request has done
    /// nothing.
    pub fn store(
        &mut self,
        storage: Storage,
        key: &[u8],
        flags: u32,
        exptime: Exptime,
        bytes: &[u8],
        moment: u64,
    ) -> Result<Reply, AllocError>
        requires { MayComeAt (T.view self.old.shelf) moment }
        ensures ok { IfOk result (λ reply. Did T.view moment (store_over self.old.most storage
            key.now (new_item bytes.now flags (exptime_deadline moment exptime))
            ((stock_at T.view moment self.old).items key.now) (stock_at T.view moment self.old))
            self.old self.new (reply_text reply)) }
        ensures counts { OnOk result (self.new.counters ≡ stores (storage_counts storage
            ((stock_at T.view moment self.old).items key.now) self.old.counters)) }
        ensures err { OnErr result (Spares self.old self.new) }
    {
        self.key.fill(key)?;
        let deadline = deadline_of(moment, exptime);
        let block = Block {
            bytes,
            flags,
            deadline,
        };
        let reply = self.store_block(storage, block, moment)?;
        up(&mut self.counters.cmd_set);
        Ok(reply)
    }

    /// Stores a block under the key that was named.
    fn store_block(
        &mut self,
        storage: Storage,
        block: Block<'_>,
        moment: u64,
    ) -> Result<Reply, AllocError>
        requires { MayComeAt (T.view self.old.shelf) moment }
        ensures ok { IfOk result (λ reply. Did T.view moment (store_over self.old.most storage
            self.old.key (block_item block.entry)
            ((stock_at T.view moment self.old).items self.old.key)
            (stock_at T.view moment self.old))
            self.old self.new (reply_text reply)) }
        ensures counts { OnOk result (self.new.counters ≡ storage_counts storage
            ((stock_at T.view moment self.old).items self.old.key) self.old.counters) }
        ensures err { OnErr result (Spares self.old self.new) }
    {
        match storage {
            Storage::Set => self.put_block(block, moment),
            Storage::Add => match self.shelf.peek(&self.key, moment) {
                Some(_) => Ok(Reply::NotStored),
                None => self.put_block(block, moment),
            },
            Storage::Replace => match self.shelf.peek(&self.key, moment) {
                Some(_) => self.put_block(block, moment),
                None => Ok(Reply::NotStored),
            },
            Storage::Append => self.append(block, moment),
            Storage::Prepend => self.prepend(block, moment),
            Storage::Cas(unique) => self.compare(unique, block, moment),
        }
    }

    /// Gives the key an item of the block.
    fn put_block(&mut self, block: Block<'_>, moment: u64) -> Result<Reply, AllocError>
        requires { MayComeAt (T.view self.old.shelf) moment }
        ensures ok { IfOk result (λ reply. (reply ≡ Reply.Stored) × LeavesAll T.view moment
            (stores_item [] self.old.key (block_item block.entry)
            (stock_at T.view moment self.old)).stock self.old self.new) }
        ensures counters { self.new.counters ≡ self.old.counters }
        ensures err { OnErr result (Spares self.old self.new) }
    {
        let item = block.item(self.alloc)?;
        self.put(item, moment)?;
        Ok(Reply::Stored)
    }

    /// Stores the item under the key that was named, with the next unique. Returns an error if there is not enough memory; then the request
    /// has done nothing.
    pub fn put(&mut self, item: StoredItem, moment: u64) -> Result<(), AllocError>
        requires { MayComeAt (T.view self.old.shelf) moment }
        ensures numbered { OnOk result (self.old.uniques + 1 < 2 ^ 64) }
        ensures ok { OnOk result (LeavesAll T.view moment
            (stores_item [] self.old.key item (stock_at T.view moment self.old)).stock self.old
            self.new) }
        ensures counters { self.new.counters ≡ self.old.counters }
        ensures err { OnErr result (Spares self.old self.new) }
    {
        let Some(unique) = unique_behind(self.uniques) else {
            return Err(AllocError);
        };
        self.shelf.put(&self.key, item.with_unique(unique), moment)?;
        self.uniques = unique;
        Ok(())
    }

    /// Puts bytes behind those of the live item.
    fn append(&mut self, block: Block<'_>, moment: u64) -> Result<Reply, AllocError>
        requires { MayComeAt (T.view self.old.shelf) moment }
        ensures ok { IfOk result (λ reply. Did T.view moment (store_over self.old.most
            Storage.Append self.old.key (block_item block.entry)
            ((stock_at T.view moment self.old).items self.old.key)
            (stock_at T.view moment self.old))
            self.old self.new (reply_text reply)) }
        ensures counters { self.new.counters ≡ self.old.counters }
        ensures err { OnErr result (Spares self.old self.new) }
    {
        match self.shelf.peek(&self.key, moment) {
            Some(old) => {
                let item = behind_within(self.alloc, self.most, old, block.bytes)?;
                self.put_joined(item, moment)
            }
            None => Ok(Reply::NotStored),
        }
    }

    /// Puts bytes before those of the live item.
    fn prepend(&mut self, block: Block<'_>, moment: u64) -> Result<Reply, AllocError>
        requires { MayComeAt (T.view self.old.shelf) moment }
        ensures ok { IfOk result (λ reply. Did T.view moment (store_over self.old.most
            Storage.Prepend self.old.key (block_item block.entry)
            ((stock_at T.view moment self.old).items self.old.key)
            (stock_at T.view moment self.old))
            self.old self.new (reply_text reply)) }
        ensures counters { self.new.counters ≡ self.old.counters }
        ensures err { OnErr result (Spares self.old self.new) }
    {
        match self.shelf.peek(&self.key, moment) {
            Some(old) => {
                let item = before_within(self.alloc, self.most, old, block.bytes)?;
                self.put_joined(item, moment)
            }
            None => Ok(Reply::NotStored),
        }
    }

    /// Gives the key this item, if there is one.
    fn put_joined(&mut self, item: Option<StoredItem>, moment: u64) -> Result<Reply, AllocError>
        requires { MayComeAt (T.view self.old.shelf) moment }
        ensures ok { IfOk result (λ reply. Did T.view moment (appends_to self.old.key item
            (stock_at T.view moment self.old)) self.old self.new (reply_text reply)) }
        ensures counters { self.new.counters ≡ self.old.counters }
        ensures err { OnErr result (Spares self.old self.new) }
    {
        match item {
            Some(item) => {
                self.put(item, moment)?;
                Ok(Reply::Stored)
            }
            None => Ok(Reply::NotStored),
        }
    }

    /// Stores the block if the live item has the unique.
    fn compare(&mut self, unique: u64, block: Block<'_>, moment: u64) -> Result<Reply, AllocError>
        requires { MayComeAt (T.view self.old.shelf) moment }
        ensures ok { IfOk result (λ reply. Did T.view moment (store_over self.old.most
            (Storage.Cas unique) self.old.key (block_item block.entry)
            ((stock_at T.view moment self.old).items self.old.key)
            (stock_at T.view moment self.old))
            self.old self.new (reply_text reply)) }
        ensures counts { OnOk result (self.new.counters ≡ compared unique
            ((stock_at T.view moment self.old).items self.old.key) self.old.counters) }
        ensures err { OnErr result (Spares self.old self.new) }
    {
        let Some(item) = self.shelf.peek(&self.key, moment) else {
            up(&mut self.counters.cas_misses);
            return Ok(Reply::NotFound);
        };
        if item.unique() != unique {
            up(&mut self.counters.cas_badval);
            return Ok(Reply::Exists);
        }
        let reply = self.put_block(block, moment)?;
        up(&mut self.counters.cas_hits);
        Ok(reply)
    }

    /// Passes over a block that was too large, and returns the reply. The item that a `set` was to replace is removed. Returns an error if
    /// there is not enough memory; then the request has done nothing.
    pub fn pass_over(
        &mut self,
        storage: Storage,
        key: &[u8],
        moment: u64,
    ) -> Result<Reply, AllocError>
        requires { MayComeAt (T.view self.old.shelf) moment }
        ensures ok { IfOk result (λ reply. Did T.view moment (passes_over storage key.now
            (stock_at T.view moment self.old)) self.old self.new (reply_text reply)) }
        ensures err { OnErr result (Spares self.old self.new) }
        ensures counters { self.new.counters ≡ self.old.counters }
        ensures wants { OnErr result (may_want (oversize storage key.now) ≡ true) }
    {
        match storage {
            Storage::Set => {
                self.key.fill(key)?;
                self.shelf.remove(&self.key, moment)?;
            }
            _ => {}
        }
        Ok(Reply::TooLarge)
    }
}

/// Returns the item with more bytes behind its own, or `None` if it would have more than `most`. Returns an error if there is not enough
/// memory.
pub fn behind_within(
    alloc: Global,
    most: u32,
    old: &StoredItem,
    more: &[u8],
) -> Result<Option<StoredItem>, AllocError>
    ensures { IfOk result (λ item. item ≡ (if nat_lt most (length (old.now.bytes ++ more.now))
        then None else Some (record old.now { bytes = old.now.bytes ++ more.now }))) }
{
    if !fits(most, old.bytes().len(), more.len()) {
        return Ok(None);
    }
    Ok(Some(old.with_behind(alloc, more)?))
}

/// Returns the item with more bytes before its own, or `None` if it would have more than `most`. Returns an error if there is not enough
/// memory.
pub fn before_within(
    alloc: Global,
    most: u32,
    old: &StoredItem,
    more: &[u8],
) -> Result<Option<StoredItem>, AllocError>
    ensures { IfOk result (λ item. item ≡ (if nat_lt most (length (more.now ++ old.now.bytes))
        then None else Some (record old.now { bytes = more.now ++ old.now.bytes }))) }
{
    if !fits(most, more.len(), old.bytes().len()) {
        return Ok(None);
    }
    Ok(Some(old.with_before(alloc, more)?))
}

/// Whether so many bytes and so many more are at most `most`.
fn fits(most: u32, first: usize, second: usize) -> bool
    ensures { IsTrue result ↔ first + second ≤ most }
{
    let most = most as usize;
    first <= most && second <= most - first
}
