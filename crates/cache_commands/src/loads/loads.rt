//! The loads of one namespace.
ghost use Rattle.std.specs.Prelude.{◌≡◌, ℕ, suc, ◌-◌, ◌≤◌, IsTrue, ◌++◌, ◌∷◌, ◌==◌, [], List, not, true, cond, is_some, if◌then◌else◌, map, Some, None, IfOk, OnOk, OnErr, length};
ghost use Rattle.std.specs.List.{filter, list_any};
ghost use Rattle.std.specs.Option.{option_map};
ghost use Rattle.audit_model.specs.Bytewise.{same};
ghost use Rattle.audit_model.specs.Situation.{with_waiting, without_waiting};
ghost use Rattle.audit_model.specs.Underway.{KeepsNumbers, load_of, number_at};
ghost use Rattle.cache_commands.specs.Loads.Keys.{are_in_turn, have_their_keys, pending_load, were_sent};
ghost use Rattle.cache_commands.specs.Loads.Numbers.{AreUnderWay, SameKeys, are_below};

use crate::loads::load::{Load, new_load};
use crate::loads::numbered::Numbered;
use crate::writing::push_within;
use audit_model::loads::{load_of, number_at, put_key, put_waiting, remove_key, take_waiting};
use audit_model::{Bytes, LoadId, Seq};
use std::alloc::{AllocError, Global};
use std::collections::BTreeMap;
use std::mem;

/// The loads of one namespace that are under way, the newest first, found by number, by key and by the connections that wait; how many were
/// sent, and those that went out and were not taken.
#[derive(Drop)]
pub struct Loads {
    namespace: u64,
    sent: u64,
    loads: Numbered,
    keys: BTreeMap<Vec<u8>, u64>,
    joined: BTreeMap<u64, u64>,
    outgoing: Vec<(LoadId, Bytes)>,
    ghost fewer: { length outgoing.items ≤ sent },
    ghost in_turn: { IsTrue (are_in_turn namespace (sent - length outgoing.items) outgoing.items) },
    ghost sent_before: { IsTrue (were_sent sent loads) },
    ghost keyed: { IsTrue (have_their_keys loads outgoing.items) },
    ghost keeps: { KeepsNumbers sent keys joined loads },
    ghost live: { AreUnderWay keys loads },
}

/// None of these connections waits any more.
fn remove_all(joined: &mut BTreeMap<u64, u64>, conns: &[u64])
    ensures { (q : ℕ) → load_of q joined.new
        ≡ cond (list_any (λ n. n == q) conns.now) None (load_of q joined.old) }
{
    for conn in conns {
        take_waiting(joined, *conn);
    }
}

/// Adds a load of a key that has none, whose number is above the others. If the call is refused, nothing has changed.
fn add_keyed(
    loads: &mut Numbered,
    keys: &mut BTreeMap<Vec<u8>, u64>,
    key: &[u8],
    name: Vec<u8>,
    load: Load,
) -> Result<(), AllocError>
    requires newest { are_below load.number loads.old ≡ true }
    requires named { name.items ≡ key.now }
    requires free { number_at key.now keys.old ≡ None }
    ensures added { OnOk result (loads.new ≡ pending_load load ∷ loads.old) }
    ensures put { OnOk result ((q : List ℕ) → number_at q keys.new
        ≡ cond (same key.now q) (Some load.number) (number_at q keys.old)) }
    ensures same { OnErr result (loads.new ≡ loads.old) }
    ensures unchanged { OnErr result (SameKeys keys.old keys.new) }
{
    put_key(keys, name, load.number)?;
    if let Err(error) = loads.add(load) {
        remove_key(keys, key);
        return Err(error);
    }
    Ok(())
}

impl Loads {
    ghost use Rattle.cache_commands.specs.Loads.Pending.{loads_pending, sent_of, outgoing_loads, namespace_of_loads, load_with_key, load_numbered, number_to_send, when_joined, when_sent, sending, SameLoads, SameTaken, loads_taken};

    /// Creates an empty table of loads. The call allocates nothing.
    pub fn new(alloc: Global, namespace: u64) -> Loads
        ensures none { loads_pending result ≡ [] }
        ensures sent { sent_of result ≡ 0 }
        ensures outgoing { outgoing_loads result ≡ [] }
        ensures namespace { namespace_of_loads result ≡ namespace }
    {
        Loads {
            namespace,
            sent: 0,
            loads: Numbered::new(alloc),
            keys: BTreeMap::new(alloc),
            joined: BTreeMap::new(alloc),
            outgoing: Vec::new(alloc),
        }
    }

    /// Returns how many loads are under way.
    pub fn count(&self) -> usize
        ensures { result ≡ length (loads_pending self.now) }
    {
        self.loads.len()
    }

    /// Returns the number of the key's load under way, or `None` if there is none.
    pub fn find(&self, key: &[u8]) -> Option<u64>
        ensures { result ≡ load_with_key key.now (loads_pending self.now) }
    {
        number_at(&self.keys, key)
    }

    /// Returns the load under way of that number, or `None` if there is none.
    pub fn get(&self, number: u64) -> Option<&Load>
        ensures { option_map (λ load. pending_load load.now) result
            ≡ load_numbered number (loads_pending self.now) }
    {
        self.loads.get(number)
    }

    /// Makes a connection wait for the key's load. If none is under way, a new one goes out, and its number is returned; otherwise `None`.
    /// Returns an error if there is not enough memory, the connection waits for a load already, or the number would be above 2^64 - 1; then
    /// nothing has changed.
    pub fn wait(&mut self, alloc: Global, key: &[u8], conn: u64) -> Result<Option<u64>, AllocError>
        ensures number { IfOk result (λ number. number
            ≡ number_to_send key.now (sent_of self.old) (loads_pending self.old)) }
        ensures pending { IfOk result (λ number. loads_pending self.new
            ≡ when_joined conn key.now number (loads_pending self.old)) }
        ensures sent { IfOk result
            (λ number. sent_of self.new ≡ when_sent number (sent_of self.old)) }
        ensures outgoing { IfOk result (λ number. outgoing_loads self.new
            ≡ outgoing_loads self.old ++ sending (namespace_of_loads self.old) key.now number) }
        ensures goes { SameTaken self.old self.new }
        ensures same { OnErr result (SameLoads self.old self.new) }
    {
        if self.join(key, conn)? {
            return Ok(None);
        }
        Ok(Some(self.send(alloc, key, conn)?))
    }

    /// Makes a connection wait for the key's load, and returns whether there is one. A connection that waits already is refused, as for
    /// lack of memory. If the call is refused, nothing has changed.
    fn join(&mut self, key: &[u8], conn: u64) -> Result<bool, AllocError>
        ensures found { IfOk result
            (λ found. found ≡ is_some (load_with_key key.now (loads_pending self.old))) }
        ensures pending { IfOk result (λ found. loads_pending self.new ≡ (if found
            then map (with_waiting conn key.now) (loads_pending self.old)
            else loads_pending self.old)) }
        ensures sent { sent_of self.new ≡ sent_of self.old }
        ensures outgoing { outgoing_loads self.new ≡ outgoing_loads self.old }
        ensures goes { SameTaken self.old self.new }
        ensures same { OnErr result (SameLoads self.old self.new) }
    {
        let Some(number) = number_at(&self.keys, key) else {
            return Ok(false);
        };
        if load_of(&self.joined, conn).is_some() {
            return Err(AllocError);
        }
        put_waiting(&mut self.joined, conn, number)?;
        if let Err(error) = self.loads.join(number, conn) {
            take_waiting(&mut self.joined, conn);
            return Err(error);
        }
        Ok(true)
    }

    /// Sends a load of a key that has none, for which the connection waits, and returns its number. A number above 2^64 - 1, and a
    /// connection that waits already, are refused as for lack of memory. If the call is refused, nothing has changed.
    fn send(&mut self, alloc: Global, key: &[u8], conn: u64) -> Result<u64, AllocError>
        requires { load_with_key key.now (loads_pending self.old) ≡ None }
        ensures number { IfOk result (λ number. number ≡ suc (sent_of self.old)) }
        ensures pending { IfOk result (λ number. loads_pending self.new
            ≡ when_joined conn key.now (Some number) (loads_pending self.old)) }
        ensures sent { OnOk result (sent_of self.new ≡ suc (sent_of self.old)) }
        ensures outgoing { IfOk result (λ number. outgoing_loads self.new ≡ outgoing_loads self.old
            ++ sending (namespace_of_loads self.old) key.now (Some number)) }
        ensures goes { SameTaken self.old self.new }
        ensures same { OnErr result (SameLoads self.old self.new) }
    {
        if self.sent == u64::MAX || load_of(&self.joined, conn).is_some() {
            return Err(AllocError);
        }
        self.outgoing.try_reserve(1)?;
        let copy = Seq::from_vec(Vec::from_slice(alloc, key)?);
        let number = self.sent + 1;
        let load = new_load(alloc, number, key, conn)?;
        let name = Vec::from_slice(alloc, key)?;
        put_waiting(&mut self.joined, conn, number)?;
        if let Err(error) = add_keyed(&mut self.loads, &mut self.keys, key, name, load) {
            take_waiting(&mut self.joined, conn);
            return Err(error);
        }
        self.sent = number;
        let namespace = self.namespace;
        push_within(&mut self.outgoing, (LoadId { namespace, number }, copy));
        Ok(number)
    }

    /// Removes a connection that closed from those that wait. The load stays under way.
    pub fn leave(&mut self, conn: u64)
        ensures pending { loads_pending self.new
            ≡ map (without_waiting conn) (loads_pending self.old) }
        ensures sent { sent_of self.new ≡ sent_of self.old }
        ensures outgoing { outgoing_loads self.new ≡ outgoing_loads self.old }
        ensures goes { SameTaken self.old self.new }
    {
        if let Some(number) = take_waiting(&mut self.joined, conn) {
            self.loads.leave(number, conn);
        }
    }

    /// Removes the load under way of that number, which is answered or given up, and returns it, or `None` if there is none.
    pub fn settle(&mut self, number: u64) -> Option<Load>
        ensures settled { option_map pending_load result
            ≡ load_numbered number (loads_pending self.old) }
        ensures pending { loads_pending self.new
            ≡ filter (λ load. not (load.number == number)) (loads_pending self.old) }
        ensures sent { sent_of self.new ≡ sent_of self.old }
        ensures outgoing { outgoing_loads self.new ≡ outgoing_loads self.old }
        ensures goes { SameTaken self.old self.new }
    {
        let load = self.loads.take(number)?;
        remove_key(&mut self.keys, load.key.as_slice());
        remove_all(&mut self.joined, load.waiting.as_slice());
        Some(load)
    }

    /// Returns the loads that went out and were not taken, with their keys, in the order in which they were sent, moved out.
    pub fn take(&mut self, alloc: Global) -> Vec<(LoadId, Bytes)>
        ensures taken { result.items ≡ outgoing_loads self.old }
        ensures none { outgoing_loads self.new ≡ [] }
        ensures pending { loads_pending self.new ≡ loads_pending self.old }
        ensures sent { sent_of self.new ≡ sent_of self.old }
        ensures namespace { namespace_of_loads self.new ≡ namespace_of_loads self.old }
        // each goes out once: they are the namespace's loads behind those that were taken before
        ensures in_turn { IsTrue
            (are_in_turn (namespace_of_loads self.old) (loads_taken self.old) result.items) }
        ensures all { loads_taken self.new ≡ sent_of self.old }
        ensures keys { IsTrue (have_their_keys (loads_pending self.old) result.items) }
    {
        mem::replace(&mut self.outgoing, Vec::new(alloc))
    }
}
