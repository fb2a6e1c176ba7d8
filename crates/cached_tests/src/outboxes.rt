//! Notices that wait for a reader.
use audit_model::{Note, NoteKey, RemovalCause, Seq};
use cached_server::{Outbox, Outlet, ROOM};
use std::alloc::Global;
use std::sync::Wait;
use std::time::Clock;

/// So long a value makes a line of 8,192 bytes: 128 of them fill an outbox.
const LONG: usize = 8177;

/// A note of the key `k` whose value is as long.
fn long_note(alloc: Global) -> Option<Note> {
    match (Vec::from_slice(alloc, b"k"), vec![in alloc; b'v'; LONG]) {
        (Ok(key), Ok(value)) => Some(Note {
            cause: RemovalCause::Size,
            key: NoteKey::from(key),
            value: Seq::from_vec(value),
        }),
        _ => None,
    }
}

/// Puts the line of a note so often.
fn put_many(outbox: &mut Outbox, note: &Note, times: u32) {
    for _time in 0..times {
        outbox.put(b"m", note);
    }
}

/// Whether so many bytes waited, and so many notes were lost.
fn gives(alloc: Global, outbox: &mut Outbox, bytes: usize, lost: u64) -> bool {
    match Vec::with_capacity(alloc, ROOM) {
        Ok(mut taken) => outbox.take(&mut taken) == lost && taken.len() == bytes,
        Err(_) => false,
    }
}

/// Whether the bytes of a full outbox wait, and what comes then is lost, until they are taken.
fn counts_what_it_loses(alloc: Global, outbox: &mut Outbox, note: &Note) -> bool {
    put_many(outbox, note, 129);
    let is_full = gives(alloc, outbox, ROOM, 1);
    outbox.put(b"m", note);
    is_full && gives(alloc, outbox, 8192, 0)
}

/// Whether nothing waits in an outbox that is closed.
fn is_shut(alloc: Global, outbox: &mut Outbox, note: &Note) -> bool {
    outbox.close();
    outbox.put(b"m", note);
    gives(alloc, outbox, 0, 0)
}

/// Whether room is waited for just where there is none, lines are read, and nobody waited in vain.
fn waits_for_readers(alloc: Global, outbox: &mut Outbox, note: &Note) -> bool {
    put_many(outbox, note, 129);
    let waits = outbox.waits_for_room(b"m", note);
    outbox.stall();
    let stalled = !outbox.waits_for_room(b"m", note);
    let taken = gives(alloc, outbox, ROOM, 1) && !outbox.waits_for_room(b"m", note);
    is_shut(alloc, outbox, note) && waits && stalled && taken
}

/// Whether a new outbox counts what it loses, or waits for readers.
fn is_so(alloc: Global, waits: bool) -> bool {
    match (Outbox::new(alloc), long_note(alloc)) {
        (Ok(mut outbox), Some(note)) if waits => waits_for_readers(alloc, &mut outbox, &note),
        (Ok(mut outbox), Some(note)) => counts_what_it_loses(alloc, &mut outbox, &note),
        _ => false,
    }
}

/// A teller whose notes nobody reads comes back: it waits a second once.
fn tell_many<R: Wait + Clock>(rt: &R, outlet: &Outlet, note: &Note) {
    for _time in 0..140u32 {
        outlet.tell(rt, b"m", std::slice::from_ref(note));
    }
}

/// Whether it does, where there is memory.
fn comes_back<R: Wait + Clock>(rt: &R, alloc: Global) -> bool {
    match (Outlet::new(alloc), long_note(alloc)) {
        (Ok(outlet), Some(note)) => {
            tell_many(rt, &outlet, &note);
            true
        }
        _ => false,
    }
}

#[test]
fn full_outboxes_count(rt: HostRuntime) {
    assert!(rt; is_so(rt.alloc(), false) || is_so(rt.alloc(), false));
}

#[test]
fn room_is_waited_for(rt: HostRuntime) {
    assert!(rt; is_so(rt.alloc(), true) || is_so(rt.alloc(), true));
}

#[test]
fn nobody_waits_for_ever(rt: HostRuntime) {
    assert!(rt; comes_back(&rt, rt.alloc()) || comes_back(&rt, rt.alloc()));
}
