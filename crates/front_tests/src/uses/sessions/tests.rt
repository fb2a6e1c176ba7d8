use crate::uses::sessions::{Session, Sessions};
use moka::Instant;
use std::alloc::Global;
use std::hash::{BuildHasherDefault, FoldHasher};
use std::time::Duration;

type Hashed = Sessions<BuildHasherDefault<FoldHasher>>;

/// So many seconds after the clock began.
fn at(seconds: u32) -> Instant {
    Instant::from_nanos(u64::from(seconds) * 1_000_000_000)
}

/// No sessions yet.
fn open(alloc: Global) -> Option<Hashed> {
    Sessions::new(alloc, BuildHasherDefault::new(), at(0)).ok()
}

/// Begins a session of a user that lasts an hour.
fn begins(sessions: &mut Hashed, seconds: u32, user: u64) -> bool {
    let session = Session {
        user,
        lasts: Duration::from_secs(3600),
    };
    sessions.begin(1, session, at(seconds)).is_ok()
}

/// Whether the session is this user's, or has ended.
fn is_of(sessions: &mut Hashed, seconds: u32, user: Option<u64>) -> bool {
    sessions.user(1, at(seconds)).ok() == Some(user)
}

fn ends_when_idle(sessions: &mut Hashed) -> bool {
    begins(sessions, 0, 5)
        && is_of(sessions, 800, Some(5))
        && is_of(sessions, 1699, Some(5))
        && is_of(sessions, 2599, None)
}

/// Whether the session is there each 700 seconds, five times.
fn is_there(sessions: &mut Hashed) -> bool {
    for use_of in 1..6u32 {
        if !is_of(sessions, use_of * 700, Some(5)) {
            return false;
        }
    }
    true
}

/// The session is used every 700 seconds.
fn lasts_an_hour(sessions: &mut Hashed) -> bool {
    begins(sessions, 0, 5)
        && is_there(sessions)
        && is_of(sessions, 3599, Some(5))
        && is_of(sessions, 3601, None)
}

fn ends(sessions: &mut Hashed) -> bool {
    begins(sessions, 0, 5)
        && sessions.end(1, at(1)).is_ok()
        && is_of(sessions, 2, None)
        && begins(sessions, 3, 6)
        && is_of(sessions, 4, Some(6))
}

/// What is done with sessions.
#[derive(Clone, Copy)]
enum Story {
    EndsWhenIdle,
    LastsAnHour,
    Ends,
}

/// Whether the result is the expected one.
fn comes_so(sessions: &mut Hashed, story: Story) -> bool {
    match story {
        Story::EndsWhenIdle => ends_when_idle(sessions),
        Story::LastsAnHour => lasts_an_hour(sessions),
        Story::Ends => ends(sessions),
    }
}

/// Whether the result is the expected one if there are no sessions yet.
fn begins_so(alloc: Global, story: Story) -> bool {
    match open(alloc) {
        Some(mut sessions) => comes_so(&mut sessions, story),
        None => false,
    }
}

/// The same, on the second attempt if memory is refused.
fn is_so(alloc: Global, story: Story) -> bool {
    begins_so(alloc, story) || begins_so(alloc, story)
}

/// A session without use for a quarter of an hour has ended.
#[test]
fn an_idle_session_ends(rt: HostRuntime) {
    assert!(rt; is_so(rt.alloc(), Story::EndsWhenIdle));
}

/// However often it is used, it lasts an hour and no more.
#[test]
fn uses_do_not_make_it_last(rt: HostRuntime) {
    assert!(rt; is_so(rt.alloc(), Story::LastsAnHour));
}

/// A session that was ended is over, and a new one takes its token's place.
#[test]
fn a_session_is_ended(rt: HostRuntime) {
    assert!(rt; is_so(rt.alloc(), Story::Ends));
}
