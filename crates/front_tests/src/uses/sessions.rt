//! Sessions that end by themselves.
ghost use Rattle.std.specs.Prelude.{◌≡◌, OnErr};

use moka::{
    BuildError, Bundle, CacheBuilder, CacheError, CacheState, Expiry, Instant, NoPredicate,
    WeighOne, next_call,
};
use std::alloc::Global;
use std::hash::BuildHasher;
use std::time::Duration;

/// How many sessions there are at most.
const CAPACITY: u64 = 100_000;

/// After how many seconds without use a session ends.
const IDLE_SECONDS: u64 = 900;

/// A session: whose it is, and how long it lasts at most.
#[derive(Clone, Copy, Debug, PartialEq, Eq, Drop)]
pub struct Session {
    pub user: u64,
    pub lasts: Duration,
}

/// A session ends when its own time is over. A use does not make it last longer, a new log-in with
/// its token does.
#[derive(Drop)]
pub struct OwnTime;

impl Expiry<u64, Session> for OwnTime {
    ghost use Rattle.std.specs.Prelude.{Some};
    ghost use Rattle.std.specs.Duration.{as_nanos};

    ghost created = { λ _ _ session _. Some (as_nanos session.lasts) };

    ghost read = { λ _ _ _ _ left _. left };

    ghost updated = { λ _ _ session _ _. Some (as_nanos session.lasts) };

    fn expire_after_create(
        &self,
        _token: &u64,
        session: &Session,
        _created_at: Instant,
    ) -> Option<Duration> {
        Some(session.lasts)
    }

    fn expire_after_read(
        &self,
        _token: &u64,
        _session: &Session,
        _read_at: Instant,
        remaining: Option<Duration>,
        _last_modified_at: Instant,
    ) -> Option<Duration> {
        remaining
    }

    fn expire_after_update(
        &self,
        _token: &u64,
        session: &Session,
        _updated_at: Instant,
        _remaining: Option<Duration>,
    ) -> Option<Duration> {
        Some(session.lasts)
    }
}

/// Sessions by their tokens.
pub type SessionCache<S> = CacheState<u64, Session, S, Bundle<OwnTime, WeighOne, NoPredicate, ()>>;

/// Sessions by their tokens. Tokens come from strangers: the hasher is to be one that they cannot
/// foresee.
#[derive(Drop)]
pub struct Sessions<S: BuildHasher> {
    cache: SessionCache<S>,
}

impl<S: BuildHasher + Drop> Sessions<S> {
    /// No sessions yet.
    pub fn new(alloc: Global, hasher: S, clock: Instant) -> Result<Self, BuildError> {
        let cache = CacheBuilder::new(CAPACITY)
            .time_to_idle(Duration::from_secs(IDLE_SECONDS))
            .expire_after(OwnTime)
            .build_state(alloc, hasher, clock)?;
        Ok(Sessions { cache })
    }

    /// Begins a session, in the place of one of the same token.
    pub fn begin(&mut self, token: u64, session: Session, clock: Instant) -> Result<(), CacheError>
        ensures refused { OnErr result (self.new ≡ self.old) }
    {
        let at = next_call(&self.cache, clock)?;
        self.cache.insert(token, session, at)
    }

    /// Whose session has this token, if there is one that did not end. It is a use of it.
    pub fn user(&mut self, token: u64, clock: Instant) -> Result<Option<u64>, CacheError>
        ensures refused { OnErr result (self.new ≡ self.old) }
    {
        let at = next_call(&self.cache, clock)?;
        let session = self.cache.get(&token, at)?;
        Ok(session.map(|session| session.user))
    }

    /// Ends a session.
    pub fn end(&mut self, token: u64, clock: Instant) -> Result<(), CacheError>
        ensures refused { OnErr result (self.new ≡ self.old) }
    {
        let at = next_call(&self.cache, clock)?;
        self.cache.invalidate(&token, at)
    }
}

mod tests;
