//! A resolver of names.
ghost use Rattle.std.specs.Prelude.{◌≡◌, IfErr};
ghost use Rattle.moka_sync.specs.Refusals.{IsTurnRefusal};

use moka_sync::{
    Build, BuildError, Bundle, Cache, CacheBuilder, CacheError, Env, NoExpiry, NoPredicate,
    StdHasher, WeighOne,
};
use std::alloc::Global;
use std::sync::{Arc, Wait};
use std::time::Duration;

/// What is asked if an answer is not known. It may take long, and threads ask it at the same time.
pub trait Upstream {
    /// The address of a name.
    fn ask(&self, name: &str) -> Result<u32, Unresolved>;
}

/// A name that has no address.
#[derive(Clone, Copy, Debug, PartialEq, Eq, Drop)]
pub struct Unresolved;

/// The rules of the answers: each weighs one.
type AnswerRules = Bundle<NoExpiry, WeighOne, NoPredicate, Unresolved>;

/// Addresses by their names.
type Answers<E> = Cache<String, u32, StdHasher, AnswerRules, E>;

/// An empty cache of at most this many answers, each of which is kept for this time.
fn make_answers<E: Env + Drop>(
    alloc: Global,
    answers: u64,
    time: Duration,
    env: E,
) -> Result<Answers<E>, BuildError> {
    CacheBuilder::new(answers)
        .time_to_live(time)
        .faults::<Unresolved>()
        .build(alloc, env)
}

/// Answers the addresses of names, for all threads that share it. Answers are kept for a time; that a name has none is not kept, and is asked again.
#[derive(Drop)]
pub struct Resolver<U, E: Env> {
    answers: Answers<E>,
    pub(crate) upstream: U,
    alloc: Global,
}

impl<U: Upstream + Drop, E: Env + Drop> Resolver<U, E> {
    /// A resolver that keeps at most this many answers, each for this time.
    pub fn new(
        alloc: Global,
        answers: u64,
        time: Duration,
        upstream: U,
        env: E,
    ) -> Result<Self, BuildError> {
        match make_answers(alloc, answers, time, env) {
            Ok(answers) => Ok(Resolver {
                answers,
                upstream,
                alloc,
            }),
            Err(why) => Err(why),
        }
    }

    /// The address of a name that is also there as a key.
    fn resolve_key<H: Wait>(
        &self,
        rt: &H,
        key: String,
        name: &str,
    ) -> Result<Result<u32, Arc<Unresolved>>, CacheError>
        ensures { IfErr result IsTurnRefusal }
    {
        self.answers
            .try_get_with(rt, key, || -> Result<u32, Unresolved> {
                self.upstream.ask(name)
            })
    }

    /// The address of a name. If threads ask for a name at the same time, one asks the upstream, and the others wait for its answer.
    pub fn resolve<H: Wait>(
        &self,
        rt: &H,
        name: &str,
    ) -> Result<Result<u32, Arc<Unresolved>>, CacheError>
        ensures { IfErr result IsTurnRefusal }
    {
        match String::from_str(self.alloc, name) {
            Ok(key) => self.resolve_key(rt, key, name),
            Err(_) => Err(CacheError::OutOfMemory),
        }
    }
}
