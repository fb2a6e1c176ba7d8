//! Whoever is asked for loads: on the spot, or by threads of their own.
ghost use Rattle.std.specs.Prelude.{◌≡◌, ℕ, List, Option};
ghost use Rattle.audit_model.specs.declared.event.Outcome.{Outcome};
ghost use Rattle.audit_model.specs.declared.input.LoadId.{LoadId};
ghost use Rattle.cache_loop.specs.declared.asker.Asked.{Asked};
ghost use Rattle.cache_loop.specs.declared.asker.Asked.TheVariants.{Now};

use audit_model::{Bytes, LoadId, Outcome};
use cache_run::Loader;
use crossbeam_channel::{Receiver, Sender, bounded, unbounded};
use mio::Waker;
use std::alloc::{AllocError, Global};
use std::sync::atomic::{AtomicU64, Ordering};
use std::sync::{Arc, Wait};
use std::thread;
use std::thread::{JoinHandle, Threads};

/// What comes of asking for a load.
#[derive(Drop)]
pub enum Asked {
    /// The load is answered at once: its outcome, or `None` if the load is given up.
    Now(Option<Outcome>),
    /// The outcome of the load comes later, by `Asker::next`.
    Later,
}

/// Whoever is asked for the loads of a loop.
pub trait Asker: Drop {
    /// In one state this may come of asking for a load by its key, and leads to another state.
    ghost asks: { Self → LoadId → List ℕ → Asked → Self → Type 0 };

    /// Asks for a load by its key. The call does not wait for a loader that is slow.
    fn ask(&mut self, load: LoadId, key: Bytes) -> Asked
        ensures { asks self.old load key result self.new };

    /// Returns a load that was answered later, with its outcome, or without one if the load is given up. Returns `None` if no answer has
    /// come.
    fn next(&mut self) -> Option<(LoadId, Option<Outcome>)>;

    /// Notes that the load with this number was given up, as were those that were asked for before it: nobody needs their outcomes.
    fn cancel(&mut self, number: u64);
}

/// An asker of a loader that is quick: each load is answered at once.
#[derive(Drop)]
pub struct Here<D: Loader + Drop> {
    /// The loader that is asked.
    pub loader: D,
}

impl<D: Loader + Drop> Asker for Here<D> {
    ghost asks = { λ p load key asked q. (answer : Option Outcome) × (asked ≡ Now answer)
        × D.loads p.loader key answer q.loader };

    fn ask(&mut self, load: LoadId, key: Bytes) -> Asked {
        let _load = load;
        Asked::Now(self.loader.load(key.as_slice()))
    }

    fn next(&mut self) -> Option<(LoadId, Option<Outcome>)> {
        None
    }

    fn cancel(&mut self, number: u64) {
        let _number = number;
    }
}

/// A load, and its key.
type Question = (LoadId, Bytes);

/// A load, and its outcome.
type Answer = (LoadId, Option<Outcome>);

/// An asker of loaders that may be slow, each on a thread of its own. Each answer wakes the loop. No loader is asked for a load that was
/// given up before its turn came.
#[derive(Drop)]
pub struct Pool<R: Wait> {
    rt: R,
    questions: Sender<Question, Global>,
    answers: Receiver<Answer, Global>,
    // loads up to this number were given up
    stale: Arc<AtomicU64>,
    threads: Vec<JoinHandle<()>>,
}

impl<R: Threads + Wait + Copy + Send + Sync + 'static> Pool<R> {
    /// Starts a thread for each loader. The waker is one of the loop, by the token `LOADED`. Returns an error if there is not enough memory
    /// or a thread cannot be started; then the threads that were started end.
    pub fn start<D: Loader + Drop + Send + 'static>(
        rt: R,
        alloc: Global,
        loaders: Vec<D>,
        waker: Waker,
    ) -> Result<Pool<R>, AllocError> {
        let waker = Arc::new(alloc, waker)?;
        let stale = Arc::new(alloc, AtomicU64::new(0))?;
        let (questions, asked) = unbounded(alloc)?;
        // (an answer waits for room, so none is lost for want of memory)
        let (answering, answers) = bounded(alloc, loaders.len().max(1))?;
        let mut threads = Vec::with_capacity(alloc, loaders.len())?;
        for loader in loaders {
            let asked = Receiver::clone(&asked)?;
            let answering = Sender::clone(&answering)?;
            let waker = Arc::try_clone(&waker)?;
            let stale = Arc::try_clone(&stale)?;
            let answering = move || answer_all(&rt, loader, &asked, &stale, &answering, &waker);
            threads.push(thread::spawn(&rt, answering).map_err(|_| AllocError)?)?;
        }
        Ok(Pool {
            rt,
            questions,
            answers,
            stale,
            threads,
        })
    }

    /// Ends the threads, once each loader has answered what it was asked last. Loads that no loader was asked for are dropped.
    pub fn join(self) {
        let Pool {
            rt,
            questions,
            answers,
            threads,
            ..
        } = self;
        drop(questions);
        drop(answers);
        for thread in threads {
            thread.join(&rt);
        }
    }
}

/// Answers questions but for those that were given up, until nobody asks any more.
fn answer_all<D: Loader + Drop, R: Wait>(
    rt: &R,
    loader: D,
    asked: &Receiver<Question, Global>,
    stale: &AtomicU64,
    answering: &Sender<Answer, Global>,
    waker: &Waker,
) {
    let mut loader = loader;
    for (load, key) in asked.iter(rt) {
        if load.number <= stale.load(Ordering::SeqCst) {
            continue;
        }
        let said = loader.load(key.as_slice());
        // Each answer is followed by a wake of its own, so that none is left behind.
        let sent = answering.send(rt, (load, said));
        if sent.is_err() {
            return;
        }
        let _ = waker.wake();
    }
}

impl<R: Wait + Drop> Asker for Pool<R> {
    ghost asks = { λ p load key asked q. Unit {0} };

    fn ask(&mut self, load: LoadId, key: Bytes) -> Asked {
        match self.questions.send(&self.rt, (load, key)) {
            Ok(()) => Asked::Later,
            Err(_) => Asked::Now(None),
        }
    }

    fn next(&mut self) -> Option<(LoadId, Option<Outcome>)> {
        self.answers.try_recv(&self.rt).ok()
    }

    fn cancel(&mut self, number: u64) {
        let stale = self.stale.load(Ordering::SeqCst);
        self.stale.store(stale.max(number), Ordering::SeqCst);
    }
}
