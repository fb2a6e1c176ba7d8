//! Connections that speak lines.
ghost use Rattle.std.specs.Prelude.{◌≡◌, [], true, IfOk, option_map};
ghost use Rattle.audit_model.specs.declared.input.Conn.{Conn};
ghost use Rattle.cache_run.specs.Driver.Driven.{ClosesAfter};
ghost use Rattle.cache_link.specs.Reports.{report_with};
ghost use Rattle.cache_link.specs.Served.{station};
ghost use Rattle.cache_loop.specs.Lines.{OpensLink, TurnsLink};
ghost use Rattle.cache_loop.specs.Loads.{GivesUpEach, SettlesEach, held, numbers_out, numbers_pending};

use crate::apart::Apart;
use crate::asker::Asker;
use crate::counts::Counts;
use crate::loading::Loading;
use crate::nobody::Nobody;
use crate::replies::{Found, Overheard, Replies};
use crate::steward::Steward;
use cache_link::{Link, Next, Patient, Tools};
use cache_run::{Clock, Host, Loader, RunError};
use std::alloc::Global;
use std::io::{Read, Write};
use std::time::Duration;

/// A connection of lines, and how far its replies have been read.
#[derive(Drop)]
pub struct HeardLink {
    link: Link,
    replies: Replies,
}

/// A steward that serves the connections of a namespace of a host by lines. Loads that go out are asked for between the turns.
#[derive(Drop)]
pub struct LineSteward<'h, 'p, H: Host, K, A: Asker> {
    alloc: Global,
    namespace: u64,
    host: Apart<'h, H>,
    place: &'p mut H::Place,
    tools: Tools<K, Nobody>,
    loading: Loading<A>,
    found: Found,
}

impl<'h, 'p, H: Host, K: Clock + Drop, A: Asker> LineSteward<'h, 'p, H, K, A> {
    /// Creates a steward of a namespace, with a clock, and whoever is asked for loads. After `limit` nanoseconds a load is given up; `None`
    /// is no limit. Returns the error of the host if it cannot open a connection, by which loads are settled.
    pub fn new(
        alloc: Global,
        namespace: u64,
        host: &'h mut H,
        place: &'p mut H::Place,
        clock: K,
        asker: A,
        limit: Option<u64>,
    ) -> Result<LineSteward<'h, 'p, H, K, A>, RunError>
        ensures { IfOk result (λ steward. steward.namespace ≡ namespace) }
    {
        let mut host = Apart::new(alloc, host);
        let loading = Loading::open(alloc, &mut host, place, namespace, asker, limit)?;
        Ok(LineSteward {
            alloc,
            namespace,
            host,
            place,
            tools: Tools::new(alloc, clock, Nobody),
            loading,
            found: Found::new(),
        })
    }

    /// Gives up the loads that went out and were not settled. Returns whoever was asked.
    pub fn end(self) -> A
        requires known { (conn : Conn) → (place : H.Place) → H.knows conn place }
    {
        let LineSteward {
            mut host,
            place,
            mut loading,
            ..
        } = self;
        loading.give_up_out(&mut host, place);
        loading.end(&mut host, place)
    }
}

impl<H: Host, K: Clock + Drop, A: Asker> Steward for LineSteward<'_, '_, H, K, A> {
    type Link = HeardLink;

    ghost rests_on = { (conn : Conn) → (place : H.Place) → H.knows conn place };

    ghost is_settled = { λ steward. (steward.loading.pending.items ≡ [])
        × (steward.host.loads.items ≡ []) };

    ghost opens = { λ opened p q. OpensLink H.Host p.namespace
        (option_map (λ heard. heard.link) opened) p.place.now q.place.now
        × (q.namespace ≡ p.namespace) };

    ghost wakes = { λ is_readable is_ending s t. t.link ≡ record s.link {
      report = report_with s.link.report is_readable is_ending;
    } };

    ghost stops = { λ s t. t.link ≡ record s.link { is_stopped = true } };

    ghost turns = { λ result s t p q b c. TurnsLink ⟦<Apart<'static, H> as Host>⟧ K.reads
        ⟦<Nobody as Loader>⟧.loads result s.link t.link (station p.place.now p.tools)
        (station q.place.now q.tools) b c
        × (q.namespace ≡ p.namespace) };

    ghost closes = { λ heard outcome p q. ClosesAfter H.closes H.drops
        ⟦<Nobody as Loader>⟧.loads outcome heard.link.session p.place.now q.place.now
        p.tools.loader q.tools.loader
        × (q.namespace ≡ p.namespace) };

    ghost settles = { λ p q. SettlesEach H.came H.rests p.loading.conn
        (held p.host.loads.items p.loading.pending.items) p.place.now
        (held q.host.loads.items q.loading.pending.items) q.place.now
        × (q.loading.conn ≡ p.loading.conn) × (q.namespace ≡ p.namespace) };

    ghost gives_up = { λ p q. (m : H.Place)
        × GivesUpEach H.came H.rests p.loading.conn p.place.now (numbers_out p.host.loads.items) m
        × GivesUpEach H.came H.rests p.loading.conn m (numbers_pending p.loading.pending.items)
        q.place.now
        × (q.namespace ≡ p.namespace) };

    fn refusal(&self) -> &'static [u8] {
        b"ERR connections\n"
    }

    fn open(&mut self) -> Option<HeardLink> {
        match Link::open(&mut self.host, self.place, self.alloc, self.namespace) {
            Ok(link) => Some(HeardLink {
                link,
                replies: Replies::new(),
            }),
            Err(_) => None,
        }
    }

    fn wake(&self, link: &mut HeardLink, is_readable: bool, is_ending: bool) {
        link.link.wake(is_readable, is_ending);
    }

    fn stop(&self, link: &mut HeardLink) {
        link.link.stop();
    }

    fn turn<I: Read + Drop, O: Write + Drop>(
        &mut self,
        link: &mut HeardLink,
        reader: I,
        writer: O,
    ) -> Result<Next, RunError> {
        let HeardLink { link, replies } = link;
        let mut reader = Patient::new(reader);
        let mut writer = Patient::new(Overheard::new(writer, replies, &mut self.found));
        link.turn(
            &mut self.host,
            self.place,
            &mut reader,
            &mut writer,
            &mut self.tools,
        )
    }

    fn close(&mut self, link: HeardLink, outcome: Result<(), RunError>) {
        let _ = link.link.close(&mut self.host, self.place, outcome, &mut self.tools.loader);
    }

    fn ask_loads(&mut self) -> u64 {
        self.loading
            .ask_all(&mut self.host, self.place, &mut self.tools.clock);
        self.loading.take_settled()
    }

    fn take_answers(&mut self) -> u64 {
        self.loading
            .take_answers(&mut self.host, self.place, &mut self.tools.clock);
        self.ask_loads()
    }

    fn give_up_loads(&mut self) -> u64 {
        self.loading.give_up_out(&mut self.host, self.place);
        self.loading.give_up_pending(&mut self.host, self.place);
        self.loading.take_settled()
    }

    fn patience(&mut self) -> Option<Duration> {
        let nanos = self.loading.patience(&mut self.tools.clock)?;
        Some(Duration::from_nanos(nanos))
    }

    fn tally(&self, counts: &mut Counts) {
        counts.found = self.found;
        counts.loads = self.loading.asked();
    }
}
