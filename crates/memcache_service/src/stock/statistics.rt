//! `stats`.
ghost use Rattle.std.specs.Prelude.{◌≡◌, ◌≤◌, ◌++◌, ℕ, List, IfOk, OnOk, OnErr, bytes_eq, codes, length, map, take, vec_capacity, true, false};
ghost use Rattle.memcache_model.specs.Bytes.{tokens};
ghost use Rattle.memcache_model.specs.Statistics.{counts_rows, figure_line, figures_text, general_text, reset_by, settings_text, stats_text, topic_of, topic_text};
ghost use Rattle.memcache_service.specs.Lines.{said_from};
ghost use Rattle.memcache_service.specs.Shelves.{MayComeAt};
ghost use Rattle.memcache_service.specs.Stocks.{LeavesStock, Spares, facts_of, figure_of};

use super::Stock;
use crate::replies::{Reply, say, say_number};
use crate::shelf::Shelf;
use memcache_lines::next_token;
use memcache_model::Counters;
use std::alloc::AllocError;

/// A statistic: its name, and the number.
type Figure = (&'static [u8], u64);

impl<T: Shelf> Stock<T> {
    /// Appends statistics to `output`, or resets them, and returns the rest of the reply. Returns an error if there is not enough memory.
    pub fn stats(
        &mut self,
        words: &[u8],
        moment: u64,
        output: &mut Vec<u8>,
    ) -> Result<Reply, AllocError>
        requires { MayComeAt (T.view self.old.shelf) moment }
        ensures keeps { LeavesStock T.view moment self.old self.new }
        ensures tells { IfOk result (λ reply. (items bytes : ℕ)
            × (said_from (length output.old.items) output.new.items reply
            ≡ stats_text (tokens words.now) (facts_of moment self.old items bytes)
            self.old.counters)) }
        ensures counts { OnOk result
            (self.new.counters ≡ reset_by (tokens words.now) self.old.counters) }
        ensures err { OnErr result (Spares self.old self.new) }
        ensures begun { take (length output.old.items) output.new.items ≡ output.old.items }
        ensures capacity { vec_capacity output.old ≤ vec_capacity output.new }
    {
        let word = first_word(words);
        if word == b"reset".as_slice() {
            self.counters = Counters::new();
            return Ok(Reply::Reset);
        }
        let size = (self.shelf.item_count(), self.shelf.weight());
        let mut text = Vec::new(self.alloc);
        self.say_statistics(word, moment, size, &mut text)?;
        say(output, text.as_slice())?;
        Ok(Reply::Written)
    }

    /// Writes the statistics that a word asks for, which is not `reset`, with this number of items and of their bytes.
    fn say_statistics(
        &self,
        word: &[u8],
        moment: u64,
        size: (u64, u64),
        output: &mut Vec<u8>,
    ) -> Result<(), AllocError>
        requires { bytes_eq word.now (codes "reset") ≡ false }
        ensures { OnOk result (output.new.items ≡ output.old.items ++ topic_text word.now
            (facts_of moment self.now size.0 size.1) self.now.counters) }
    {
        if word == b"".as_slice() {
            self.say_general(moment, size, output)
        } else if word == b"settings".as_slice() {
            self.say_settings(output)
        } else if word == b"items".as_slice() || word == b"slabs".as_slice() {
            say(output, b"END\r\n")
        } else {
            say(output, b"ERROR\r\n")
        }
    }

    /// Writes what `stats` tells without a word.
    fn say_general(
        &self,
        moment: u64,
        size: (u64, u64),
        output: &mut Vec<u8>,
    ) -> Result<(), AllocError>
        ensures { OnOk result (output.new.items ≡ output.old.items
            ++ general_text (facts_of moment self.now size.0 size.1) self.now.counters) }
    {
        let (items, bytes) = size;
        let times: &[Figure] = &[
            (b"pid", 1),
            (b"uptime", moment.saturating_sub(self.made) / 1000),
            (b"time", moment / 1000),
        ];
        let sizes: &[Figure] = &[
            (b"pointer_size", 64),
            (b"threads", 1),
            (b"curr_connections", self.connections),
            (b"limit_maxbytes", self.capacity),
            (b"curr_items", items),
            (b"bytes", bytes),
        ];
        say_figures(output, times)?;
        say(output, b"STAT version 1.6.18\r\n")?;
        say_figures(output, sizes)?;
        say_counts(&self.counters, output)?;
        say(output, b"END\r\n")
    }

    /// Writes settings.
    fn say_settings(&self, output: &mut Vec<u8>) -> Result<(), AllocError>
        ensures { OnOk result (output.new.items ≡ output.old.items
            ++ settings_text self.now.capacity self.now.most) }
    {
        let settings: &[Figure] = &[
            (b"maxbytes", self.capacity),
            (b"item_size_max", u64::from(self.most)),
            (b"num_threads", 1),
        ];
        say_figures(output, settings)?;
        say(output, b"STAT evictions on\r\nEND\r\n")
    }
}

/// Writes all counts.
fn say_counts(counters: &Counters, output: &mut Vec<u8>) -> Result<(), AllocError>
    ensures { OnOk result (output.new.items ≡ output.old.items
        ++ figures_text (counts_rows counters.now)) }
{
    let figures: &[Figure] = &[
        (b"total_connections", counters.total_connections),
        (b"cmd_get", counters.cmd_get),
        (b"cmd_set", counters.cmd_set),
        (b"cmd_flush", counters.cmd_flush),
        (b"cmd_touch", counters.cmd_touch),
        (b"get_hits", counters.get_hits),
        (b"get_misses", counters.get_misses),
        (b"delete_misses", counters.delete_misses),
        (b"delete_hits", counters.delete_hits),
        (b"incr_misses", counters.incr_misses),
        (b"incr_hits", counters.incr_hits),
        (b"decr_misses", counters.decr_misses),
        (b"decr_hits", counters.decr_hits),
        (b"cas_misses", counters.cas_misses),
        (b"cas_hits", counters.cas_hits),
        (b"cas_badval", counters.cas_badval),
        (b"touch_hits", counters.touch_hits),
        (b"touch_misses", counters.touch_misses),
        (b"bytes_read", counters.bytes_read),
        (b"bytes_written", counters.bytes_written),
        (b"total_items", counters.total_items),
        (b"expired", counters.expired),
        (b"evictions", counters.evictions),
    ];
    say_figures(output, figures)
}

/// Writes statistics, one a line.
fn say_figures(output: &mut Vec<u8>, figures: &[Figure]) -> Result<(), AllocError>
    ensures { OnOk result (output.new.items ≡ output.old.items
        ++ figures_text (map figure_of figures.now)) }
{
    for place in 0..figures.len() {
        let (name, number) = figures[place];
        say_figure(output, name, number)?;
    }
    Ok(())
}

/// Writes the line of a statistic.
fn say_figure(output: &mut Vec<u8>, name: &[u8], number: u64) -> Result<(), AllocError>
    ensures { OnOk result (output.new.items ≡ output.old.items
        ++ figure_line (name.now, number)) }
{
    say(output, b"STAT ")?;
    say(output, name)?;
    say(output, b" ")?;
    say_number(output, number)?;
    say(output, b"\r\n")
}

/// The first word, or an empty one.
fn first_word(words: &[u8]) -> &[u8]
    ensures { result.now ≡ topic_of (tokens words.now) }
{
    match next_token(words) {
        Some((word, _)) => word,
        None => b"".as_slice(),
    }
}
