//! The load that a step owes, and whether it may refuse its identifier.
ghost use Rattle.std.specs.Prelude.{◌≡◌, ◌||◌, suc, option_map, Some, nat_eq, is_some};
ghost use Rattle.std.specs.Option.{option_eq};
ghost use Rattle.audit_model.specs.History.{Running};
ghost use Rattle.audit_model.specs.declared.command.Command.TheVariants as says;
ghost use Rattle.audit_model.specs.Replies.{may_refuse, load_sent_by};
ghost use Rattle.audit_model.specs.Situation.{live_at, view_in, load_in};
ghost use Rattle.audit_model.specs.declared.config.Config.{Config};
ghost use Rattle.audit_situation.specs.Held.Seeing.{held_of};
ghost use Rattle.audit_situation.specs.States.{shown_situation};
ghost use Rattle.audit_situation.specs.Actions.Doings.{action_of};

use crate::actions::doing::Doing;
use crate::held::Seen;
use crate::notes::live;
use crate::{State, find_load};
use audit_lines::Request;
use audit_model::Config;

/// Returns the live value of a key, or `None` if there is none.
pub fn found<'a>(config: &Config, s: &'a State, key: &'a [u8]) -> Option<Seen<'a>>
    ensures { option_map (λ h. (held_of h).value) result
        ≡ live_at config.now s.now.latest s.now.held key.now }
{
    live(config, s.latest, &s.held, key)
}

/// Returns whether a step may answer that the identifier of its predicate is in use: only a `DROPIF` after another one.
pub fn may_refuse(s: &State, doing: Doing<'_>) -> bool
    ensures { (config : Config)
        → result ≡ may_refuse (view_in config (shown_situation s.now)) (action_of doing.entry) }
{
    match doing {
        Doing::Line(Request::DropIf { .. }) => s.dropped,
        Doing::Line(
            Request::Set { .. } | Request::Get { .. } | Request::Has { .. } | Request::Load { .. },
        ) => false,
        Doing::Line(Request::Del { .. } | Request::Add { .. } | Request::Clear | Request::Keys) =>
            false,
        Doing::Line(Request::Sync | Request::Quit | Request::Fault(_)) | Doing::Hold => false,
        Doing::Deliver(_) | Doing::Abandon | Doing::Store(_, _) => false,
    }
}

/// Whether a load has the next number.
fn is_next(sent: u64, load: Option<u64>) -> bool
    ensures { result ≡ option_eq nat_eq load (Some (suc sent)) }
{
    match load {
        Some(number) => number > 0 && number - 1 == sent,
        None => false,
    }
}

/// Whether a `LOAD` needs no load of its own.
fn needs_none(config: &Config, s: &State, key: &[u8]) -> bool
    ensures { result ≡ (is_some (live_at config.now s.now.latest s.now.held key.now)
        || is_some (load_in (shown_situation s.now) key.now)) }
{
    found(config, s, key).is_some() || find_load(&s.pending, key).is_some()
}

/// Whether a `LOAD` sends the load that it should.
fn loads_key_rightly(config: &Config, s: &State, key: &[u8], load: Option<u64>) -> bool
    ensures { result ≡ option_eq nat_eq load
        (load_sent_by (view_in config.now (shown_situation s.now)) (Running (says.Load key.now))) }
{
    if needs_none(config, s, key) {
        load.is_none()
    } else {
        is_next(s.sent, load)
    }
}

/// Returns whether a step sends the load that it should, with this number, or none.
pub fn loads_rightly(config: &Config, s: &State, doing: Doing<'_>, load: Option<u64>) -> bool
    ensures { result ≡ option_eq nat_eq load
        (load_sent_by (view_in config.now (shown_situation s.now)) (action_of doing.entry)) }
{
    match doing {
        Doing::Line(Request::Load { key }) => loads_key_rightly(config, s, key, load),
        Doing::Line(
            Request::Set { .. } | Request::Get { .. } | Request::Has { .. } | Request::Del { .. },
        ) => { load.is_none() }
        Doing::Line(
            Request::Add { .. } | Request::Clear | Request::DropIf { .. } | Request::Keys,
        ) => load.is_none(),
        Doing::Line(Request::Sync | Request::Quit | Request::Fault(_)) | Doing::Hold =>
            load.is_none(),
        Doing::Deliver(_) | Doing::Abandon | Doing::Store(_, _) => load.is_none(),
    }
}
