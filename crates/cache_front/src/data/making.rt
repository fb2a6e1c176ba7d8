//! What the front of a store is made with.
ghost use Rattle.std.specs.Prelude.{◌≡◌, ◌≤◌, ◌^◌, ℕ, Some, option_map};
ghost use Rattle.audit_model.specs.History.{part_count};
ghost use Rattle.cache_front.specs.Parts.{IsBrief, nanos, policy_of};
ghost use Rattle.cache_front.specs.Making.{whole_settings};

use audit_model::Config;
use front_state::{EvictionPolicy, Settings};

/// Returns how many bits of a hash are the key's part: there are 2^bits parts, the configured number rounded up to a power of two.
pub fn bits_of(config: &Config) -> u32
    ensures parts { 2 ^ result ≡ part_count config.now }
    ensures few { result ≤ 8 }
{
    match config.parts {
        0..=1 => 0,
        2 => 1,
        3..=4 => 2,
        5..=8 => 3,
        9..=16 => 4,
        17..=32 => 5,
        33..=64 => 6,
        65..=128 => 7,
        _ => 8,
    }
}

/// Returns the settings of all parts together.
pub fn settings_of(config: &Config, made: u64) -> Settings
    requires { IsBrief config.now }
    ensures { result ≡ whole_settings config.now made }
{
    Settings {
        capacity: config.capacity,
        live: as_nanos(config.live_ms),
        idle: as_nanos(config.idle_ms),
        policy: policy_of(config.policy),
        tells: true,
        takes_predicates: true,
        made,
    }
}

/// A time in nanoseconds.
fn as_nanos(milliseconds: Option<u64>) -> Option<u64>
    requires { (ms : ℕ) → milliseconds ≡ Some ms → ms ≤ 999999999999 }
    ensures { result ≡ option_map nanos milliseconds }
{
    Some(milliseconds? * 1_000_000)
}

/// The policy, as the engine names it.
fn policy_of(policy: audit_model::EvictionPolicy) -> EvictionPolicy
    ensures { result ≡ policy_of policy }
{
    match policy {
        audit_model::EvictionPolicy::TinyLfu => EvictionPolicy::TinyLfu,
        audit_model::EvictionPolicy::Lru => EvictionPolicy::Lru,
    }
}
