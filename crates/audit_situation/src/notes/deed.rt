//! What a step does to values.
ghost use Rattle.std.specs.Prelude.{◌≡◌};
ghost use Rattle.std.specs.Option.{option_map};
ghost use Rattle.audit_model.specs.Commands.{is_this, covers_key};
ghost use Rattle.audit_situation.specs.Notes.Deeds.{covering_by};

/// Which keys a step covers.
#[derive(Clone, Copy)]
pub enum Covering<'a> {
    /// The step covers no key.
    Nothing,
    /// The step covers every key.
    Everything,
    /// The step covers the keys that begin with this prefix.
    Prefixed(&'a [u8]),
}

/// What a step does to values, except for the value that it accepts.
#[derive(Clone, Copy)]
pub struct Deed<'a> {
    /// The key that the step looks up.
    pub uses: Option<&'a [u8]>,
    /// The key whose value the step deletes.
    pub deletes: Option<&'a [u8]>,
    /// The keys that the step covers.
    pub covers: Covering<'a>,
    /// Whether the step runs all parts.
    pub syncs: bool,
}

/// Returns whether there is a key `this`, and `key` is equal to it.
pub fn is_this(key: &[u8], this: Option<&[u8]>) -> bool
    ensures { result ≡ is_this key.now (option_map (λ k. k.now) this.entry) }
{
    match this {
        Some(this) => this == key,
        None => false,
    }
}

/// Returns whether the key is covered.
pub fn covers_key(key: &[u8], covering: Covering<'_>) -> bool
    ensures { result ≡ covers_key key.now (covering_by covering.entry) }
{
    match covering {
        Covering::Nothing => false,
        Covering::Everything => true,
        Covering::Prefixed(prefix) => key.starts_with(prefix),
    }
}
