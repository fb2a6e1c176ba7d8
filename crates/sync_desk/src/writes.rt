//! When values were last written.
ghost use Rattle.std.specs.Prelude.{◌≡◌, ◌%◌, replicate};
ghost use Rattle.sync_desk.specs.Writing.{last_in, noted_in};

/// The number of places.
const PLACES: usize = 64;

/// The steps at which values were last written, each in the place that the key's hash selects. A caller that has released the lock can see
/// from it whether the value that it saw may have been overwritten.
/// Keys share places, so a write of another key may look like one of this key.
#[derive(Drop)]
pub(crate) struct Writes {
    steps: [u64; PLACES],
}

impl Writes {
    /// Creates a table of no writes.
    pub fn new() -> Self
        ensures { result.steps ≡ replicate 64 0 }
    {
        Writes { steps: [0; PLACES] }
    }

    /// Notes that a value of a key with this hash is written.
    pub fn note(&mut self, hash: u64, step: u64)
        ensures { self.new.steps ≡ noted_in hash step self.old.steps }
    {
        self.steps[place_of(hash)] = step;
    }

    /// Returns the step at which a value of a key with this hash was last written, or 0 if none was.
    pub fn last(&self, hash: u64) -> u64
        ensures { result ≡ last_in hash self.now.steps }
    {
        self.steps[place_of(hash)]
    }
}

/// The place of a hash.
fn place_of(hash: u64) -> usize
    ensures { result ≡ hash % 64 }
{
    hash as usize % PLACES
}
