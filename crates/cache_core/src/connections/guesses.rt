//! Where connections were found last.

/// How many guesses there are: so many connections side by side each have their own.
const GUESSES: usize = 4096;

/// Guesses at the index of each place's resident. Who takes one compares its place: a wrong guess costs time alone.
#[derive(Drop)]
pub struct Guesses {
    indices: [u32; GUESSES],
}

impl Guesses {
    /// Creates guesses at the first resident.
    pub fn new() -> Guesses {
        Guesses {
            indices: [0; GUESSES],
        }
    }

    /// Returns the guess for a place.
    pub fn get(&self, place: usize) -> u32 {
        self.indices[place % GUESSES]
    }

    /// Keeps the index at which the resident of a place was found.
    pub fn keep(&mut self, place: usize, index: u32) {
        self.indices[place % GUESSES] = index;
    }
}
