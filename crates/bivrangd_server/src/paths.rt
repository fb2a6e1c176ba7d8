//! The paths at which a server listens.

use std::alloc::{AllocError, Global};
use std::fs;
use std::fs::{Files, Metadata};
use std::os::unix::fs::MetadataExt;

/// What tells a socket at a path from one that came there later: its device, its number there, and when it was made.
type Mark = (u64, u64, (i64, i64));

/// The mark of what stands at a path.
fn mark_of(found: &Metadata) -> Mark {
    (
        found.dev(),
        found.ino(),
        (found.mtime(), found.mtime_nsec()),
    )
}

/// A path at which a socket was made.
#[derive(Drop)]
struct Made {
    path: String,
    mark: Mark,
}

/// The paths at which a server has made sockets.
#[derive(Drop)]
pub struct Paths {
    alloc: Global,
    all: Vec<Made>,
}

impl Paths {
    /// Creates a list without paths.
    pub fn new(alloc: Global) -> Paths {
        Paths {
            alloc,
            all: Vec::new(alloc),
        }
    }

    /// Adds a path at which a socket was just made. If there is no memory for that, or it is not found there, it is removed at once, and
    /// an error is returned.
    pub fn add<R: Files>(&mut self, rt: &R, path: &str) -> Result<(), AllocError> {
        let added = self.keep(rt, path);
        if added.is_err() {
            let _ = fs::remove_file(rt, path);
        }
        added
    }

    /// Keeps a path with the mark of what stands there.
    fn keep<R: Files>(&mut self, rt: &R, path: &str) -> Result<(), AllocError> {
        let Ok(found) = fs::symlink_metadata(rt, path) else {
            return Err(AllocError);
        };
        let path = String::from_str(self.alloc, path)?;
        let mark = mark_of(&found);
        self.all.push(Made { path, mark })?;
        Ok(())
    }

    /// Removes the sockets that were made at the paths, and none that came there later.
    pub fn clear<R: Files>(&self, rt: &R) {
        for made in &self.all {
            made.clear(rt);
        }
    }
}

impl Made {
    /// Removes the socket that was made at the path, if it still stands there.
    fn clear<R: Files>(&self, rt: &R) {
        if let Ok(found) = fs::symlink_metadata(rt, self.path.as_str()) {
            if mark_of(&found) == self.mark {
                let _ = fs::remove_file(rt, self.path.as_str());
            }
        }
    }
}
