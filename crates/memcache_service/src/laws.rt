//! Laws of served requests. Each function does nothing: its contract is the law.
ghost use Rattle.memcache_service.specs.Serving.{AreServedAlike};

use crate::shelf::Shelf;

/// Requests that were served of some bytes are served alike with more bytes behind them, so it does not matter how the bytes of a moment
/// are cut.
pub fn cuts_serve_alike<T: Shelf>()
    ensures { AreServedAlike T.Shelf }
{}
