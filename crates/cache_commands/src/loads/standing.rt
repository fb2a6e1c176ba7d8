//! What a connection does with its first unread line.
ghost use Rattle.std.specs.Prelude.{◌≡◌};
ghost use Rattle.cache_commands.specs.Loads.Standings.{holds_line, waits_for_load};

/// Whether a connection runs lines, or waits before its first unread line.
#[derive(Clone, Copy, Debug, PartialEq, Eq, Drop)]
pub enum Standing {
    /// The connection runs lines.
    Ready,
    /// The connection's first unread line is a command for which there was not enough memory.
    Held,
    /// The connection's first unread line is a `LOAD`, whose load is under way.
    Waiting,
}

/// Returns whether a line is held back.
pub fn is_holding(standing: Standing) -> bool
    ensures { result ≡ holds_line standing }
{
    matches!(standing, Standing::Held)
}

/// Returns whether a `LOAD` waits.
pub fn is_waiting(standing: Standing) -> bool
    ensures { result ≡ waits_for_load standing }
{
    matches!(standing, Standing::Waiting)
}
