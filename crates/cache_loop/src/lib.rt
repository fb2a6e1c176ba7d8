//! Connections of a namespace, served by a thread that waits for all their sockets at once.
#![tactic(auto)]

mod apart;
mod asker;
mod counts;
mod doorway;
mod farewells;
mod hall;
mod lines;
mod loading;
mod looping;
mod nobody;
mod replies;
mod served;
mod steward;

pub use apart::Apart;
pub use asker::{Asked, Asker, Here, Pool};
pub use counts::{Counts, Departures, TURN_BOUNDS};
pub use doorway::{Doorway, Dropped, Stream};
pub use lines::{HeardLink, LineSteward};
pub use loading::Loading;
pub use looping::{Crew, LOADED, Rules, STOP, serve_by};
pub use replies::Found;
pub use steward::Steward;
