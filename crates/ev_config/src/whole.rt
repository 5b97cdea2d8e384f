//! The content of a whole document.
ghost use Rattle.std.specs.Prelude.{◌≡◌, ◌≤◌, vec_len};

use crate::endpoint::PortEndpoints;
use arrayvec::ArrayVec;
use ev_edge::EdgeConfig;

/// The edges of a document, in its order.
#[derive(Drop)]
pub struct Config {
    /// The configuration of each edge at its opening. Each lists all edges.
    pub edges: Vec<EdgeConfig>,
    /// For each edge, the endpoints or the device of each of its ports.
    pub links: Vec<ArrayVec<PortEndpoints, 64>>,
    ghost each: { vec_len links ≡ vec_len edges },
    ghost few: { vec_len edges ≤ 64 },
}

/// The purpose of a configuration.
#[derive(Clone, Copy, Debug, PartialEq, Eq)]
pub enum Use {
    /// Anything: ports may lack their endpoints, and have no device.
    Any,
    /// A run.
    Run,
    /// A run whose edges answer queries meanwhile.
    Serve,
}

/// The content of a document for edges that answer queries while they run.
#[derive(Drop)]
pub struct ServedConfig {
    /// The edges.
    pub config: Config,
    /// The path of the Unix control socket.
    pub control: String,
    /// The number of seconds after which a console is ended that sends nothing, 1 to 86,400.
    pub idle: u64,
    /// The number of seconds without a session after which an edge elsewhere is away, 1 to 86,400;
    /// with 0 none ever is.
    pub hold: u64,
}
