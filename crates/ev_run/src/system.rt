//! The system on which edges run.

use crate::system_drops::UdpTable;
use crate::thread_check::ThreadPolicy;
use std::alloc::Global;
use std::fs::Files;
use std::net::Net;
use std::sync::Wait;
use std::thread::Threads;
use std::time::Clock;

/// The runtime on which edges run.
pub trait Runtime: Threads + Wait + Net + Files + UdpTable + Clock + Sync {}

impl<R: Threads + Wait + Net + Files + UdpTable + Clock + Sync> Runtime for R {}

/// The system on which edges run.
#[derive(Clone, Copy, Drop)]
pub struct System<'x, R> {
    /// The runtime, which waits, starts threads, and has sockets and a clock.
    pub rt: &'x R,
    /// The allocator.
    pub alloc: Global,
    /// What to do if the system refuses threads.
    pub policy: ThreadPolicy,
}
