//! The system that the program runs on.

use crate::streams::Stream;
use ev_run::ProcessLimits;
use std::alloc::Global;

/// The standard streams and the limits of the process when the program begins.
#[derive(Clone, Copy, Debug)]
pub(crate) struct Descriptors {
    /// The first standard stream that is closed, if one is.
    pub(crate) closed: Option<Stream>,
    /// The limits, as far as they are known.
    pub(crate) limits: ProcessLimits,
}

/// The system's resources.
#[derive(Drop)]
pub(crate) struct Host<'a, H> {
    /// Threads, sockets and the clock, only for `evpnd run` and `evpnd serve`.
    pub(crate) rt: &'a H,
    /// Memory.
    pub(crate) alloc: Global,
    /// Its descriptors and limits.
    pub(crate) descriptors: Descriptors,
}
