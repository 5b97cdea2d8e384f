//! The incarnation of an edge whose configuration names none: the second of its start.
ghost use Rattle.std.specs.Prelude.{◌≡◌};
ghost use Rattle.std.specs.Bool.{OnFalse};
ghost use Rattle.ev_edge.specs.Config.{IsConfig};
ghost use Rattle.ev_run.specs.Links.{begun_of};

use ev_edge::EdgeConfig;
use std::thread;
use std::time::{Clock, Duration, SystemTime};

/// The number of nanoseconds in a second.
const SECOND: u32 = 1_000_000_000;

/// Returns the present second since 1970 after it is over, so that no later start has it. Returns 0
/// if the clock can't be read.
fn second_of_start<R: Clock>(rt: &R) -> u32 {
    let Ok(now) = SystemTime::now(rt) else {
        return 0;
    };
    let Ok(since) = now.duration_since(SystemTime::UNIX_EPOCH) else {
        return 0;
    };
    let rest = SECOND.saturating_sub(since.subsec_nanos());
    thread::sleep(rt, Duration::from_nanos(u64::from(rest)));
    u32::try_from(since.as_secs()).unwrap_or(u32::MAX)
}

/// Returns the incarnation of edges whose configuration names none: the second of their start if
/// clients may query them, since other processes may know an earlier life. Otherwise returns 0.
pub(crate) fn first_incarnation<R: Clock>(rt: &R, is_served: bool) -> u32
    ensures { OnFalse is_served (result ≡ 0) }
{
    if is_served { second_of_start(rt) } else { 0 }
}

/// Returns the configuration of an edge, with this incarnation if it names none.
pub(crate) fn begun_in(config: EdgeConfig, incarnation: u32) -> EdgeConfig
    requires { IsConfig config }
    ensures lawful { IsConfig result }
    ensures begun { result ≡ begun_of incarnation config }
{
    let mut config = config;
    if config.incarnation == 0 {
        config.incarnation = incarnation;
    }
    config
}
