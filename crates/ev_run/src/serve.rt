//! Edges that carry frames as in a run, and answer clients at a control socket meanwhile.
#![tactic(auto, using(ether_wire::proofs::Appending::with_text_twice, ether_wire::proofs::Appending::with_text_none))]

ghost use Rattle.std.specs.Prelude.{◌≡◌, ◌^◌, string_bytes};
ghost use Rattle.ether_wire.specs.Ends.{IsOpen, Allows};
ghost use Rattle.ev_fabric.specs.Opening.{AreConfigs};
ghost use Rattle.ev_report.specs.Ends.{devices};
ghost use Rattle.ev_run.specs.Serving.{TellsListenError, ServesEdges};
ghost use Rattle.ev_run.specs.Inner.Serving.{listed_by};

use crate::clients::Service;
use crate::control_socket::{ControlSocket, ListenError, put_listen_error};
use crate::run::{RunContext, run_asked};
use crate::system::{Runtime, System};
use ether_wire::{In, Out};
use ev_config::{Config, ServedConfig};
use ev_exchange::Known;
use ev_report::Status;

/// Writes at which path nothing can listen, and returns the status.
fn tell_listen_error<N: Out>(path: &[u8], why: ListenError, notes: &mut N) -> Status
    requires { IsOpen (N.end notes.old) }
    ensures { TellsListenError path.now (N.end notes.old) (N.end notes.new) result }
{
    let _ = put_listen_error(notes, path, why);
    Status::Device
}

/// Returns the originators that each edge of the configuration lists.
fn listed_by(config: &Config) -> Known
    ensures { result ≡ listed_by config.now.edges.items }
{
    match config.edges.as_slice().first() {
        Some(edge) => Known::of(&edge.originators),
        None => Known::new(),
    }
}

/// Runs the edges of a configuration as `run_edges` does, and answers up to 8 clients at a time
/// meanwhile, which connect to a Unix stream socket at the configured path. The promises of the run
/// hold whatever clients do. The socket's file is only for its user, and is removed at the end.
///
/// If nothing can listen at the path, no edge begins, a line on `notes` has the reason, and the
/// status is 4.
pub fn serve_edges<R: Runtime, E: In, W: Out, N: Out + Send>(
    system: &System<'_, R>,
    served: ServedConfig,
    reader: &mut E,
    out: &mut W,
    notes: &mut N,
) -> Status
    requires config { AreConfigs served.config.edges.items }
    requires reader { Allows (2 ^ 40) (E.end reader.old) }
    requires out { IsOpen (W.end out.old) }
    requires notes { IsOpen (N.end notes.old) }
    ensures { ServesEdges system.now.policy (string_bytes served.control) served.config
        (devices (E.end reader.old) (W.end out.old) (N.end notes.old))
        (devices (E.end reader.new) (W.end out.new) (N.end notes.new)) result }
{
    let ServedConfig {
        config,
        control,
        idle,
        hold,
    } = served;
    let path = control.as_bytes();
    let rt = system.rt;
    let socket = match ControlSocket::open(rt, path) {
        Ok(socket) => socket,
        Err(why) => return tell_listen_error(path, why, notes),
    };
    let listed = listed_by(&config);
    let service = Service {
        socket,
        listed,
        idle,
        hold,
    };
    let host = RunContext::new(rt, system.alloc, Some(&service));
    let status = run_asked(&host, system.policy, config, reader, out, notes);
    service.socket.remove(rt, path);
    status
}
