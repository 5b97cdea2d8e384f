//! `evpnd serve`: runs the edges of a configuration over sockets, and answers queries meanwhile.
ghost use Rattle.ev_config.specs.Config.{ServedOf};
ghost use Rattle.evpnd.specs.Files.{HasRoom};
ghost use Rattle.ev_report.specs.Ends.{AreOpen};
ghost use Rattle.evpnd.specs.Checks.{desk, OfFile};
ghost use Rattle.evpnd.specs.Used.{ServesFound};

use crate::configured::served;
use crate::files::Files;
use ether_wire::{In, Out};
use ev_report::{Buffers, Devices, Status};
use ev_run::{Runtime, System, serve_edges};

/// Runs the edges that the file at a path configures. They answer queries meanwhile.
pub(crate) fn serve_file<H: Runtime, F: Files, R: In, W: Out, N: Out + Send>(
    system: &System<'_, H>,
    files: &mut F,
    path: &str,
    devices: Devices<R, W, N>,
) -> (Status, Devices<R, W, N>)
    requires files { HasRoom (F.shelf files.old) }
    requires devices { AreOpen devices }
    ensures { OfFile ServedOf (ServesFound system.now.policy) path.now
        (desk (F.shelf files.old) devices) (desk (F.shelf files.new) result.1) result.0 }
{
    let mut devices = devices;
    match served(system.alloc, files, path, &mut devices.notes) {
        Ok(found) => {
            let mut all = Buffers::new(devices);
            let status = serve_edges(system, found, &mut all.reader, &mut all.out, &mut all.notes);
            all.finish(status)
        }
        Err(status) => (status, devices),
    }
}
