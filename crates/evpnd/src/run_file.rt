//! `evpnd run`: the edges of a configuration, over sockets.
ghost use Rattle.std.specs.Prelude.{true};
ghost use Rattle.ev_config.specs.Config.{ConfigOf};
ghost use Rattle.evpnd.specs.Files.{HasRoom};
ghost use Rattle.ev_report.specs.Ends.{AreOpen};
ghost use Rattle.evpnd.specs.Checks.{desk, OfFile};
ghost use Rattle.evpnd.specs.Used.{RunsFound};

use crate::configured::configured;
use crate::files::Files;
use ether_wire::{In, Out};
use ev_report::{Buffers, Devices, Status};
use ev_run::{Runtime, System, run_edges};

/// Runs the edges that the file at a path configures.
pub(crate) fn run_file<H: Runtime, F: Files, R: In, W: Out, N: Out + Send>(
    system: &System<'_, H>,
    files: &mut F,
    path: &str,
    devices: Devices<R, W, N>,
) -> (Status, Devices<R, W, N>)
    requires files { HasRoom (F.shelf files.old) }
    requires devices { AreOpen devices }
    ensures { OfFile (ConfigOf true) (RunsFound system.now.policy) path.now
        (desk (F.shelf files.old) devices) (desk (F.shelf files.new) result.1) result.0 }
{
    let mut devices = devices;
    match configured(system.alloc, files, path, true, &mut devices.notes) {
        Ok(config) => {
            let mut all = Buffers::new(devices);
            let status = run_edges(
                system,
                config,
                &mut all.reader,
                &mut all.out,
                &mut all.notes,
            );
            all.finish(status)
        }
        Err(status) => (status, devices),
    }
}
