//! `evpnd simulate` and `evpnd play`: a script on the edges of a configuration.
ghost use Rattle.std.specs.Prelude.{false};
ghost use Rattle.ev_report.specs.Ends.{AreOpen};
ghost use Rattle.ev_config.specs.Config.{ConfigOf};
ghost use Rattle.evpnd.specs.Files.{HasRoom};
ghost use Rattle.evpnd.specs.Checks.{desk, OfFile};
ghost use Rattle.evpnd.specs.Used.{SimulatesFound};

use crate::configured::configured;
use crate::files::Files;
use ether_wire::{In, Out};
use ev_report::{Buffers, Devices, Status};
use ev_script::{Mode, simulate_run};
use std::alloc::Global;

/// Runs a script on the edges that the file at a path configures.
pub(crate) fn simulate<F: Files, R: In, W: Out, N: Out>(
    alloc: Global,
    mode: Mode,
    files: &mut F,
    path: &str,
    devices: Devices<R, W, N>,
) -> (Status, Devices<R, W, N>)
    requires files { HasRoom (F.shelf files.old) }
    requires devices { AreOpen devices }
    ensures { OfFile (ConfigOf false) (SimulatesFound mode) path.now
        (desk (F.shelf files.old) devices) (desk (F.shelf files.new) result.1) result.0 }
{
    let mut devices = devices;
    match configured(alloc, files, path, false, &mut devices.notes) {
        Ok(config) => {
            let mut all = Buffers::new(devices);
            let status = simulate_run(
                alloc,
                mode,
                config.edges,
                &mut all.reader,
                &mut all.out,
                &mut all.notes,
            );
            all.finish(status)
        }
        Err(status) => (status, devices),
    }
}
