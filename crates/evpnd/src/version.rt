//! `evpnd version`.
#![tactic(auto, using(ether_wire::proofs::Appending::with_text_twice, ether_wire::proofs::Appending::with_text_none))]

ghost use Rattle.ev_report.specs.Ends.{AreOpen};
ghost use Rattle.evpnd.specs.Version.{TellsVersion};

use crate::check::done_status;
use ether_wire::{In, Out};
use ev_report::{Devices, Status};

/// Writes the version on the output, the newest that CHANGELOG.md has, and whether the program is
/// proved. `rt run` builds a program only if it is proved. tools/try builds it without a proof,
/// from a copy of this file in which the second line is `unproved`.
pub(crate) fn version<R: In, W: Out, N: Out>(
    devices: Devices<R, W, N>,
) -> (Status, Devices<R, W, N>)
    requires { AreOpen devices }
    ensures { TellsVersion devices result.1 result.0 }
{
    let mut devices = devices;
    let written = devices.out.put(b"evpnd 0.1.0\nproved\n");
    (done_status(written), devices)
}
