//! `evpnd check`: checks whether a configuration is valid.
#![tactic(auto, using(ether_wire::proofs::Appending::with_text_twice, ether_wire::proofs::Appending::with_text_none, crate::proofs::Telling::sums_put))]

ghost use Rattle.std.specs.Prelude.{◌≡◌, is_ok, if◌then◌else◌, option_map};
ghost use Rattle.ether_wire.specs.Ends.{Source, IsOpen, Puts};
ghost use Rattle.ev_report.specs.Ends.{devices};
ghost use Rattle.ev_config.specs.Config.{ConfigFor};
ghost use Rattle.evpnd.specs.Files.{HasRoom};
ghost use Rattle.ev_report.specs.Usage.{IsTold};
ghost use Rattle.ev_config.specs.Summary.{summary_text};
ghost use Rattle.ev_run.specs.Obstacles.{obstacles_of, obstacles_text};
ghost use Rattle.evpnd.specs.Checks.{desk, OfFile, Sums, run_text, TellsFaults, TellsObstacles, SumsRun, SumsFor, Checks};
ghost use Rattle.evpnd.specs.Inner.Checks.{ChecksText};
ghost use Rattle.evpnd.specs.Scripts.{ChecksAll};
ghost use Rattle.ev_report.specs.declared.status.Status.TheVariants as statuses;

use crate::check_script::check_script;
use crate::files::{Files, Named, text_at};
use ether_wire::{Device, Out};
use ev_config::{Config, ConfigRefusal, Use, config_for, put_refusal, put_summary};
use ev_report::{Status, usage_status};
use ev_run::{Obstacle, ProcessLimits, needs_of, obstacles_of, put_asked_needs, put_obstacles};
use std::alloc::Global;

/// The purpose of a check.
#[derive(Clone, Copy, Debug)]
pub(crate) struct Purpose {
    /// The use of the configuration.
    pub(crate) wanted: Use,
    /// The limits of a run, as far as they are known.
    pub(crate) limits: ProcessLimits,
}

/// The subject of a check.
#[derive(Clone, Copy, Debug)]
pub(crate) struct CheckTarget<'a> {
    /// The path of a configuration.
    pub(crate) path: &'a str,
    /// The path of a script, if there is one.
    pub(crate) script: Option<&'a str>,
    /// The purpose of the check.
    pub(crate) purpose: Purpose,
}

/// Returns the status, by whether the output could be written.
pub(crate) fn done_status(written: Result<(), Device>) -> Status
    ensures { result ≡ (if is_ok written then statuses.Done else statuses.Device) }
{
    match written {
        Ok(()) => Status::Done,
        Err(Device) => Status::Device,
    }
}

/// Writes the summary of a configuration.
fn sum_up<W: Out>(config: &Config, out: &mut W) -> Status
    requires { IsOpen (W.end out.old) }
    ensures { Sums (summary_text config.now.edges.items) (W.end out.old) (W.end out.new) result }
{
    done_status(put_summary(out, config))
}

/// Writes the summary of a configuration, and the resources of its run.
fn put_sums<W: Out>(config: &Config, is_asked: bool, out: &mut W) -> Result<(), Device>
    ensures { Puts (W.end out.old) (W.end out.new)
        (run_text is_asked config.now) result }
{
    put_summary(out, config)?;
    put_asked_needs(out, needs_of(config), is_asked)
}

/// Writes the summary of a configuration, and the resources of its run, and returns the status.
fn sum_up_run<W: Out>(config: &Config, is_asked: bool, out: &mut W) -> Status
    requires { IsOpen (W.end out.old) }
    ensures { Sums (run_text is_asked config.now) (W.end out.old) (W.end out.new)
        result }
{
    done_status(put_sums(config, is_asked, out))
}

/// Reports the obstacles to a run.
fn tell_obstacles<N: Out>(found: &[Obstacle], notes: &mut N) -> Status
    requires { IsOpen (N.end notes.old) }
    ensures { IsTold (obstacles_text found.now) (N.end notes.old) (N.end notes.new) result }
{
    usage_status(put_obstacles(notes, found))
}

/// Writes the summary and the resources of a run without obstacles, or reports the obstacles.
fn tell_run<W: Out, N: Out>(
    config: &Config,
    is_asked: bool,
    found: &[Obstacle],
    out: &mut W,
    notes: &mut N,
) -> Status
    requires out { IsOpen (W.end out.old) }
    requires notes { IsOpen (N.end notes.old) }
    ensures { TellsObstacles found.now (run_text is_asked config.now)
        (W.end out.old) (W.end out.new) (N.end notes.old) (N.end notes.new) result }
{
    match found {
        [] => sum_up_run(config, is_asked, out),
        _ => tell_obstacles(found, notes),
    }
}

/// The kind of run that a check covers.
#[derive(Clone, Copy)]
struct Run {
    /// Whether clients may query the edges meanwhile.
    is_asked: bool,
    /// The limits, as far as they are known.
    limits: ProcessLimits,
}

/// Writes the resources of a configuration's run, or reports its obstacles.
fn sum_up_or_tell<W: Out, N: Out>(
    alloc: Global,
    run: Run,
    config: &Config,
    out: &mut W,
    notes: &mut N,
) -> Status
    requires out { IsOpen (W.end out.old) }
    requires notes { IsOpen (N.end notes.old) }
    ensures { SumsRun run.is_asked run.limits config.now (W.end out.old) (W.end out.new)
        (N.end notes.old) (N.end notes.new) result }
{
    match obstacles_of(alloc, config, run.is_asked, run.limits) {
        Ok(found) => tell_run(config, run.is_asked, found.as_slice(), out, notes),
        Err(_) => Status::Memory,
    }
}

/// Writes the summary of a configuration, and for a run its resources, or reports its obstacles.
fn sum_up_for<W: Out, N: Out>(
    alloc: Global,
    purpose: Purpose,
    config: &Config,
    out: &mut W,
    notes: &mut N,
) -> Status
    requires out { IsOpen (W.end out.old) }
    requires notes { IsOpen (N.end notes.old) }
    ensures { SumsFor purpose.wanted purpose.limits config.now (W.end out.old) (W.end out.new)
        (N.end notes.old) (N.end notes.new) result }
{
    let limits = purpose.limits;
    match purpose.wanted {
        Use::Any => sum_up(config, out),
        Use::Run => {
            let is_asked = false;
            sum_up_or_tell(alloc, Run { is_asked, limits }, config, out, notes)
        }
        Use::Serve => {
            let is_asked = true;
            sum_up_or_tell(alloc, Run { is_asked, limits }, config, out, notes)
        }
    }
}

/// Reports why a text is no configuration.
fn tell_refusal<N: Out>(
    alloc: Global,
    wanted: Use,
    text: &str,
    key: Option<&str>,
    notes: &mut N,
) -> Status
    requires { IsOpen (N.end notes.old) }
    ensures { TellsFaults wanted text.now (N.end notes.old) (N.end notes.new) result }
{
    usage_status(put_refusal(notes, alloc, wanted, text, key))
}

/// Checks a text.
fn check_text<W: Out, N: Out>(
    alloc: Global,
    purpose: Purpose,
    text: &str,
    out: &mut W,
    notes: &mut N,
) -> Status
    requires out { IsOpen (W.end out.old) }
    requires notes { IsOpen (N.end notes.old) }
    ensures { ChecksText purpose text.now (W.end out.old) (N.end notes.old) (W.end out.new)
        (N.end notes.new) result }
{
    match config_for(alloc, text, purpose.wanted) {
        Ok(config) => sum_up_for(alloc, purpose, &config, out, notes),
        Err(ConfigRefusal::NoMemory) => Status::Memory,
        Err(ConfigRefusal::Text) => tell_refusal(alloc, purpose.wanted, text, None, notes),
        Err(ConfigRefusal::Key(key)) => {
            tell_refusal(alloc, purpose.wanted, text, Some(key.as_str()), notes)
        }
    }
}

/// Checks the configuration in a file.
fn check<F: Files, W: Out, N: Out>(
    alloc: Global,
    files: &mut F,
    wanted: CheckTarget<'_>,
    out: &mut W,
    notes: &mut N,
) -> Status
    requires files { HasRoom (F.shelf files.old) }
    requires out { IsOpen (W.end out.old) }
    requires notes { IsOpen (N.end notes.old) }
    ensures { (input : Source) → OfFile (ConfigFor wanted.entry.purpose.wanted)
        (Checks wanted.entry.purpose) wanted.entry.path.now
        (desk (F.shelf files.old) (devices input (W.end out.old) (N.end notes.old)))
        (desk (F.shelf files.new) (devices input (W.end out.new) (N.end notes.new))) result }
{
    match text_at(files, Named::Config, wanted.path, notes) {
        Ok(text) => check_text(alloc, wanted.purpose, text.as_str(), out, notes),
        Err(status) => status,
    }
}

/// Checks the configuration in a file, and if the status is 0 the script in another file, if there
/// is one.
pub(crate) fn check_all<F: Files, W: Out, N: Out>(
    alloc: Global,
    files: &mut F,
    wanted: CheckTarget<'_>,
    out: &mut W,
    notes: &mut N,
) -> Status
    requires files { HasRoom (F.shelf files.old) }
    requires out { IsOpen (W.end out.old) }
    requires notes { IsOpen (N.end notes.old) }
    ensures { (input : Source) → ChecksAll wanted.entry.purpose wanted.entry.path.now
        (option_map (λ s. s.now) wanted.entry.script)
        (desk (F.shelf files.old) (devices input (W.end out.old) (N.end notes.old)))
        (desk (F.shelf files.new) (devices input (W.end out.new) (N.end notes.new))) result }
{
    let status = check(alloc, files, wanted, out, notes);
    match wanted.script {
        None => status,
        Some(script) if status.is_done() => check_script(files, script, out, notes),
        Some(_) => status,
    }
}
