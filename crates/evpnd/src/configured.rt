//! The configuration in a file, and the message if there is none.
#![tactic(auto, using(ether_wire::proofs::Appending::with_text_twice, ether_wire::proofs::Appending::with_text_none))]

ghost use Rattle.std.specs.Prelude.{◌++◌, IfOk};
ghost use Rattle.ether_wire.specs.Ends.{End, Source, IsOpen, Puts};
ghost use Rattle.ev_config.specs.Config.{ConfigOf, ServedOf};
ghost use Rattle.ev_fabric.specs.Opening.{AreConfigs};
ghost use Rattle.evpnd.specs.Files.{Text, HasRoom};
ghost use Rattle.ev_report.specs.Usage.{IsTold};
ghost use Rattle.ev_report.specs.Ends.{devices};
ghost use Rattle.ev_config.specs.declared.whole.Use.TheVariants.{Serve};
ghost use Rattle.ev_config.specs.Told.{AreFaultLines};
ghost use Rattle.evpnd.specs.Configured.{config_text, Refuses};
ghost use Rattle.evpnd.specs.Inner.Configured.{use_for, TextGives, FileGives};

use crate::files::{Files, Named, text_at};
use ether_wire::{Device, Out};
use ev_config::{
    Config, ConfigRefusal, ServedConfig, Use, config_of, put_refusal, served_config_of,
};
use ev_report::{Status, usage_status};
use std::alloc::Global;

/// Writes `config KEY`.
fn put_key<N: Out>(notes: &mut N, key: &[u8]) -> Result<(), Device>
    ensures { Puts (N.end notes.old) (N.end notes.new) (config_text key.now) result }
{
    notes.put(b"config ")?;
    notes.put(key)?;
    notes.put(b"\n")
}

/// A text that is no configuration for a use.
#[derive(Clone, Copy)]
struct RefusedText<'a> {
    alloc: Global,
    wanted: Use,
    text: &'a str,
}

/// Writes `config KEY`, and then a line for each fault, as `evpnd check` writes them.
fn put_faults<N: Out>(refused: RefusedText<'_>, key: &str, notes: &mut N) -> Result<(), Device>
    ensures { (more : Text) × AreFaultLines refused.entry.wanted refused.entry.text.now more
        × Puts (N.end notes.old) (N.end notes.new) (config_text key.now ++ more) result }
{
    put_key(notes, key.as_bytes())?;
    put_refusal(
        notes,
        refused.alloc,
        refused.wanted,
        refused.text,
        Some(key),
    )
}

/// Reports which key of a configuration is faulty, and its faults, and returns the status.
fn tell_key<N: Out>(refused: RefusedText<'_>, key: &str, notes: &mut N) -> Status
    requires { IsOpen (N.end notes.old) }
    ensures { (more : Text) × AreFaultLines refused.entry.wanted refused.entry.text.now more
        × IsTold (config_text key.now ++ more) (N.end notes.old) (N.end notes.new) result }
{
    usage_status(put_faults(refused, key, notes))
}

/// Reports why a text is no configuration, and returns the status.
fn tell_refusal<N: Out>(refused: RefusedText<'_>, refusal: &ConfigRefusal, notes: &mut N) -> Status
    requires { IsOpen (N.end notes.old) }
    ensures { (input : Source) → (out : End) → Refuses refused.entry.wanted
        refused.entry.text.now refusal.now (devices input out (N.end notes.old))
        (devices input out (N.end notes.new)) result }
{
    match refusal {
        ConfigRefusal::NoMemory => Status::Memory,
        ConfigRefusal::Text => tell_key(refused, "text", notes),
        ConfigRefusal::Key(key) => tell_key(refused, key.as_str(), notes),
    }
}

/// Returns the configuration of a text, or the status if it has none, after a report.
fn configured_by<N: Out>(
    alloc: Global,
    text: &str,
    for_run: bool,
    notes: &mut N,
) -> Result<Config, Status>
    requires { IsOpen (N.end notes.old) }
    ensures value { TextGives (use_for for_run) (ConfigOf for_run) text.now (N.end notes.old)
        (N.end notes.new) result }
    ensures opens { IfOk result (λ c. AreConfigs c.edges.items) }
{
    match config_of(alloc, text, for_run) {
        Ok(config) => Ok(config),
        Err(refusal) => {
            let wanted = if for_run { Use::Run } else { Use::Any };
            let refused = RefusedText {
                alloc,
                wanted,
                text,
            };
            Err(tell_refusal(refused, &refusal, notes))
        }
    }
}

/// Returns the configuration of a text for edges that answer queries while they run, or the status
/// if it has none, after a report.
fn served_by<N: Out>(alloc: Global, text: &str, notes: &mut N) -> Result<ServedConfig, Status>
    requires { IsOpen (N.end notes.old) }
    ensures value { TextGives Serve ServedOf text.now (N.end notes.old) (N.end notes.new) result }
    ensures opens { IfOk result (λ s. AreConfigs s.config.edges.items) }
{
    match served_config_of(alloc, text) {
        Ok(served) => Ok(served),
        Err(refusal) => {
            let refused = RefusedText {
                alloc,
                wanted: Use::Serve,
                text,
            };
            Err(tell_refusal(refused, &refusal, notes))
        }
    }
}

/// Returns the configuration in the file at a path; for a run each port needs its endpoints.
///
/// # Errors
///
/// The status, if memory is refused, if the file can't be read, or if its text is no configuration.
/// The last two are reported, the latter by its first faulty key and a line for each fault.
pub(crate) fn configured<F: Files, N: Out>(
    alloc: Global,
    files: &mut F,
    path: &str,
    for_run: bool,
    notes: &mut N,
) -> Result<Config, Status>
    requires files { HasRoom (F.shelf files.old) }
    requires notes { IsOpen (N.end notes.old) }
    ensures value { FileGives (use_for for_run) (ConfigOf for_run) path.now (F.shelf files.old)
        (F.shelf files.new) (N.end notes.old) (N.end notes.new) result }
    ensures opens { IfOk result (λ c. AreConfigs c.edges.items) }
{
    match text_at(files, Named::Config, path, notes) {
        Ok(text) => configured_by(alloc, text.as_str(), for_run, notes),
        Err(status) => Err(status),
    }
}

/// Returns the configuration in the file at a path for edges that answer queries while they run.
///
/// # Errors
///
/// As for `configured`.
pub(crate) fn served<F: Files, N: Out>(
    alloc: Global,
    files: &mut F,
    path: &str,
    notes: &mut N,
) -> Result<ServedConfig, Status>
    requires files { HasRoom (F.shelf files.old) }
    requires notes { IsOpen (N.end notes.old) }
    ensures value { FileGives Serve ServedOf path.now (F.shelf files.old) (F.shelf files.new)
        (N.end notes.old) (N.end notes.new) result }
    ensures opens { IfOk result (λ s. AreConfigs s.config.edges.items) }
{
    match text_at(files, Named::Config, path, notes) {
        Ok(text) => served_by(alloc, text.as_str(), notes),
        Err(status) => Err(status),
    }
}
