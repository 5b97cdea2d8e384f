//! The texts of files.
#![tactic(auto, using(ether_wire::proofs::Appending::with_text_twice, ether_wire::proofs::Appending::with_text_none))]

ghost use Rattle.std.specs.Prelude.{◌≡◌, ◌≢◌, None, IfOk, IfErr, string_bytes};
ghost use Rattle.ether_wire.specs.Ends.{End, Source, IsOpen, Puts};
ghost use Rattle.ev_report.specs.Ends.{devices};
ghost use Rattle.evpnd.specs.Files.{Shelf, HasRoom, IsTextOf, GivesText, reason_of, lead_of, unread_text};
ghost use Rattle.evpnd.specs.Inner.Files.{shelf_of};
ghost use Rattle.evpnd.specs.Checks.{desk, IsTextless};
ghost use Rattle.ev_report.specs.declared.status.Status.TheVariants as statuses;

use ether_wire::{Device, Out};
use ev_report::Status;
use std::{fs, io};

/// Why a file can't be read.
#[derive(Clone, Copy, Debug, PartialEq, Eq)]
pub(crate) enum Unread {
    /// There is none at this path.
    Missing,
    /// The system refuses it to this user.
    Denied,
    /// It is a directory.
    Directory,
    /// It is a device, a pipe or a socket: it may have no end.
    Irregular,
    /// Its content isn't UTF-8.
    NotText,
    /// Anything else.
    Broken,
}

/// The option that names a file.
#[derive(Clone, Copy)]
pub(crate) enum Named {
    /// `--config`
    Config,
    /// `--script`
    Script,
}

/// Why there is no text of a file.
#[derive(Clone, Copy, Debug, PartialEq, Eq)]
pub(crate) enum FileFault {
    /// There was no memory for it.
    NoMemory,
    /// It can't be read.
    Unread(Unread),
}

/// A source of the texts of files. It may be refused memory.
pub(crate) trait Files {
    /// The text of each file, if known, how often memory was refused, and how often a file had no
    /// text.
    ghost shelf: { Self → Shelf };

    /// Returns the text of the file at a path.
    ///
    /// # Errors
    ///
    /// `NoMemory` exactly if memory was refused once more; `Unread` exactly if a file had no text
    /// once more.
    fn text_of(&mut self, path: &str) -> Result<String, FileFault>
        requires { HasRoom (shelf self.old) }
        ensures { GivesText (shelf self.old) (shelf self.new) path.now result };
}

/// The files of the system, whose content contracts don't know.
#[derive(Drop)]
pub(crate) struct SystemFiles<'a> {
    rt: &'a HostRuntime,
    refusals: u64,
    failures: u64,
}

impl<'a> SystemFiles<'a> {
    /// Returns the files of the system, none of which was read yet.
    pub(crate) fn new(rt: &'a HostRuntime) -> Self
        ensures refusals { result.refusals ≡ 0 }
        ensures failures { result.failures ≡ 0 }
    {
        SystemFiles {
            rt,
            refusals: 0,
            failures: 0,
        }
    }
}

/// Returns the cause of an error of the system on a file.
fn fault_of(kind: io::ErrorKind) -> FileFault {
    match kind {
        io::ErrorKind::OutOfMemory => FileFault::NoMemory,
        io::ErrorKind::NotFound => FileFault::Unread(Unread::Missing),
        io::ErrorKind::PermissionDenied => FileFault::Unread(Unread::Denied),
        io::ErrorKind::IsADirectory => FileFault::Unread(Unread::Directory),
        io::ErrorKind::InvalidData => FileFault::Unread(Unread::NotText),
        _ => FileFault::Unread(Unread::Broken),
    }
}

/// Returns the text of a file. Reads it only if it is a regular one: a device may have no end.
fn read_regular(rt: &HostRuntime, path: &str) -> Result<String, FileFault> {
    let found = match fs::metadata(rt, path) {
        Ok(found) => found,
        Err(error) => return Err(fault_of(error.kind())),
    };
    if found.is_dir() {
        return Err(FileFault::Unread(Unread::Directory));
    }
    if !found.is_file() {
        return Err(FileFault::Unread(Unread::Irregular));
    }
    match fs::read_to_string(rt, path) {
        Ok(text) => Ok(text),
        Err(error) => Err(fault_of(error.kind())),
    }
}

impl Files for SystemFiles<'_> {
    ghost shelf = { λ f. shelf_of None f.refusals f.failures };

    fn text_of(&mut self, path: &str) -> Result<String, FileFault> {
        match read_regular(self.rt, path) {
            Ok(text) => Ok(text),
            Err(fault) => {
                match fault {
                    FileFault::NoMemory => self.refusals += 1,
                    FileFault::Unread(_) => self.failures += 1,
                }
                Err(fault)
            }
        }
    }
}

impl Unread {
    /// Returns the text after the path in the message.
    fn reason(self) -> &'static [u8]
        ensures { result.now ≡ reason_of self }
    {
        match self {
            Unread::Missing => b"' isn't there\n",
            Unread::Denied => b"' may not be read\n",
            Unread::Directory => b"' is a directory\n",
            Unread::Irregular => b"' isn't a regular file\n",
            Unread::NotText => b"' isn't UTF-8\n",
            Unread::Broken => b"' couldn't be read\n",
        }
    }
}

impl Named {
    /// Returns the text before the path in the message.
    fn lead(self) -> &'static [u8]
        ensures { result.now ≡ lead_of self }
    {
        match self {
            Named::Config => b"error: --config: '",
            Named::Script => b"error: --script: '",
        }
    }
}

/// Writes which file can't be read, and why.
pub(crate) fn put_unread<N: Out>(
    notes: &mut N,
    named: Named,
    path: &[u8],
    why: Unread,
) -> Result<(), Device>
    ensures { Puts (N.end notes.old) (N.end notes.new) (unread_text named path.now why) result }
{
    notes.put(named.lead())?;
    notes.put(path)?;
    notes.put(why.reason())
}

/// Returns the status of a file without a text, after a report.
fn unread_status(told: Result<(), Device>) -> Status
    ensures { result ≡ statuses.Device }
{
    match told {
        Ok(()) | Err(Device) => Status::Device,
    }
}

/// Returns the text of the file at the path that an option names.
///
/// # Errors
///
/// The status, if memory is refused, or if the file can't be read, which is reported.
pub(crate) fn text_at<F: Files, N: Out>(
    files: &mut F,
    named: Named,
    path: &str,
    notes: &mut N,
) -> Result<String, Status>
    requires files { HasRoom (F.shelf files.old) }
    requires notes { IsOpen (N.end notes.old) }
    ensures has { IfOk result (λ text. (F.shelf files.new ≡ F.shelf files.old)
        × (N.end notes.new ≡ N.end notes.old)
        × IsTextOf (F.shelf files.old) path.now (string_bytes text)) }
    ensures none { IfErr result (λ status. (input : Source) → (out : End) →
        IsTextless named path.now
        (desk (F.shelf files.old) (devices input out (N.end notes.old)))
        (desk (F.shelf files.new) (devices input out (N.end notes.new))) status) }
{
    match files.text_of(path) {
        Ok(text) => Ok(text),
        Err(FileFault::NoMemory) => Err(Status::Memory),
        Err(FileFault::Unread(why)) => {
            let told = put_unread(notes, named, path.as_bytes(), why);
            Err(unread_status(told))
        }
    }
}
