//! The control socket, at which clients query the edges while they run: a Unix stream socket at a
//! path, only for its user.
ghost use Rattle.std.specs.Prelude.{◌≡◌};
ghost use Rattle.ether_wire.specs.Ends.{Puts};
ghost use Rattle.std.specs.Fs.{permissions_mode};
ghost use Rattle.ev_run.specs.Inner.ControlSocket.{what_to_do, Follows, socket_mode};
ghost use Rattle.ev_run.specs.Serving.{reason_of, listen_error_text};

use ether_wire::{Device, Out};
use std::fs::{Files, Permissions};
use std::io::ErrorKind;
use std::net::{Net, Shutdown};
use std::os::fd::{AsFd, AsRawFd, OwnedFd};
use std::os::unix::fs::{FileTypeExt, MetadataExt, PermissionsExt};
use std::os::unix::net::{SocketAddr, UnixListener, UnixStream};
use std::{fs, io};

/// The number of clients that may wait to be accepted: as many as the system allows.
const BACKLOG: i32 = -1;

/// The reason why nothing can listen at a path.
#[derive(Clone, Copy, Debug, PartialEq, Eq)]
pub enum ListenError {
    /// A process listens there.
    InUse,
    /// The file there is no socket.
    NotSocket,
    /// The path leads into a folder that doesn't exist.
    NoFolder,
    /// The path is longer than a socket's path may be: 107 octets.
    TooLong,
    /// This user isn't permitted to listen there.
    Denied,
    /// The system has no memory for the socket.
    NoMemory,
    /// This process has as many descriptors as it is allowed.
    NoDescriptor,
    /// Any other reason.
    Other,
}

/// Returns the reason that an error of the system means for a path.
fn listen_error_of(error: &io::Error) -> ListenError {
    match error.kind() {
        ErrorKind::AddrInUse => ListenError::InUse,
        ErrorKind::NotFound => ListenError::NoFolder,
        ErrorKind::NotADirectory => ListenError::NoFolder,
        ErrorKind::InvalidInput => ListenError::TooLong,
        ErrorKind::PermissionDenied => ListenError::Denied,
        ErrorKind::OutOfMemory => ListenError::NoMemory,
        _ if error.raw_os_error() == Some(libc::EMFILE) => ListenError::NoDescriptor,
        _ => ListenError::Other,
    }
}

/// Returns the value that the system gave, or the reason that its error means for a path.
fn explained<T: Drop>(given: io::Result<T>) -> Result<T, ListenError> {
    match given {
        Ok(value) => Ok(value),
        Err(error) => Err(listen_error_of(&error)),
    }
}

impl ListenError {
    /// Returns the text of the reason, which follows the path in a message.
    fn reason(self) -> &'static [u8]
        ensures { result.now ≡ reason_of self }
    {
        match self {
            ListenError::InUse => b"it is in use\n",
            ListenError::NotSocket => b"it is a file that is no socket\n",
            ListenError::NoFolder => b"there is no such folder\n",
            ListenError::TooLong => b"it is too long\n",
            ListenError::Denied => b"it isn't permitted\n",
            ListenError::NoMemory => b"there is no memory\n",
            ListenError::NoDescriptor => b"too many files are open; raise ulimit -n\n",
            ListenError::Other => b"the system refuses it\n",
        }
    }
}

/// Writes at which path nothing can listen, and why.
pub(crate) fn put_listen_error<N: Out>(
    notes: &mut N,
    path: &[u8],
    why: ListenError,
) -> Result<(), Device>
    ensures { Puts (N.end notes.old) (N.end notes.new) (listen_error_text path.now why) result }
{
    notes.put(b"can't listen at ")?;
    notes.put(path)?;
    notes.put(b": ")?;
    notes.put(why.reason())
}

/// Returns the device and inode numbers of the file at a path, if there is one.
fn file_at<R: Files>(rt: &R, path: &str) -> Option<(u64, u64)> {
    let found = fs::symlink_metadata(rt, path).ok()?;
    Some((found.dev(), found.ino()))
}

/// What is at the path of a control socket.
#[derive(Clone, Copy)]
enum PathState {
    /// No file.
    Nothing,
    /// A socket at which no process listens any more, as a killed run leaves one.
    Stale,
    /// A socket at which a process listens.
    Served,
    /// A file that is no socket.
    Foreign,
    /// The system doesn't show it, for this reason.
    Hidden(ListenError),
}

/// What to do before a socket is bound to a path.
#[derive(Clone, Copy)]
enum BindAction {
    /// Nothing.
    Bind,
    /// Remove the file that is there.
    Replace,
    /// Leave what is there, and don't listen, for this reason.
    Refuse(ListenError),
}

/// Returns what is at a path.
fn found_at<R: Files + Net>(rt: &R, path: &str) -> PathState {
    let found = match fs::symlink_metadata(rt, path) {
        Ok(found) => found,
        Err(error) if error.kind() == ErrorKind::NotFound => return PathState::Nothing,
        Err(error) => return PathState::Hidden(listen_error_of(&error)),
    };
    if !found.file_type().is_socket() {
        return PathState::Foreign;
    }
    match UnixStream::connect(rt, path) {
        Ok(_) => PathState::Served,
        Err(error) if error.kind() == ErrorKind::ConnectionRefused => PathState::Stale,
        Err(error) => PathState::Hidden(listen_error_of(&error)),
    }
}

/// Returns what to do with what is at a path. Only a socket at which no process listens any more is
/// removed.
fn what_to_do(found: PathState) -> BindAction
    ensures { result ≡ what_to_do found }
{
    match found {
        PathState::Nothing => BindAction::Bind,
        PathState::Stale => BindAction::Replace,
        PathState::Served => BindAction::Refuse(ListenError::InUse),
        PathState::Foreign => BindAction::Refuse(ListenError::NotSocket),
        PathState::Hidden(why) => BindAction::Refuse(why),
    }
}

/// Follows the decision on a path. Returns why no socket can be bound to it, if so.
fn follow<R: Files>(rt: &R, path: &str, decision: BindAction) -> Result<(), ListenError>
    ensures { Follows decision result }
{
    match decision {
        BindAction::Bind => Ok(()),
        BindAction::Replace => explained(fs::remove_file(rt, path)),
        BindAction::Refuse(why) => Err(why),
    }
}

/// Returns the mode of the socket's file: only its user can read and write it.
fn users_alone() -> Permissions
    ensures { permissions_mode result ≡ socket_mode }
{
    Permissions::from_mode(0o600)
}

/// A socket that listens at a path. Only its user can read and write its file.
#[derive(Drop)]
pub(crate) struct ControlSocket {
    listener: UnixListener,
    /// A second handle of the socket, which shuts it down.
    end: UnixStream,
    /// The device and inode numbers of the socket's file.
    file: Option<(u64, u64)>,
}

impl ControlSocket {
    /// Gives the file of a socket that is bound to this path mode 0600, and then makes the socket
    /// listen. No client can connect to a socket that doesn't listen yet, so only its user ever
    /// can.
    fn listen<R: Files>(rt: &R, path: &str, socket: OwnedFd) -> Result<Self, ListenError> {
        explained(fs::set_permissions(rt, path, users_alone()))?;
        let end = UnixStream::from(explained(socket.try_clone())?);
        if libc::net::listen(socket.as_raw_fd(), BACKLOG) != 0 {
            return Err(ListenError::Other);
        }
        Ok(ControlSocket {
            listener: UnixListener::from(socket),
            end,
            file: file_at(rt, path),
        })
    }

    /// Opens a socket that listens at this path. Removes a socket first that a killed run left
    /// there.
    pub(crate) fn open<R: Files + Net>(rt: &R, path: &[u8]) -> Result<Self, ListenError> {
        let Ok(path) = str::from_utf8(path) else {
            return Err(ListenError::Other);
        };
        let address = explained(SocketAddr::from_pathname(path))?;
        follow(rt, path, what_to_do(found_at(rt, path)))?;
        let socket = explained(rt.unix_socket())?;
        explained(rt.bind_unix(socket.as_fd(), &address))?;
        match ControlSocket::listen(rt, path, socket) {
            Ok(control) => Ok(control),
            Err(why) => {
                let _ = fs::remove_file(rt, path);
                Err(why)
            }
        }
    }

    /// Waits for the next client that connects, and returns its connection.
    pub(crate) fn accept(&self) -> io::Result<UnixStream> {
        let (stream, _) = self.listener.accept()?;
        Ok(stream)
    }

    /// Accepts no more clients: a call of `accept` that waits returns an error.
    pub(crate) fn end(&self) {
        let _ = self.end.shutdown(Shutdown::Both);
    }

    /// Removes the socket's file, unless another file is at the path by now.
    pub(crate) fn remove<R: Files>(&self, rt: &R, path: &[u8]) {
        let Ok(path) = str::from_utf8(path) else {
            return;
        };
        if file_at(rt, path) == self.file {
            let _ = fs::remove_file(rt, path);
        }
    }
}
