//! The socket of a server.
//! Definitions: specs/Sockets.antt. Tests: serve_tests/src/sockets.rt.
ghost use Rattle.std.specs.Prelude.{◌≡◌, ◌&&◌, true};
ghost use Rattle.std.specs.Fs.{permissions_mode};
ghost use Rattle.wm_serve.specs.Sockets.{is_own_file};

use std::fs::{File, Files, Permissions};
use std::io::ErrorKind;
use std::net::Net;
use std::os::unix::fs::{FileTypeExt, MetadataExt, PermissionsExt};
use std::os::unix::net::{UnixListener, UnixStream};
use std::{fs, io};

/// Whether a socket stands at a path.
fn is_socket<R: Files<File = File>>(rt: &R, path: &str) -> bool {
    match fs::symlink_metadata(rt, path) {
        Ok(found) => found.file_type().is_socket(),
        Err(_) => false,
    }
}

/// Whether a connection to a path is refused: nobody listens there.
fn is_refused<R: Net>(rt: &R, path: &str) -> bool {
    match UnixStream::connect(rt, path) {
        Ok(stream) => {
            drop(stream);
            false
        }
        Err(e) => e.kind() == ErrorKind::ConnectionRefused,
    }
}

/// Whether what stands at a server's path is replaced: it is a socket, and nobody serves it any longer. A plain file refuses a
/// connection too, and isn't ours to remove.
fn takes_over(is_refused: bool, is_socket: bool) -> bool
    ensures { result ≡ (is_refused && is_socket) }
{
    is_refused && is_socket
}

/// Binds a path. A socket that nobody serves any longer is replaced: whether one was.
fn bind<R: Net + Files<File = File>>(rt: &R, path: &str) -> io::Result<(UnixListener, bool)> {
    match UnixListener::bind(rt, path) {
        Ok(listener) => Ok((listener, false)),
        Err(e) => {
            if e.kind() != ErrorKind::AddrInUse
                || !takes_over(is_refused(rt, path), is_socket(rt, path))
            {
                return Err(e);
            }
            fs::remove_file(rt, path)?;
            let listener = UnixListener::bind(rt, path)?;
            Ok((listener, true))
        }
    }
}

/// Gives what stands at a path these rights: its owner alone may read and write it.
fn set_owner_rights<R: Files<File = File>>(
    rt: &R,
    path: &str,
    rights: Permissions,
) -> io::Result<()>
    requires { permissions_mode rights ≡ 0o600 }
{
    fs::set_permissions(rt, path, rights)
}

/// Which file stands at a path.
#[derive(Clone, Copy)]
struct Identity {
    device: u64,
    inode: u64,
}

/// Which file stands at a path, if one does.
fn identity_of<R: Files<File = File>>(rt: &R, path: &str) -> Option<Identity> {
    let found = fs::symlink_metadata(rt, path).ok()?;
    Some(Identity {
        device: found.dev(),
        inode: found.ino(),
    })
}

/// Whether the file that was found is a server's own: both are known, and have the same device and inode.
fn is_own(own: Option<Identity>, found: Option<Identity>) -> bool
    ensures { result ≡ is_own_file own found }
{
    match (own, found) {
        (Some(own), Some(found)) => own.device == found.device && own.inode == found.inode,
        _ => false,
    }
}

/// Removes a file that was found to be a server's own.
fn remove_own<R: Files<File = File>>(
    rt: &R,
    path: &str,
    own: Option<Identity>,
    found: Option<Identity>,
) -> io::Result<()>
    requires { is_own_file own found ≡ true }
{
    fs::remove_file(rt, path)
}

/// The socket of a server, which listens: where it stands, which file it was when it was made, and whether it replaced one. Nobody can drop
/// it: it is removed at the end.
pub struct ServerSocket<'a> {
    listener: UnixListener,
    path: &'a str,
    own: Option<Identity>,
    replaced: bool,
}

impl<'a> ServerSocket<'a> {
    /// Makes the socket, for this user alone. A socket that nobody serves any longer is replaced. An `Err` if a server listens there,
    /// something else stands there, or the socket can't be made; and if its rights can't be set: then it stays, and nobody serves it.
    pub fn listen<R: Net + Files<File = File>>(
        rt: &R,
        path: &'a str,
    ) -> io::Result<ServerSocket<'a>> {
        let (listener, replaced) = bind(rt, path)?;
        set_owner_rights(rt, path, Permissions::from_mode(0o600))?;
        let own = identity_of(rt, path);
        Ok(ServerSocket {
            listener,
            path,
            own,
            replaced,
        })
    }

    /// The path of the socket, if it replaced one.
    pub fn replaced(&self) -> Option<&'a str> {
        self.replaced.then_some(self.path)
    }

    /// The next stream that comes in.
    pub fn accept(&self) -> io::Result<UnixStream> {
        let (stream, _) = self.listener.accept()?;
        Ok(stream)
    }

    /// Listens no longer, and removes the socket, unless another file stands at its path by now.
    pub fn remove<R: Files<File = File>>(self, rt: &R) {
        let ServerSocket {
            listener,
            path,
            own,
            replaced: _,
        } = self;
        drop(listener);
        let found = identity_of(rt, path);
        if is_own(own, found) {
            let _gone = remove_own(rt, path, own, found);
        }
    }
}
