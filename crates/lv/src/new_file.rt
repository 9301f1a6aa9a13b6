//! New files, each beside the one that it is to replace.

ghost use Rattle.std.specs.Prelude.{◌≡◌, IfOk, IfSome};

use crate::disk::write_to;
use std::fs::{Metadata, OpenFile, OpenOptions};
use std::io::{Error, ErrorKind, Write};
use std::os::unix::fs::{MetadataExt, OpenOptionsExt, chown};
use std::{fs, io};
use stream_writer::{DeviceFault, Sink};

/// The permissions, before the umask, of a new file where none was.
const ANYONE: u32 = 0o666;

/// The permissions of a new file until it gets those of the old one.
const OWNER_ALONE: u32 = 0o600;

/// How many names are tried for a new file.
const MOST_NAMES: u32 = 10_000;

/// A new file. It has the permissions, the owner and the group of the old one, where there is an old one.
#[derive(Drop)]
pub struct NewFile<F> {
    file: F,
    /// Its path now.
    path: String,
    /// Its path in the end.
    target: String,
    pub failures: u64,
}

impl<F: Write> Sink for NewFile<F> {
    ghost use Rattle.std.specs.Prelude.{None};

    ghost sunk = { λ s. record { taken = None; failures = s.failures } };

    fn put(&mut self, piece: &[u8]) -> Result<usize, DeviceFault> {
        if piece.is_empty() {
            return Ok(0);
        }
        let answer = write_to(&mut self.file, piece);
        if answer.is_err() {
            self.failures = self.failures.wrapping_add(1);
        }
        answer
    }
}

/// The path that a new file gets in the end, and what is known of the file there, if there is one.
#[derive(Drop)]
struct Target {
    path: String,
    old: Option<Metadata>,
}

/// The target for `path`, after following symbolic links, if a new file can replace what is there: nothing, or a
/// regular file that has one name and can be written.
fn find_target<R: std::rt::Files + AllocGlobal>(
    runtime: &R,
    path: &str,
) -> io::Result<Option<Target>> {
    match fs::metadata(runtime, path) {
        Ok(old) => {
            if !old.is_file() || old.nlink() > 1 {
                return Ok(None);
            }
            // A file that can't be written isn't replaced either.
            let _writable = OpenOptions::new().write(true).open(runtime, path)?;
            let path = fs::canonicalize(runtime, path)?.into_string();
            Ok(Some(Target {
                path,
                old: Some(old),
            }))
        }
        Err(error) => {
            if error.kind() != ErrorKind::NotFound || !is_name(path) || is_link(runtime, path) {
                return Ok(None);
            }
            let path = String::from_str(runtime.alloc(), path)?;
            Ok(Some(Target { path, old: None }))
        }
    }
}

/// Whether a path ends with the name of a file.
fn is_name(path: &str) -> bool {
    !path.is_empty() && !path.ends_with('/')
}

/// Whether there is a symbolic link at a path, to wherever.
fn is_link<R: std::rt::Files>(runtime: &R, path: &str) -> bool {
    fs::symlink_metadata(runtime, path).is_ok()
}

/// Makes a file beside the one at `target`, under the first name that is free, and returns its path too.
fn create_beside<R: std::rt::Files + AllocGlobal>(
    runtime: &R,
    target: &str,
    mode: u32,
) -> io::Result<(R::File, String)> {
    for count in 0..MOST_NAMES {
        let path = format!(in runtime.alloc(); "{target}.lv-new-{count}")?;
        let made = OpenOptions::new()
            .write(true)
            .create_new(true)
            .mode(mode)
            .open(runtime, path.as_str());
        match made {
            Ok(file) => return Ok((file, path)),
            Err(error) => {
                if error.kind() != ErrorKind::AlreadyExists {
                    return Err(error);
                }
            }
        }
    }
    Err(Error::from(ErrorKind::AlreadyExists))
}

/// Gives the new file at `path` the owner, the group and the permissions of the old one. They are in one file system.
fn keep_owner<R: std::rt::Files>(
    runtime: &R,
    path: &str,
    file: &R::File,
    old: &Metadata,
) -> io::Result<()> {
    let new = file.metadata()?;
    if new.dev() != old.dev() {
        return Err(Error::from(ErrorKind::CrossesDevices));
    }
    if new.uid() != old.uid() || new.gid() != old.gid() {
        chown(runtime, path, Some(old.uid()), Some(old.gid()))?;
    }
    file.set_permissions(old.permissions())
}

/// Begins a new file, which is to replace the one at `path`. `None`, or an error, where that can't be: nothing is left
/// of it then.
pub fn begin<R: std::rt::Files + AllocGlobal>(
    runtime: &R,
    path: &str,
    failures: u64,
) -> io::Result<Option<NewFile<R::File>>>
    ensures { IfOk result (λ found. IfSome found (λ file. file.failures ≡ failures)) }
{
    let Some(target) = find_target(runtime, path)? else {
        return Ok(None);
    };
    let mode = if target.old.is_some() {
        OWNER_ALONE
    } else {
        ANYONE
    };
    let (file, path) = create_beside(runtime, target.path.as_str(), mode)?;
    let new = NewFile {
        file,
        path,
        target: target.path,
        failures,
    };
    let Some(old) = &target.old else {
        return Ok(Some(new));
    };
    match keep_owner(runtime, new.path.as_str(), &new.file, old) {
        Ok(()) => Ok(Some(new)),
        Err(error) => {
            remove(runtime, new);
            Err(error)
        }
    }
}

/// Moves a new file to its target, once the device has stored all of it. Where that fails the new file is removed.
pub fn place<R: std::rt::Files>(runtime: &R, new: NewFile<R::File>) -> io::Result<()> {
    let placed = new.file.sync_all().and_then(|()| fs::rename(
        runtime,
        new.path.as_str(),
        new.target.as_str(),
    ));
    if placed.is_err() {
        remove(runtime, new);
    }
    placed
}

/// Removes a new file.
pub fn remove<R: std::rt::Files>(runtime: &R, new: NewFile<R::File>) {
    // Where it can't be removed, it stays beside the old file, with a name that says what it is.
    let _ = fs::remove_file(runtime, new.path.as_str());
}
