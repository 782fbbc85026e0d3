//! Locks that the hubs of one machine hold while they run, one for each board over UDP: files whose names have the
//! address of the board, in folders that all hubs know. The system gives a lock back when its process ends.
//!
//! A folder for temporary files belongs to all users of a machine. So the file may be opened by each of them, nothing is
//! cut off it before the lock is had, and a link that somebody put in its place is not followed.

use std::alloc::Global;
use std::fs::{self, File, Metadata, OpenOptions, Permissions, TryLockError};
use std::io::{self, ErrorKind};
use std::net::SocketAddr;
use std::os::unix::fs::{FileExt, MetadataExt, PermissionsExt};
use std::{env, process};

/// Each user of the machine may lock the file.
const FOR_ALL: u32 = 0o666;

/// More digits than the number of a process has.
const MOST_DIGITS: usize = 16;

/// The locks of one board that this hub holds, in the folder of its user and in that for all.
#[derive(Drop)]
pub(crate) struct BoardLock {
    _of_user: Option<File>,
    _for_all: Option<File>,
}

/// What came of asking for the locks of a board.
#[derive(Drop)]
pub(crate) enum Claim {
    /// They are held, until this is dropped.
    Held(BoardLock),
    /// Another process has one of them, with this number where it is known.
    Taken(Option<u32>),
    /// There is no folder for such a file.
    Impossible(io::Error),
}

/// What came of asking for a lock in one folder.
#[derive(Drop)]
enum Attempt {
    Held(File),
    Taken(Option<u32>),
    Failed(io::Error),
}

/// Asks for the locks of the board at this address.
pub(crate) fn lock_board(host: HostRuntime, board: SocketAddr) -> Claim {
    let of_user = of_user(host, board);
    let for_all = for_all(host, board);
    if are_one(&of_user, &for_all) {
        return joined(Attempt::Failed(no_folder()), locked(host, for_all));
    }
    joined(locked(host, of_user), locked(host, for_all))
}

/// Whether an expert says that another hub may have the board.
pub(crate) fn is_shared(host: HostRuntime) -> bool {
    match variable(host, "IPBUS_SHARE") {
        Some(value) => value.as_str() == "1",
        None => false,
    }
}

// Both attempts together.
fn joined(of_user: Attempt, for_all: Attempt) -> Claim {
    match of_user {
        Attempt::Held(file) => beside(Some(file), for_all),
        Attempt::Taken(process) => Claim::Taken(process),
        Attempt::Failed(_) => beside(None, for_all),
    }
}

// What is held in the folder of the user, if anything is, and the other attempt.
fn beside(of_user: Option<File>, for_all: Attempt) -> Claim {
    match for_all {
        Attempt::Held(file) => Claim::Held(BoardLock {
            _of_user: of_user,
            _for_all: Some(file),
        }),
        Attempt::Taken(process) => Claim::Taken(process),
        Attempt::Failed(error) => {
            if of_user.is_none() {
                return Claim::Impossible(error);
            }
            Claim::Held(BoardLock {
                _of_user: of_user,
                _for_all: None,
            })
        }
    }
}

// A variable of the environment, where it has a value.
fn variable(host: HostRuntime, name: &str) -> Option<String> {
    match env::var(&host, name) {
        Ok(value) if !value.as_str().is_empty() => Some(value),
        _ => None,
    }
}

// The file in the folder of the user.
fn of_user(host: HostRuntime, board: SocketAddr) -> io::Result<File> {
    match variable(host, "XDG_RUNTIME_DIR") {
        Some(folder) => open_in(host, folder.as_str(), board),
        None => Err(no_folder()),
    }
}

// The file in the folder for temporary files.
fn for_all(host: HostRuntime, board: SocketAddr) -> io::Result<File> {
    match variable(host, "TMPDIR") {
        Some(folder) => open_in(host, folder.as_str(), board),
        None => open_in(host, "/tmp", board),
    }
}

fn no_folder() -> io::Error {
    io::Error::from(ErrorKind::NotFound)
}

// Whether both are one file, where the folders are one.
fn are_one(one: &io::Result<File>, other: &io::Result<File>) -> bool {
    match (one, other) {
        (Ok(one), Ok(other)) => match (one.metadata(), other.metadata()) {
            (Ok(one), Ok(other)) => is_same(&one, &other),
            _ => false,
        },
        _ => false,
    }
}

fn is_same(one: &Metadata, other: &Metadata) -> bool {
    one.dev() == other.dev() && one.ino() == other.ino()
}

fn locked(host: HostRuntime, opened: io::Result<File>) -> Attempt {
    match opened {
        Ok(file) => lock_of(host, file),
        Err(error) => Attempt::Failed(error),
    }
}

fn open_in(host: HostRuntime, folder: &str, board: SocketAddr) -> io::Result<File> {
    let alloc: Global = host.alloc();
    let path = format!(in alloc; "{folder}/ipbus-{board}.lock")?;
    match made(host, path.as_str()) {
        Err(error) if error.kind() == ErrorKind::AlreadyExists => found(host, path.as_str()),
        made => made,
    }
}

// The file, where there is none yet: a link in its place counts as one.
fn made(host: HostRuntime, path: &str) -> io::Result<File> {
    let mut how = OpenOptions::new();
    how.read(true);
    how.write(true);
    how.create_new(true);
    let file = how.open(&host, path)?;
    // beside what the user keeps from others by default
    let _ = file.set_permissions(Permissions::from_mode(FOR_ALL));
    Ok(file)
}

// The file that is there, which has this name alone and is no link.
fn found(host: HostRuntime, path: &str) -> io::Result<File> {
    let named = fs::symlink_metadata(&host, path)?;
    if !named.is_file() {
        return Err(io::Error::other("no plain file is at its place"));
    }
    let mut how = OpenOptions::new();
    how.read(true);
    how.write(true);
    let file = how.open(&host, path)?;
    let opened = file.metadata()?;
    if is_same(&opened, &named) && opened.nlink() == 1 {
        Ok(file)
    } else {
        Err(io::Error::other("another file is at its place"))
    }
}

// Locks the file, and puts the number of this process into it.
fn lock_of(host: HostRuntime, file: File) -> Attempt {
    match file.try_lock() {
        Ok(()) => {
            let _ = put_process(host, &file);
            Attempt::Held(file)
        }
        Err(TryLockError::WouldBlock) => Attempt::Taken(process_in(&file)),
        Err(TryLockError::Error(error)) => Attempt::Failed(error),
    }
}

fn put_process(host: HostRuntime, file: &File) -> io::Result<()> {
    let alloc: Global = host.alloc();
    let id = process::id(host.process());
    let text = format!(in alloc; "{id}\n")?;
    file.set_len(0)?;
    let _ = file.write_at(text.as_bytes(), 0)?;
    Ok(())
}

// The number of the process that has the lock, where the file has a number.
fn process_in(file: &File) -> Option<u32> {
    let mut text = [0; MOST_DIGITS];
    let count = file.read_at(&mut text, 0).ok()?;
    let line = str::from_utf8(text.get(..count)?).ok()?;
    line.trim_end().parse::<u32>().ok()
}
