//! A file of the system that is written whole or not at all. It claims nothing.
//!
//! The bytes go to a new file in the same folder, which then takes the place of the old one.

use std::alloc::Global;
use std::fs::{Metadata, OpenFile, OpenOptions};
use std::io::{ErrorKind, Write};
use std::os::unix::fs::{MetadataExt, chown};
use std::path::{Path, PathBuf};
use std::rt::Files;
use std::{fs, io};

/// How many names a new file tries, while something stands at each one.
const NAMES: u32 = 100;

/// Makes the file at the path the bytes. Where this fails, a regular file is as it was, and where none was, none is.
///
/// A link to a file is followed, and stays. What is no regular file, a link that leads to none, and what stands below
/// `/dev` and `/proc` through a link, is opened and written.
///
/// # Errors
///
/// What the system tells; or out of memory, and the files are as before.
pub fn write_whole<R: Files>(alloc: Global, rt: &R, path: &str, bytes: &[u8]) -> io::Result<()> {
    match fs::symlink_metadata(rt, path) {
        Ok(old) if old.is_file() => replace(alloc, rt, path, &old, bytes),
        Ok(old) if old.is_symlink() && !is_of_the_system(path) => {
            write_linked(alloc, rt, path, bytes)
        }
        Err(error) if error.kind() == ErrorKind::NotFound => put(alloc, rt, path, None, bytes),
        _ => fs::write(rt, path, bytes),
    }
}

/// Whether links at the path lead to what a process has open, as `/dev/stdout` does, and not to a name.
fn is_of_the_system(path: &str) -> bool {
    path.starts_with("/dev/") || path.starts_with("/proc/")
}

/// Makes what a link leads to the bytes.
fn write_linked<R: Files>(alloc: Global, rt: &R, link: &str, bytes: &[u8]) -> io::Result<()> {
    let path = match rt.canonicalize(alloc, link) {
        Ok(path) => path,
        Err(error) if error.kind() == ErrorKind::OutOfMemory => return Err(error),
        Err(_) => return fs::write(rt, link, bytes),
    };
    match fs::symlink_metadata(rt, path.as_str()) {
        Ok(old) if old.is_file() => replace(alloc, rt, path.as_str(), &old, bytes),
        _ => fs::write(rt, link, bytes),
    }
}

/// Puts a file of the bytes in the place of an old one, which stays where it may not be written.
fn replace<R: Files>(
    alloc: Global,
    rt: &R,
    path: &str,
    old: &Metadata,
    bytes: &[u8],
) -> io::Result<()> {
    OpenOptions::new().write(true).open(rt, path)?;
    put(alloc, rt, path, Some(old), bytes)
}

/// Puts a file of the bytes at the path, with the rights of the old one; where this fails, nothing is left of it.
fn put<R: Files>(
    alloc: Global,
    rt: &R,
    path: &str,
    old: Option<&Metadata>,
    bytes: &[u8],
) -> io::Result<()> {
    let (file, made) = make_beside(alloc, rt, path)?;
    let moved = match fill(rt, file, made.as_str(), old, bytes) {
        Ok(()) => fs::rename(rt, made.as_str(), path),
        failed => failed,
    };
    if moved.is_err() {
        let _ = fs::remove_file(rt, made.as_str());
    }
    moved
}

/// Makes a file in the folder of the path, at the first name of its own at which nothing stands.
fn make_beside<R: Files>(alloc: Global, rt: &R, path: &str) -> io::Result<(R::File, PathBuf)> {
    for number in 0..NAMES {
        let name = format!(in alloc; "goat-unfinished-{number}")?;
        let beside = Path::new(path).with_file_name(alloc, name.as_str())?;
        match fs::File::create_new(rt, beside.as_str()) {
            Ok(file) => return Ok((file, beside)),
            Err(error) if error.kind() == ErrorKind::AlreadyExists => {}
            Err(error) => return Err(error),
        }
    }
    Err(ErrorKind::AlreadyExists.into())
}

/// Gives a file that was made the rights of the old one and then the bytes, and waits until the disk has them.
fn fill<R: Files>(
    rt: &R,
    mut file: R::File,
    made: &str,
    old: Option<&Metadata>,
    bytes: &[u8],
) -> io::Result<()> {
    if let Some(old) = old {
        keep_rights(rt, &file, made, old)?;
    }
    file.write_all(bytes)?;
    file.sync_data()
}

/// Gives a file that was made the group and the owner of the old one, where this process may, and its mode.
fn keep_rights<R: Files>(rt: &R, file: &R::File, made: &str, old: &Metadata) -> io::Result<()> {
    let _ = chown(rt, made, None, Some(old.gid()));
    let _ = chown(rt, made, Some(old.uid()), None);
    if file.metadata()?.mode() == old.mode() {
        return Ok(());
    }
    file.set_permissions(old.permissions())
}
