//! The file that says what was proved of the program.

use operator_notes::{MAX_PROVENANCE, Provenance};
use std::alloc::Global;
use std::fs::{self, File};
use std::os::unix::fs::FileExt;
use std::{env, io};

/// The bytes of a file, as many as were read.
#[derive(Drop)]
pub(crate) struct Read {
    bytes: Vec<u8>,
    count: usize,
}

impl Read {
    /// What the file says, if it has no more bytes than such a file has.
    pub(crate) fn provenance(&self) -> Provenance<'_> {
        match self.bytes.get(..self.count) {
            Some(bytes) if bytes.len() <= MAX_PROVENANCE => Provenance::Told(bytes),
            _ => Provenance::TooLong,
        }
    }
}

/// What stands in the file of an installed program, or else in the one that `bin/prove` puts beside the program.
pub(crate) fn read_provenance(host: HostRuntime) -> io::Result<Read> {
    let alloc: Global = host.alloc();
    let program = env::current_exe(&host)?;
    let program = program.as_path().as_str();
    let folder = match program.rsplit_once('/') {
        Some((folder, _)) => folder,
        None => ".",
    };
    let installed = format!(in alloc; "{folder}/../share/ipbus/provenance")?;
    if let Ok(read) = read_file(host, installed.as_str()) {
        return Ok(read);
    }
    let beside = format!(in alloc; "{program}.provenance")?;
    read_file(host, beside.as_str())
}

/// What stands in a plain file, and one byte more than `MAX_PROVENANCE` at the most.
fn read_file(host: HostRuntime, path: &str) -> io::Result<Read> {
    if !fs::metadata(&host, path)?.is_file() {
        return Err(io::Error::other("no plain file is at its place"));
    }
    let file = File::open(&host, path)?;
    let mut bytes = Vec::new(host.alloc());
    bytes.resize(MAX_PROVENANCE + 1, 0)?;
    let count = file.read_at(bytes.as_mut_slice(), 0)?;
    Ok(Read { bytes, count })
}
