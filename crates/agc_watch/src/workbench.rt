//! The workbench, a file that a page is made of: where it is, and whether it is of this version.
use crate::commands::VERSION;
use crate::files::{read_file, unread};
use crate::stops::{Stop, stop_with};
use std::alloc::{AllocError, Global};
use std::env;
use std::env::VarError;
use std::io::ErrorKind;

/// How the workbench begins; its version is the next word.
const MARK: &str = "<!DOCTYPE html>\n<!-- AGC workbench ";

/// The workbench, and the name of its file.
#[derive(Drop)]
pub(crate) struct Workbench {
    name: String,
    text: String,
}

/// The files where the workbench may be if none is named: beside the program, and where
/// `make install` puts it.
fn places_of(alloc: Global, program: &str) -> Result<Vec<String>, AllocError> {
    let mut places = Vec::new(alloc);
    if let Some((folder, _name)) = program.rsplit_once('/') {
        places.push(format!(in alloc; "{folder}/workbench.html")?)?;
        if let Some((above, _bin)) = folder.rsplit_once('/') {
            places.push(format!(in alloc; "{above}/share/agc/workbench.html")?)?;
        }
    }
    Ok(places)
}

/// The places beside the program; none, if the system doesn't tell where the program is.
fn places(rt: &HostRuntime) -> Result<Vec<String>, AllocError> {
    match env::current_exe(rt) {
        Ok(program) => places_of(rt.alloc(), program.as_str()),
        Err(error) => {
            if error.kind() == ErrorKind::OutOfMemory {
                Err(AllocError)
            } else {
                Ok(Vec::new(rt.alloc()))
            }
        }
    }
}

/// That no workbench is at these places.
fn missing(alloc: Global, places: &[String]) -> Stop {
    let end = "name one by --workbench or AGC_WORKBENCH";
    let sentence = match places {
        [] => format!(in alloc; "agc_watch: no workbench: {end}"),
        [only] => format!(in alloc; "agc_watch: no workbench at {only}: {end}"),
        [first, second, ..] => {
            format!(in alloc; "agc_watch: no workbench at {first} or {second}: {end}")
        }
    };
    stop_with(4, sentence)
}

/// That the file of this name is no workbench.
fn not_one(alloc: Global, name: &str) -> Stop {
    stop_with(
        1,
        format!(in alloc; "{name}: this is not an empty AGC workbench"),
    )
}

/// Whether a text is of digits and dots alone.
fn is_version(text: &str) -> bool {
    for byte in text.as_bytes() {
        if *byte != b'.' && !byte.is_ascii_digit() {
            return false;
        }
    }
    true
}

/// The version after this front of a text, up to the next blank. None if the front comes again, as
/// in two files that are joined.
fn version_behind<'a>(front: &str, text: &'a str) -> Option<&'a str> {
    match text.strip_prefix(front)?.split_once(' ') {
        Some((version, rest)) if is_version(version) && !rest.contains(front) => Some(version),
        _ => None,
    }
}

/// Whether the file of this name, which has this text, is the workbench of this version.
fn check_version(alloc: Global, name: &str, text: &str) -> Result<(), Stop> {
    match version_behind(MARK, text) {
        None => Err(not_one(alloc, name)),
        Some(version) => {
            if version == VERSION {
                return Ok(());
            }
            let is = "this is the workbench of version";
            let sentence = format!(in alloc; "{name}: {is} {version}, not {VERSION}");
            Err(stop_with(1, sentence))
        }
    }
}

/// The workbench in a file of this name, which has these bytes.
fn workbench_of(alloc: Global, name: &str, bytes: Vec<u8>) -> Result<Workbench, Stop> {
    let text = match String::from_utf8(bytes) {
        Ok(text) => text,
        Err(_other) => return Err(not_one(alloc, name)),
    };
    check_version(alloc, name, text.as_str())?;
    let name = String::from_str(alloc, name)?;
    Ok(Workbench { name, text })
}

/// The workbench that is named.
fn named_workbench(rt: &HostRuntime, name: &str) -> Result<Workbench, Stop> {
    match read_file(rt, name) {
        Ok(bytes) => workbench_of(rt.alloc(), name, bytes),
        Err(error) => Err(unread(rt.alloc(), name, &error)),
    }
}

/// The workbench at the first of its places that has a file.
fn placed_workbench(rt: &HostRuntime) -> Result<Workbench, Stop> {
    let places = places(rt)?;
    for place in &places {
        match read_file(rt, place.as_str()) {
            Ok(bytes) => return workbench_of(rt.alloc(), place.as_str(), bytes),
            Err(error) => {
                if error.kind() != ErrorKind::NotFound {
                    return Err(unread(rt.alloc(), place.as_str(), &error));
                }
            }
        }
    }
    Err(missing(rt.alloc(), places.as_slice()))
}

impl Workbench {
    /// The workbench that is named, or else by the variable `AGC_WORKBENCH`, or else the one that
    /// goes with the program.
    pub(crate) fn find(rt: &HostRuntime, named: Option<&str>) -> Result<Workbench, Stop> {
        if let Some(name) = named {
            return named_workbench(rt, name);
        }
        match env::var(rt, "AGC_WORKBENCH") {
            Ok(name) => named_workbench(rt, name.as_str()),
            Err(VarError::OutOfMemory) => Err(Stop::NoMemory),
            Err(_) => placed_workbench(rt),
        }
    }

    pub(crate) fn text(&self) -> &str {
        self.text.as_str()
    }

    /// That this is none after all.
    pub(crate) fn is_none(&self, alloc: Global) -> Stop {
        not_one(alloc, self.name.as_str())
    }
}
