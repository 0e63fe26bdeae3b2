//! Reading the input: a file that is named, or standard input.
use crate::stops::{Stop, stop_with};
use crate::words::Input;
use agc_text::MOST_BYTES;
use std::alloc::Global;
use std::io::{ErrorKind, Input as Standard, IsTerminal, Read};
use std::{fs, io};

/// The bench to play from if no file is named: an empty plan, and room for a million requests.
const EMPTY: &str = "limit = 1000000\nallowance = 9223372036854775807\n";

/// The bytes of a reader, but at most one more than an input may have.
fn read_bytes<R: Read + Drop>(alloc: Global, reader: R) -> io::Result<Vec<u8>> {
    let mut bytes = Vec::new(alloc);
    reader.take(MOST_BYTES as u64 + 1).read_to_end(&mut bytes)?;
    Ok(bytes)
}

/// The bytes of a file, but at most one more than an input may have.
pub(crate) fn read_file(rt: &HostRuntime, name: &str) -> io::Result<Vec<u8>> {
    read_bytes(rt.alloc(), fs::open(rt, name)?)
}

/// Stops because a file can't be read or written, in the system's words.
pub(crate) fn unread(alloc: Global, name: &str, error: &io::Error) -> Stop {
    if error.kind() == ErrorKind::OutOfMemory {
        return Stop::NoMemory;
    }
    stop_with(4, format!(in alloc; "{name}: {error}"))
}

/// Stops because standard output can't be written, in the system's words; a closed pipe needs none.
pub(crate) fn unwritten(alloc: Global, error: &io::Error) -> Stop {
    if error.kind() == ErrorKind::BrokenPipe {
        return Stop::ClosedPipe;
    }
    unread(alloc, "agc_watch: output", error)
}

/// The text of an input of this name, which has these bytes.
pub(crate) fn text_in(alloc: Global, name: &str, bytes: Vec<u8>) -> Result<String, Stop> {
    if bytes.len() > MOST_BYTES {
        let sentence = format!(in alloc; "{name}: too long: at most {MOST_BYTES} bytes are read");
        return Err(stop_with(1, sentence));
    }
    match String::from_utf8(bytes) {
        Ok(text) => Ok(text),
        Err(_other) => Err(stop_with(1, format!(in alloc; "{name}: not text: it isn't UTF-8"))),
    }
}

/// The text of an input of this name, whose bytes were read.
fn text_read(alloc: Global, name: &str, read: io::Result<Vec<u8>>) -> Result<String, Stop> {
    match read {
        Ok(bytes) => text_in(alloc, name, bytes),
        Err(error) => Err(unread(alloc, name, &error)),
    }
}

/// The text of an input.
pub(crate) fn text_of(rt: &HostRuntime, input: Input<'_>) -> Result<String, Stop> {
    match input {
        Input::Standard => {
            if rt.stdin().is_terminal() {
                let _ = eprintln!(rt; "agc_watch: reading standard input; end it by Ctrl-D");
            }
            text_read(rt.alloc(), "-", read_bytes(rt.alloc(), rt.reader()))
        }
        Input::File(name) => text_read(rt.alloc(), name, read_file(rt, name)),
        Input::Empty => Ok(String::from_str(rt.alloc(), EMPTY)?),
    }
}
