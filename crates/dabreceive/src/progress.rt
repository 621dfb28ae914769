// How far a long recording has come, on standard error where that is a terminal.
use programs::SubchannelIndex;
use std::os::unix::fs::{FileTypeExt, MetadataExt};
use std::{fmt, fs, io};

// After so many frames, four minutes of reception, a line is shown.
const FRAMES_A_LINE: usize = 10_000;

// What is shown of a recording on its way.
#[derive(Clone, Copy)]
pub struct Progress {
    frames: usize,
    // Bytes behind the last whole frame.
    unfinished: usize,
    is_shown: bool,
}

// What is said at the end of bytes that are left over; nothing where there are none.
#[derive(Clone, Copy)]
pub struct Unfinished(usize);

impl fmt::Display for Unfinished {
    fn fmt<W: fmt::Write>(&self, f: &mut fmt::Formatter<W>) -> fmt::Result {
        match self.0 {
            0 => Ok(()),
            bytes => write!(f, ", {bytes} bytes unfinished"),
        }
    }
}

// The kind of a device, which the upper part of its number says, as Linux counts them.
fn kind_of_device(number: u64) -> u64 {
    number / 256 % 4096
}

// Whether this kind of device is a terminal: a console or a serial line, the terminal of the process, or a window.
fn is_terminal_kind(kind: u64) -> bool {
    matches!(kind, 4 | 5 | 136..=143)
}

// Whether standard error is a terminal.
fn is_terminal(rt: &HostRuntime) -> bool {
    match fs::metadata(rt, "/proc/self/fd/2") {
        Ok(metadata) => {
            metadata.file_type().is_char_device()
                && is_terminal_kind(kind_of_device(metadata.rdev()))
        }
        Err(_) => false,
    }
}

impl Progress {
    // Of a recording with so many bytes.
    pub fn new(rt: &HostRuntime, size: SubchannelIndex, bytes: usize) -> Progress {
        Progress {
            frames: bytes / size.frame_length(),
            unfinished: bytes % size.frame_length(),
            is_shown: is_terminal(rt),
        }
    }

    pub fn end(&self) -> Unfinished {
        Unfinished(self.unfinished)
    }

    // Shows that so many frames were taken, now and then.
    pub fn show(&self, rt: &HostRuntime, taken: usize) -> io::Result<()> {
        if self.is_shown && taken > 0 && taken.is_multiple_of(FRAMES_A_LINE) {
            eprintln!(rt; "dabreceive: {taken} of {} frames", self.frames)?;
        }
        Ok(())
    }
}
