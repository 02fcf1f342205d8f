//! The numbers of the standard streams, taken before anything else is opened.
use std::fs::{File, Files, OpenOptions};
use std::io;
use std::os::fd::AsRawFd;

/// The null device.
pub(crate) const NULL: &str = "/dev/null";

/// The number of standard input.
const INPUT: i32 = 0;

/// The last number of a standard stream, that of standard error.
const LAST: i32 = 2;

/// What stands in for the standard streams that were closed as the program began, until it is dropped.
///
/// The system gives a file that is opened the lowest number that is free. So where standard output is closed, the first
/// disk would take its number, and the output would be written into it.
#[derive(Drop)]
pub(crate) struct StandIns<F> {
    input: Option<F>,
    first: Option<F>,
    second: Option<F>,
}

/// Opens the null device in place of each standard stream that is closed, the wrong way round: as the input for
/// writing, so that a read fails, else for reading, so that a write fails. An error comes where the device is not
/// opened; then nothing may be opened safely.
pub(crate) fn stand_ins<R: Files>(rt: &R) -> io::Result<StandIns<R::File>>
where
    R::File: AsRawFd,
{
    Ok(StandIns {
        input: kept(OpenOptions::new().write(true).open(rt, NULL)?, INPUT),
        first: kept(File::open(rt, NULL)?, LAST),
        second: kept(File::open(rt, NULL)?, LAST),
    })
}

/// The file, unless its number is above this one; else it is closed.
fn kept<F: AsRawFd + Drop>(file: F, last: i32) -> Option<F> {
    if file.as_raw_fd() <= last {
        Some(file)
    } else {
        None
    }
}
