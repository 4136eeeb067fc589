// The numbers of the standard streams.
use std::fs::File;
use std::io;
use std::os::fd::{AsRawFd, IntoRawFd};
use std::rt::Files;

// The number of standard error, the highest of the three.
const LAST_STREAM: i32 = 2;

/// Opens the root folder for each standard stream with which this program was not started, and
/// leaves it open. So no file that is opened later gets such a number, under which what is printed
/// would be written into it. A folder can be neither read nor written: what the program prints to a
/// stream that was closed is refused, as before.
///
/// Refused where the system does not open the root folder.
pub fn fill_closed_streams(rt: &impl Files<File = File>) -> io::Result<()> {
    for _ in 0..=LAST_STREAM {
        let folder = File::open(rt, "/")?;
        if folder.as_raw_fd() > LAST_STREAM {
            return Ok(());
        }
        let _stays_open = folder.into_raw_fd();
    }
    Ok(())
}
