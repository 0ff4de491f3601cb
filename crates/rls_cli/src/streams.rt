//! The standard streams that the program was started without.

use std::fs::File;
use std::io;
use std::rt::Files;

/// Three open files, none of which gives or takes a byte.
///
/// A file that is opened gets the lowest number that is free. If a program is started with a closed standard stream, the next
/// file that it opens would get the number of that stream: the text of the replica would be written into a slot, or a slot be
/// read as the input. So three files are opened before all others, and are held until the program ends; a stream that was
/// closed is then one of them, and reading from it or writing to it fails.
#[derive(Drop)]
pub struct Guard<R: Files> {
    _first: R::File,
    _second: R::File,
    _third: R::File,
}

/// A folder, opened to be read: a read fails, since it is a folder, and a write, since it is open for reading alone.
fn mute<R: Files>(rt: &R) -> io::Result<R::File> {
    File::open(rt, "/")
}

/// Takes the numbers of the standard streams that are closed.
pub fn guard_streams<R: Files>(rt: &R) -> io::Result<Guard<R>> {
    Ok(Guard {
        _first: mute(rt)?,
        _second: mute(rt)?,
        _third: mute(rt)?,
    })
}
