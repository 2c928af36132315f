// Files by their paths: opened in the ways that are needed, read into a buffer, removed. A path is text.
#![tactic(auto)]

ghost use Rattle.std.specs.Prelude.{◌≤◌, length, IfOk};

use std::fs::{File, OpenOptions};
use std::io::{Error, ErrorKind, Read};
use std::rt::Files;
use std::{fs, io};

fn text_of(path: &[u8]) -> io::Result<&str> {
    str::from_utf8(path).map_err(|_| Error::from(ErrorKind::InvalidFilename))
}

pub fn opened_to_read<R: Files<File = File>>(rt: &R, path: &[u8]) -> io::Result<File> {
    File::open(rt, text_of(path)?)
}

pub fn opened_to_change<R: Files<File = File>>(rt: &R, path: &[u8]) -> io::Result<File> {
    OpenOptions::new()
        .read(true)
        .write(true)
        .open(rt, text_of(path)?)
}

// What is written goes to the file's end.
pub fn opened_at_end<R: Files<File = File>>(rt: &R, path: &[u8]) -> io::Result<File> {
    OpenOptions::new().append(true).open(rt, text_of(path)?)
}

// A new file, where nothing is.
pub fn created<R: Files<File = File>>(rt: &R, path: &[u8]) -> io::Result<File> {
    OpenOptions::new()
        .write(true)
        .create_new(true)
        .open(rt, text_of(path)?)
}

pub fn removed<R: Files<File = File>>(rt: &R, path: &[u8]) -> io::Result<()> {
    fs::remove_file(rt, text_of(path)?)
}

// Reads until the buffer is full or the file ends: how many bytes stand at its front.
pub fn read_full(file: &mut File, buffer: &mut [u8]) -> io::Result<usize>
    ensures { IfOk result (λ n. n ≤ length buffer.new) }
{
    let mut done = 0;
    while done < buffer.len() {
        let n = file.read(&mut buffer[done..])?;
        if n == 0 {
            break;
        }
        done += n;
    }
    Ok(done)
}
