// What waits to be written to standard output, and the streams that a program is given.
#![tactic(auto)]

pub mod causes;

ghost use Rattle.std.specs.Prelude.{◌≡◌, ◌≤◌, length, IfErr};

use std::fmt;
use std::io::{Error, ErrorKind, Print, Stderr, Stdin, Stdout};

// Standard input, output and error.
#[derive(Clone, Copy)]
pub struct Streams {
    pub input: Stdin,
    pub output: Stdout,
    pub errors: Stderr,
}

// Why no more could be written, and what could not be.
#[derive(Drop)]
struct Stopped<'a> {
    why: Error,
    rest: &'a [u8],
}

// Writes to standard output.
fn written(output: Stdout, s: &[u8]) -> Result<(), Stopped<'_>>
    ensures { IfErr result (λ stopped. length stopped.rest.now ≤ length s.now) }
{
    let mut rest = s;
    while !rest.is_empty() {
        match output.write_some(rest) {
            Ok(0) => {
                let why = Error::from(ErrorKind::WriteZero);
                return Err(Stopped { why, rest });
            }
            Ok(n) => rest = &rest[n..],
            Err(why) => return Err(Stopped { why, rest }),
        }
    }
    Ok(())
}

// How many bytes may wait.
const ROOM: usize = 65536;

// The bytes that wait, at the front, and how many they are; whether a write has failed; where they go.
#[derive(Drop)]
pub struct Output {
    bytes: [u8; ROOM],
    count: usize,
    failed: bool,
    streams: Streams,
    ghost in_room: { count ≤ 65536 },
}

impl Output {
    // Nothing waits.
    pub fn new(streams: Streams) -> Output {
        Output {
            bytes: [0; ROOM],
            count: 0,
            failed: false,
            streams,
        }
    }

    // Writes what waits to standard output, or says why not on standard error, where what could not be written goes too, so that it is
    // heard of. Once a write has failed, the rest of that answer follows it there.
    fn all_written(&self) -> bool {
        let errors = self.streams.errors;
        let waiting = &self.bytes[..self.count];
        if self.failed {
            causes::remark(errors, waiting);
            return false;
        }
        match written(self.streams.output, waiting) {
            Ok(()) => true,
            Err(stopped) => {
                causes::fail(errors, b"card: standard output", stopped.why);
                causes::remark(errors, b"card: not written there:\n");
                causes::remark(errors, stopped.rest);
                false
            }
        }
    }

    // Writes what waits: whether all so far could be written.
    pub fn flush(&mut self) -> bool
        ensures { self.new.count ≡ 0 }
    {
        let good = self.all_written();
        self.count = 0;
        self.failed = !good;
        good
    }

    // Lets a byte wait; where there is no more room, what waits is written out first.
    pub fn put(&mut self, b: u8) {
        if self.count == ROOM {
            self.flush();
        }
        self.bytes[self.count] = b;
        self.count += 1;
    }

    pub fn put_all(&mut self, s: &[u8]) {
        for &b in s {
            self.put(b);
        }
    }

    // Says on standard error what failed, and why.
    pub fn fail(&self, what: &[u8], why: Error) {
        causes::fail(self.streams.errors, what, why);
    }
}

impl fmt::Write for Output {
    fn write_str(&mut self, s: &str) -> fmt::Result {
        self.put_all(s.as_bytes());
        Ok(())
    }
}
