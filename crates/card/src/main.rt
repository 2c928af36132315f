// card: reads commands from standard input, one a line, and writes the answer to each. Its arguments say which journal they are on.
#![tactic(auto)]

use disk::{Fault, Opened, Step};
use keeping::Desk;
use lock::NotTaken;
use options::{Asked, Size, Way, notices};
use payments::Access;
use std::env::FillError;
use std::fs::File;
use std::io::ErrorKind;
use std::rt::{Env, Files};
use waiting::{Output, Streams};

// The options, then the commands.
fn help(streams: Streams) {
    let mut out = Output::new(streams);
    notices::help(streams);
    menu::help(&mut out);
    out.flush();
}

// Takes commands, at a terminal by a prompt.
fn run_on(streams: Streams, desk: &mut Desk) {
    desk.prompt = notices::at_terminal(streams);
    commands::run(streams, desk);
}

fn in_memory(streams: Streams) {
    let mut desk = Desk::new(false);
    notices::formed(streams, b"a journal in memory", 65536, 0);
    run_on(streams, &mut desk);
}

// ---- an open file

// What could not be done with a journal; where there is none, how one is made.
fn failed(streams: Streams, name: &[u8], fault: Fault) {
    let missing = fault.step == Step::Open && fault.why.kind() == ErrorKind::NotFound;
    notices::failed(streams, name, fault.step, fault.why);
    if missing {
        notices::missing(streams);
    }
}

// A well formed journal: what was read is seen on the disk before the first answer, unless it is only read.
fn run_formed(streams: Streams, name: &[u8], desk: &mut Desk, file: File, held: u32) {
    if desk.journal.access == Access::Change {
        if let Err(fault) = disk::write_back(&file, desk.journal.used()) {
            return failed(streams, name, fault);
        }
    }
    notices::formed(streams, name, desk.journal.length, held);
    desk.journal.file = Some(file);
    run_on(streams, desk);
}

fn run_file(streams: Streams, name: &[u8], desk: &mut Desk, file: File) {
    match held::tell(desk.journal.used()) {
        Ok(told) => run_formed(streams, name, desk, file, told.count),
        Err(_) => {
            notices::malformed(streams, name, desk.journal.length);
            desk.journal.file = Some(file);
            run_on(streams, desk);
        }
    }
}

fn run_opened(streams: Streams, name: &[u8], desk: &mut Desk, opened: Result<Opened, Fault>) {
    match opened {
        Ok(Opened { file, length }) => {
            desk.journal.length = length;
            run_file(streams, name, desk, file);
        }
        Err(fault) => failed(streams, name, fault),
    }
}

// ---- which file

// The journal at a path, which this process alone uses: there already, or made first.
fn run_alone<R: Files<File = File>>(
    rt: &R,
    streams: Streams,
    name: &[u8],
    path: &[u8],
    new: Option<Size>,
) {
    let mut desk = Desk::new(false);
    let opened = match new {
        Some(size) => disk::make(rt, path, &desk.journal.bytes[..32 * size.slots]),
        None => disk::open(rt, path, &mut desk.journal.bytes),
    };
    run_opened(streams, name, &mut desk, opened);
}

// Takes the lock first and leaves it last: nothing of the journal is read before, and nothing written after.
fn run_locked<R: Files<File = File>>(
    rt: &R,
    streams: Streams,
    name: &[u8],
    path: &[u8],
    new: Option<Size>,
) {
    match lock::take(rt, path) {
        Ok(()) => {
            run_alone(rt, streams, name, path, new);
            lock::leave(rt, path);
        }
        Err(NotTaken::InUse(pid)) => notices::in_use(streams, name, pid),
        Err(NotTaken::Failed(why)) => notices::failed(streams, name, "locked", why),
    }
}

// A file that is there, by the path that leads to it through no link, so that all its names meet at one lock.
fn existing<R: Files<File = File> + AllocGlobal>(rt: &R, streams: Streams, name: &[u8]) {
    let mut path = [0u8; 4096];
    match disk::resolve(rt, name, &mut path) {
        Ok(n) => run_locked(rt, streams, name, &path[..n], None),
        Err(fault) => failed(streams, name, fault),
    }
}

// A file that isn't changed needs no lock.
fn read_only<R: Files<File = File>>(rt: &R, streams: Streams, name: &[u8]) {
    let mut desk = Desk::new(false);
    desk.journal.access = Access::Look;
    let opened = disk::open_to_read(rt, name, &mut desk.journal.bytes);
    run_opened(streams, name, &mut desk, opened);
}

// ---- what is asked

fn on_name<R: Files<File = File> + AllocGlobal>(rt: &R, streams: Streams, name: &[u8], way: Way) {
    match way {
        Way::Change => existing(rt, streams, name),
        Way::Look => read_only(rt, streams, name),
        // a new one's lock stands beside the name that it is to have, since nothing may be there yet
        Way::Make(size) => run_locked(rt, streams, name, name, Some(size)),
    }
}

// A journal by the number of its name's argument.
fn named<R: Files<File = File> + Env + AllocGlobal>(rt: &R, streams: Streams, way: Way, i: usize) {
    let mut name = [0u8; 4096];
    match rt.arg(i, &mut name) {
        Ok(0) => notices::nameless(streams, FillError::NotPresent),
        Ok(n) => on_name(rt, streams, &name[..n], way),
        Err(why) => notices::nameless(streams, why),
    }
}

fn run<R: Files<File = File> + Env + AllocGlobal>(rt: &R, streams: Streams) {
    match options::read(rt) {
        Ok(Asked::Memory) => in_memory(streams),
        Ok(Asked::Help) => help(streams),
        Ok(Asked::Version) => notices::version(streams),
        Ok(Asked::Journal(way, i)) => named(rt, streams, way, i),
        Err(fault) => notices::usage(rt, streams, fault),
    }
}

// Nothing is opened before the standard descriptors are there: an answer must never be written into a journal, and no payment is taken
// that nobody hears of.
fn main(rt: HostRuntime) {
    let streams = Streams {
        input: rt.stdin(),
        output: rt.stdout(),
        errors: rt.stderr(),
    };
    if !disk::fill_standard(&rt) {
        notices::unheard(streams);
        return;
    }
    run(&rt, streams);
}
