// One process at a time: a queue in a file beside the journal, JOURNAL.lock.
//
// Each process appends one line that says who it is, and has the lock exactly when every line before its own is of a process that no
// longer lives. No line is ever changed, so nothing can be raced for: the system puts appends in one order, so that of two living
// processes the later one finds the earlier one's line before its own; and who is dead stays dead, so that what was found still holds.
// The holder alone removes the file, as its last act and thus before it dies. Whoever stood behind it and now finds it dead looks once
// more: its own line is then gone from the path, and it starts over. A holder that was killed leaves its line, which is that of a
// process that no longer lives.
#![tactic(auto)]

ghost use Rattle.std.specs.Prelude.{◌≤◌, length, IfOk, IfSome};

use std::fs::File;
use std::io;
use std::io::{Error, ErrorKind, Write};
use std::rt::Files;

// ---- what the system tells of a process

// The bytes of a small file, into the front of a buffer: how many they are.
fn read_file<R: Files<File = File>>(rt: &R, path: &[u8], out: &mut [u8]) -> io::Result<usize>
    ensures { IfOk result (λ n. n ≤ length out.new) }
{
    let mut file = paths::opened_to_read(rt, path)?;
    paths::read_full(&mut file, out)
}

// Parts one after another, into the front of a buffer: how many bytes they are.
fn joined(parts: &[&[u8]], room: &mut [u8]) -> io::Result<usize>
    ensures { IfOk result (λ n. n ≤ length room.new) }
{
    let size = room.len();
    let mut left = room;
    for part in parts {
        left.write_all(part)?;
    }
    Ok(size.saturating_sub(left.len()))
}

// The stat line of the process whose number these digits write, into the front of a buffer: how many bytes it has.
fn read_stat<R: Files<File = File>>(rt: &R, pid: &[u8], stat: &mut [u8]) -> io::Result<usize>
    ensures { IfOk result (λ n. n ≤ length stat.new) }
{
    let mut path = [0u8; 64];
    let n = joined(&[b"/proc/", pid, b"/task/", pid, b"/stat"], &mut path)?;
    read_file(rt, &path[..n], stat)
}

// Asks for the stat line of the process whose number these digits write: how many bytes it has, or that there is no such process.
// A file that could not be read is nobody's only where there is none, no file having a name that isn't text: whoever may be living
// isn't taken for dead, nor one that ends at this moment, of whom nothing is told.
fn ask<R: Files<File = File>>(rt: &R, pid: &[u8], stat: &mut [u8]) -> io::Result<Option<usize>>
    ensures { IfOk result (λ o. IfSome o (λ n. n ≤ length stat.new)) }
{
    if 20 < pid.len() {
        return Ok(None);
    }
    match read_stat(rt, pid, stat) {
        Ok(0) => Err(Error::from(ErrorKind::UnexpectedEof)),
        Ok(n) => Ok(Some(n)),
        Err(why) => match why.kind() {
            ErrorKind::NotFound | ErrorKind::InvalidFilename => Ok(None),
            _ => Err(why),
        },
    }
}

// What can't be told of this process.
fn untold() -> Error {
    Error::from(ErrorKind::InvalidData)
}

// Writes the line of the process whose number these digits write.
fn sign_as<R: Files<File = File>>(rt: &R, pid: &[u8], boot: &[u8], own: &mut [u8]) -> io::Result<()>
    requires { 128 ≤ length own.old }
{
    let mut stat = [0u8; 4096];
    let Some(n) = ask(rt, pid, &mut stat)? else {
        return Err(Error::from(ErrorKind::NotFound));
    };
    if lock_lines::sign(pid, lock_lines::start_time(&stat[..n]), boot, own) {
        return Ok(());
    }
    Err(untold())
}

// Asks for this process as for any other once its number is known.
fn sign_in<R: Files<File = File>>(rt: &R, boot: &[u8], own: &mut [u8]) -> io::Result<()>
    requires { 128 ≤ length own.old }
{
    let mut stat = [0u8; 4096];
    let n = read_file(rt, b"/proc/self/stat", &mut stat)?;
    sign_as(rt, script::word(&stat[..n], 0), boot, own)
}

// Writes the own line.
fn sign_self<R: Files<File = File>>(rt: &R, own: &mut [u8]) -> io::Result<()>
    requires { 128 ≤ length own.old }
{
    let mut boot = [0u8; 36];
    if read_file(rt, b"/proc/sys/kernel/random/boot_id", &mut boot)? < 36 {
        return Err(untold());
    }
    sign_in(rt, &boot, own)
}

// The number of the process that wrote a line, where it still lives: its line would be the same now.
fn living<R: Files<File = File>>(rt: &R, line: &[u8], own: &[u8]) -> io::Result<Option<u64>> {
    let pid = script::word(line, 0);
    let mut stat = [0u8; 4096];
    let Some(n) = ask(rt, pid, &mut stat)? else {
        return Ok(None);
    };
    if !lock_lines::is_now(line, own, pid, lock_lines::start_time(&stat[..n])) {
        return Ok(None);
    }
    Ok(numerals::number_in(pid, 4294967295).ok())
}

// ---- whose turn it is

// Why the lock isn't had: a living process has it, or its file can't be used.
#[derive(Clone, Copy)]
pub enum NotTaken {
    InUse(u64),
    Failed(Error),
}

// Why it isn't this process's turn. It is to be asked again where the own line isn't there, or a process before it can't be told of.
#[derive(Clone, Copy)]
enum NotMine {
    Again(Error),
    Never(NotTaken),
}

// The own line isn't there.
fn lost_line() -> NotMine {
    NotMine::Again(Error::from(ErrorKind::UnexpectedEof))
}

fn unusable(why: Error) -> NotMine {
    NotMine::Never(NotTaken::Failed(why))
}

// Reads line by line up to the own one, which is the first of a living process where it is this one's turn. No file has as many lines
// as there are steps.
fn first_living<R: Files<File = File>>(
    rt: &R,
    file: &mut File,
    own: &[u8],
    line: &mut [u8],
) -> Result<(), NotMine> {
    for _ in 0..u32::MAX {
        let n = paths::read_full(file, line).map_err(NotMine::Again)?;
        if n < line.len() {
            break;
        }
        if &*line == own {
            return Ok(());
        }
        if let Some(pid) = living(rt, line, own).map_err(NotMine::Again)? {
            return Err(NotMine::Never(NotTaken::InUse(pid)));
        }
    }
    Err(lost_line())
}

// Whether it is this process's turn by the file that now stands at the path.
fn look<R: Files<File = File>>(rt: &R, path: &[u8], own: &[u8]) -> Result<(), NotMine> {
    let mut file = paths::opened_to_read(rt, path).map_err(NotMine::Again)?;
    let mut line = [0u8; 128];
    first_living(rt, &mut file, own, &mut line)
}

// Appends the own line in one write, to a file that is made where there is none.
fn append<R: Files<File = File>>(rt: &R, path: &[u8], own: &[u8]) -> Result<(), NotMine> {
    let _ = paths::created(rt, path);
    let mut file = match paths::opened_at_end(rt, path) {
        Ok(file) => file,
        Err(why) if why.kind() == ErrorKind::NotFound => return Err(NotMine::Again(why)),
        Err(why) => return Err(unusable(why)),
    };
    let n = file.write(own).map_err(unusable)?;
    if n < own.len() {
        return Err(unusable(Error::from(ErrorKind::WriteZero)));
    }
    Ok(())
}

// Appends, then looks twice: who finds the holder dead at the first look finds its own line gone at the second, if the holder removed
// the file.
fn line_up<R: Files<File = File>>(rt: &R, path: &[u8], own: &[u8]) -> Result<(), NotMine> {
    append(rt, path, own)?;
    look(rt, path, own)?;
    look(rt, path, own)
}

// ---- the lock

// Lines up until the queue can be told. Each turn but the last stands for a process that ended meanwhile.
fn take_in<R: Files<File = File>>(rt: &R, path: &[u8], own: &[u8]) -> Result<(), NotTaken> {
    let mut last = Error::from(ErrorKind::WouldBlock);
    for _ in 0..100 {
        match line_up(rt, path, own) {
            Ok(()) => return Ok(()),
            Err(NotMine::Never(why)) => return Err(why),
            Err(NotMine::Again(why)) => last = why,
        }
    }
    Err(NotTaken::Failed(last))
}

// The lock file's name: how many bytes it has, no more than any path may.
fn name_of(journal: &[u8], name: &mut [u8; 4101]) -> io::Result<usize>
    ensures { IfOk result (λ n. n ≤ length name.new) }
{
    joined(&[journal, b".lock"], name)
}

// Takes the lock of the journal at a path, which leads through no link.
pub fn take<R: Files<File = File>>(rt: &R, journal: &[u8]) -> Result<(), NotTaken> {
    let mut own = lock_lines::blank();
    sign_self(rt, &mut own).map_err(NotTaken::Failed)?;
    let mut path = [0u8; 4101];
    let n = name_of(journal, &mut path).map_err(NotTaken::Failed)?;
    take_in(rt, &path[..n], &own)
}

// Gives the lock back: its holder's last act.
pub fn leave<R: Files<File = File>>(rt: &R, journal: &[u8]) {
    let mut path = [0u8; 4101];
    if let Ok(n) = name_of(journal, &mut path) {
        let _ = paths::removed(rt, &path[..n]);
    }
}
