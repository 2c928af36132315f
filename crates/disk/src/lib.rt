// The journal's file: opened or made, read once, changed in place. Nothing is said here: each answer names what could not be done, with the
// system's error for it.
#![tactic(auto)]

ghost use Rattle.std.specs.Prelude.{◌+◌, ◌*◌, ◌%◌, ◌≤◌, ◌<◌, length, IfOk};

use std::fs::{File, Permissions};
use std::io::{Error, ErrorKind, Read, Write};
use std::os::fd::{AsRawFd, IntoRawFd};
use std::os::unix::fs::{FileExt, PermissionsExt};
use std::rt::Files;
use std::{fmt, fs, io};

// ---- descriptors

// Opens what is missing of descriptors 0 to 2, so that no file of ours becomes the standard output or error: whether that could be done,
// and standard output was there, without which no answer is heard. What is opened so is empty, and can't be written.
pub fn fill_standard<R: Files<File = File>>(rt: &R) -> bool {
    let mut heard = true;
    for _ in 0..4 {
        let Ok(file) = File::open(rt, "/dev/null") else {
            return false;
        };
        let fd = file.as_raw_fd();
        if 2 < fd {
            return heard;
        }
        if fd == 1 {
            heard = false;
        }
        file.into_raw_fd();
    }
    false
}

// ---- what can't be done

// What is done with the file.
#[derive(Clone, Copy, Debug, PartialEq, Eq)]
pub enum Step {
    Open,
    Read,
    Make,
    Write,
    Sync,
}

// What is said of a file with which it could not be done.
impl fmt::Display for Step {
    fn fmt<W: fmt::Write>(&self, f: &mut fmt::Formatter<W>) -> fmt::Result {
        f.write_str(match self {
            Step::Open => "opened",
            Step::Read => "read",
            Step::Make => "made",
            Step::Write => "written",
            Step::Sync => "synced",
        })
    }
}

// What could not be done with the file, and why.
#[derive(Clone, Copy)]
pub struct Fault {
    pub step: Step,
    pub why: Error,
}

impl Step {
    fn failed(self, why: Error) -> Fault {
        Fault { step: self, why }
    }
}

// ---- an existing file

// A file, and how many bytes of it were read.
#[derive(Drop)]
pub struct Opened {
    pub file: File,
    pub length: usize,
}

// Whether the file has ended.
fn at_end(file: &mut File) -> io::Result<()> {
    let mut more = [0u8; 1];
    if file.read(&mut more)? != 0 {
        return Err(Error::other("it grows while it is read"));
    }
    Ok(())
}

// Reads the file once. A byte more than the longest journal makes a longer file one of a wrong length.
fn read_once(file: &mut File, journal: &mut [u8]) -> io::Result<usize>
    ensures { IfOk result (λ n. n ≤ length journal.new) }
{
    let n = paths::read_full(file, journal)?;
    if n < journal.len() {
        at_end(file)?;
    }
    Ok(n)
}

fn load(opened: io::Result<File>, journal: &mut [u8]) -> Result<Opened, Fault>
    ensures { IfOk result (λ o. o.length ≤ length journal.new) }
{
    let mut file = opened.map_err(|why| Step::Open.failed(why))?;
    let length = read_once(&mut file, journal).map_err(|why| Step::Read.failed(why))?;
    Ok(Opened { file, length })
}

// Opens the journal at a path for changes.
pub fn open<R: Files<File = File>>(rt: &R, path: &[u8], journal: &mut [u8]) -> Result<Opened, Fault>
    ensures { IfOk result (λ o. o.length ≤ length journal.new) }
{
    load(paths::opened_to_change(rt, path), journal)
}

// Opens the journal at a path for reading alone.
pub fn open_to_read<R: Files<File = File>>(
    rt: &R,
    path: &[u8],
    journal: &mut [u8],
) -> Result<Opened, Fault>
    ensures { IfOk result (λ o. o.length ≤ length journal.new) }
{
    load(paths::opened_to_read(rt, path), journal)
}

// Puts a text into the front of a buffer, as much of it as there is room for: how many bytes that are.
fn put_text(text: &str, room: &mut [u8]) -> usize
    ensures { result ≤ length room.new }
{
    let n = text.len().min(room.len());
    room[..n].copy_from_slice(&text.as_bytes()[..n]);
    n
}

// The text of the link that stands for an open file, its path through no link: how many bytes it has.
fn link_of<R: Files<File = File> + AllocGlobal>(
    rt: &R,
    file: &File,
    real: &mut [u8],
) -> io::Result<usize>
    ensures { IfOk result (λ n. n ≤ length real.new) }
{
    let fd = file.as_raw_fd();
    let link = format!(in rt.alloc(); "/proc/self/fd/{fd}")?;
    let path = fs::read_link(rt, link.as_str())?;
    Ok(put_text(path.as_str(), real))
}

// The path through no link of the file that a path leads to, into the front of a buffer: how many bytes it has, or why it can't be opened
// for changes. Nothing of the file is read.
pub fn resolve<R: Files<File = File> + AllocGlobal>(
    rt: &R,
    path: &[u8],
    real: &mut [u8],
) -> Result<usize, Fault>
    ensures { IfOk result (λ n. n ≤ length real.new) }
{
    let file = paths::opened_to_change(rt, path).map_err(|why| Step::Open.failed(why))?;
    link_of(rt, &file, real).map_err(|why| Step::Open.failed(why))
}

// ---- a new file

// The folder that a path leads into.
fn folder_of(path: &[u8]) -> &[u8] {
    match path.iter().rposition(|b| *b == b'/') {
        Some(i) => &path[..i + 1],
        None => b".",
    }
}

// Sees the file's name on the disk: its folder is synced.
fn name_kept<R: Files<File = File>>(rt: &R, path: &[u8]) -> io::Result<()> {
    let folder = paths::opened_to_read(rt, folder_of(path))?;
    folder.sync_all()
}

// Zeros into a new file, which belongs to its maker alone, seen on the disk with its name.
fn settle<R: Files<File = File>>(
    rt: &R,
    file: &mut File,
    path: &[u8],
    zeros: &[u8],
) -> io::Result<()> {
    file.set_permissions(Permissions::from_mode(0o600))?;
    file.write_all(zeros)?;
    file.sync_all()?;
    name_kept(rt, path)
}

// Makes the journal at a path, of these zeros. What is there already, a link too, is never replaced; what could not be made whole is
// removed.
pub fn make<R: Files<File = File>>(rt: &R, path: &[u8], zeros: &[u8]) -> Result<Opened, Fault>
    ensures { IfOk result (λ o. o.length ≤ length zeros.now) }
{
    let mut file = paths::created(rt, path).map_err(|why| Step::Make.failed(why))?;
    if let Err(why) = settle(rt, &mut file, path, zeros) {
        let _ = paths::removed(rt, path);
        return Err(Step::Make.failed(why));
    }
    Ok(Opened {
        file,
        length: zeros.len(),
    })
}

// ---- changes

// The slot after n of a ring of n slots is the first.
fn round(k: usize, n: usize) -> usize
    requires { (k ≤ n) × (0 < n) }
    ensures { result < n }
{
    if k < n { k } else { 0 }
}

// How many of `left` slots from slot k on, among n, stand in one sector of 512 bytes.
fn run_of(k: usize, left: usize, n: usize) -> usize
    requires { (k < n) × (0 < left) }
    ensures { (0 < result) × (result ≤ left) × (k + result ≤ n) × (k % 16 + result ≤ 16) }
{
    (16 - k % 16).min(n - k).min(left)
}

// Writes bytes in place, and sees them on the disk.
fn put(file: &File, at: usize, bytes: &[u8]) -> Result<(), Fault>
    requires { at ≤ 65536 }
{
    match file.write_at(bytes, at as u64) {
        Ok(n) if n == bytes.len() => {}
        Ok(_) => return Err(Step::Write.failed(Error::from(ErrorKind::WriteZero))),
        Err(why) => return Err(Step::Write.failed(why)),
    }
    file.sync_all().map_err(|why| Step::Sync.failed(why))
}

// Writes back what was read of a well formed journal, and sees it on the disk. What is read may not be on the disk: a process may have
// been killed between a write and its sync, and after a sync that failed the system may hold for clean what it couldn't write. At most
// one sector of the disk differs then from what was read, since each write is synced before the next, and no process writes after a
// failure. So a cut at this moment leaves that sector as it was or as it was read, and either way a well formed journal.
pub fn write_back(file: &File, journal: &[u8]) -> Result<(), Fault> {
    put(file, 0, journal)
}

fn put_slots(file: &File, journal: &[u8], k: usize, n: usize) -> Result<(), Fault>
    requires { (32 * (k + n) ≤ length journal.now) × (k ≤ 2048) }
{
    let at = 32 * k;
    let end = at + 32 * n;
    put(file, at, &journal[at..end])
}

// Writes the records of `count` serials from `first` on, in the order of serials and no more than a sector at a time: each
// sector is on the disk before the next is written, so that a cut leaves the first of them changed and the others as they were.
// A journal of a wrong length is never touched.
pub fn write(file: &File, journal: &[u8], first: u32, count: u32) -> Result<(), Fault> {
    if journal.len() < 32 || 65536 < journal.len() {
        return Err(Step::Write.failed(Error::from(ErrorKind::InvalidInput)));
    }
    let n = journal.len() / 32;
    let mut k = (first as usize + n - 1) % n;
    let mut left = count as usize;
    while 0 < left {
        let r = run_of(k, left, n);
        put_slots(file, journal, k, r)?;
        k = round(k + r, n);
        left -= r;
    }
    Ok(())
}
