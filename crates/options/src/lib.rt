// The program's arguments: what it is asked to do. And what it says of itself and of its file.
#![tactic(auto)]

pub mod notices;

ghost use Rattle.std.specs.Prelude.{◌≤◌, length, IfOk};

use std::env::FillError;
use std::rt::Env;

// How many slots a new journal is to have.
#[derive(Clone, Copy)]
pub struct Size {
    pub slots: usize,
    ghost in_range: { slots ≤ 2048 },
}

// What is done with a journal's file.
#[derive(Clone, Copy)]
pub enum Way {
    Change,
    Look,
    Make(Size),
}

// What is asked; a journal's name by the number of its argument.
#[derive(Clone, Copy)]
pub enum Asked {
    Memory,
    Help,
    Version,
    Journal(Way, usize),
}

// What isn't understood; an option by the number of its argument.
#[derive(Clone, Copy)]
pub enum Fault {
    Unknown(usize),
    NoName,
    ManyWords,
    NotSlots,
}

// Whether there is an argument i; the program's name is argument 0.
fn is_there<R: Env>(rt: &R, i: usize) -> bool {
    let mut start = [0u8; 1];
    !matches!(rt.arg(i, &mut start), Err(FillError::NotPresent))
}

// Argument i, into the front of a buffer: how many bytes it has, 0 where it isn't there or has no room.
fn argument<R: Env>(rt: &R, i: usize, room: &mut [u8]) -> usize
    ensures { result ≤ length room.new }
{
    rt.arg(i, room).unwrap_or(0)
}

// The journal's name as the last argument, with `before` others before it.
fn last<R: Env>(rt: &R, before: usize) -> Result<usize, Fault> {
    if !is_there(rt, before) {
        return Err(Fault::NoName);
    }
    if is_there(rt, before.saturating_add(1)) {
        return Err(Fault::ManyWords);
    }
    Ok(before)
}

// The journal's name, argument i or what follows a `--` there, which ends the options.
fn named<R: Env>(rt: &R, i: usize) -> Result<usize, Fault>
    requires { i ≤ 3 }
{
    let mut room = [0u8; 4096];
    let n = argument(rt, i, &mut room);
    match &room[..n] {
        b"--" => last(rt, i + 1),
        [b'-', ..] => Err(Fault::Unknown(i)),
        _ => last(rt, i),
    }
}

// How many slots a new journal is to have, argument 2: a number from 1 to 2,048.
fn slots<R: Env>(rt: &R) -> Result<Size, Fault> {
    let mut room = [0u8; 4096];
    let n = argument(rt, 2, &mut room);
    match numerals::number_in(&room[..n], 2048) {
        Ok(n) if 0 < n => Ok(Size { slots: n as usize }),
        _ => Err(Fault::NotSlots),
    }
}

// What needs no other word.
fn alone<R: Env>(rt: &R, what: Asked) -> Result<Asked, Fault> {
    if is_there(rt, 2) {
        return Err(Fault::ManyWords);
    }
    Ok(what)
}

// A journal that is made.
fn made<R: Env>(rt: &R) -> Result<Asked, Fault> {
    let size = slots(rt)?;
    Ok(Asked::Journal(Way::Make(size), named(rt, 3)?))
}

pub fn read<R: Env>(rt: &R) -> Result<Asked, Fault> {
    if !is_there(rt, 1) {
        return Ok(Asked::Memory);
    }
    let mut room = [0u8; 4096];
    let n = argument(rt, 1, &mut room);
    match &room[..n] {
        b"--help" => alone(rt, Asked::Help),
        b"--version" => alone(rt, Asked::Version),
        b"--new" => made(rt),
        b"--read-only" => Ok(Asked::Journal(Way::Look, named(rt, 2)?)),
        _ => Ok(Asked::Journal(Way::Change, named(rt, 1)?)),
    }
}
