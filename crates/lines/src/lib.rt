// Standard input, line by line.
#![tactic(auto)]

ghost use Rattle.std.specs.Prelude.{◌≤◌, length, IfSome};
ghost use Rattle.lines.specs.Lines.{Within};

use std::io::{Read, Stdin};

// A line: how many bytes of its buffer it takes, or that it has more than there is room for.
#[derive(Clone, Copy, Debug, PartialEq, Eq)]
pub enum Line {
    Taken(usize),
    TooLong,
}

impl Line {
    // The line with these bytes more; one that they don't fit into keeps no more.
    fn with(self, more: &[u8], room: &mut [u8]) -> Line
        requires { Within room.old self }
        ensures { Within room.new result }
    {
        match self {
            Line::Taken(n) if more.len() <= room.len() - n => {
                room[n..n + more.len()].copy_from_slice(more);
                Line::Taken(n + more.len())
            }
            _ => Line::TooLong,
        }
    }
}

// How many bytes are read at once.
const ROOM: usize = 65536;

// The input, and what was read of it: the bytes from `at` to `end` are still to be taken.
#[derive(Drop)]
pub struct Lines {
    from: Stdin,
    input: [u8; ROOM],
    at: usize,
    end: usize,
    ghost in_order: { at ≤ end },
    ghost in_room: { end ≤ 65536 },
}

impl Lines {
    // Nothing is read yet.
    pub fn new(from: Stdin) -> Lines {
        Lines {
            from,
            input: [0; ROOM],
            at: 0,
            end: 0,
        }
    }

    // Reads what can be read now: how many bytes, 0 at the input's end. A read that fails is its end.
    fn refill(&mut self) -> usize
        ensures { (self.new.at ≤ 0) × (self.new.end ≤ result) × (result ≤ self.new.end) }
    {
        let n = self.from.read(&mut self.input).unwrap_or(0);
        self.at = 0;
        self.end = n;
        n
    }

    // The next line into the front of a buffer, without the byte that ends it; none where the input has ended. What was read is taken as far
    // as the line goes, at once. No run uses up the steps.
    pub fn next(&mut self, room: &mut [u8]) -> Option<Line>
        ensures { IfSome result (Within room.new) }
    {
        let mut line = Line::Taken(0);
        for _ in 0..u64::MAX {
            if self.at == self.end && self.refill() == 0 {
                break;
            }
            let waiting = &self.input[self.at..self.end];
            if let Some(n) = waiting.iter().position(|b| *b == b'\n') {
                line = line.with(&waiting[..n], room);
                self.at += n + 1;
                return Some(line);
            }
            line = line.with(waiting, room);
            self.at = self.end;
        }
        if line == Line::Taken(0) {
            return None;
        }
        Some(line)
    }
}
