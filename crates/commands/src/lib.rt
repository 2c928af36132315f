// Line after line: which command it is, and who answers it.
#![tactic(auto)]

ghost use Rattle.std.specs.Prelude.{IfSome};
ghost use Rattle.lines.specs.Lines.{Within};

use keeping::Desk;
use lines::{Line, Lines};
use menu::{Command, Row};
use payments::Access;
use say::{Output, fields};
use waiting::Streams;

// ---- a line

// Answers a line whose command keeps nothing, given the journal where it can be used.
fn answer_only(out: &mut Output, row: Row, line: &[u8], desk: &Desk) {
    let journal = match desk.journal.access {
        Access::Lost => None,
        _ => Some(desk.journal.used()),
    };
    answers::answer(out, row, line, journal);
}

// Answers a line, and keeps what is to be kept from now on.
fn answer(out: &mut Output, line: &[u8], desk: &mut Desk) {
    let name = script::word(line, 0);
    let Some(row) = menu::find(name) else {
        return menu::unknown(out, name);
    };
    if !answers::is_clear(out, row, line) {
        return;
    }
    match row.command {
        Command::Tables(c) => keeping::on_tables(out, c, line, &mut desk.lists),
        Command::Hot(c) => keeping::on_hot(out, c, line, &mut desk.lists),
        Command::Date => desk.date = keeping::on_date(out, line, desk.date),
        Command::Fill(c) => keeping::in_place(out, c, line, &mut desk.journal),
        Command::Change(c) => keeping::change(out, c, line, desk),
        Command::Ledger(c) => desk.ledger = keeping::on_ledger(out, c, line, desk.ledger),
        _ => answer_only(out, row, line, desk),
    }
}

// Whether a line asks nothing: it is empty, or begins with #.
fn asks_nothing(line: &[u8]) -> bool {
    line.is_empty() || line[0] == b'#'
}

// Shows a line, where lines are shown.
fn show(out: &mut Output, line: &[u8], end: &[u8], shown: bool) {
    if shown {
        say::words(out, line);
        say::words(out, end);
    }
}

// Answers a line as it was typed.
fn take_typed(out: &mut Output, typed: &[u8], desk: &mut Desk) {
    if asks_nothing(typed) {
        return show(out, typed, b"\n", desk.shown);
    }
    show(out, typed, b": ", desk.shown);
    answer(out, script::untagged(typed), desk);
}

// ---- the run

// Takes the next line once what waits is written; where that can't be, no line is left to take.
fn next_line(out: &mut Output, lines: &mut Lines, room: &mut [u8], prompt: bool) -> Option<Line>
    ensures { IfSome result (Within room.new) }
{
    if prompt {
        say::words(out, b"> ");
    }
    if !out.flush() {
        return None;
    }
    lines.next(room)
}

// Answers standard input to its end, line by line. Each answer is written before the next line is read; once one can't be, no line is taken,
// so that no payment is taken that nobody hears of.
pub fn run(streams: Streams, desk: &mut Desk) {
    let mut out = Output::new(streams);
    let mut lines = Lines::new(streams.input);
    let mut room = [0u8; 180000];
    for _ in 0..u64::MAX {
        match next_line(&mut out, &mut lines, &mut room, desk.prompt) {
            Some(Line::Taken(n)) => take_typed(&mut out, script::trimmed(&room[..n]), desk),
            Some(Line::TooLong) => fields::unclear(&mut out, b"line too long"),
            None => break,
        }
    }
}
