// The lines of a lock's file, in which each process says who it is: its number, when it started, and the boot that it started in. For the crates
// above: all of it is inner.
#![tactic(auto)]

ghost use Rattle.std.specs.Prelude.{◌≡◌, ◌≤◌, length};
ghost use Rattle.lock_lines.specs.Stat.{after_name, start_time};
ghost use Rattle.lock_lines.specs.Line.{blank_line, fits, signed, is_now};

// ---- what the system tells of a process

// What follows the name in a process's stat line. The name stands in parentheses and may hold any, so the last one ends it.
fn after_name(stat: &[u8]) -> &[u8]
    ensures { result.now ≡ after_name stat.now }
{
    let mut at = stat.len();
    for (i, &b) in stat.iter().enumerate() {
        let closes = b == b')';
        if closes {
            at = i + 1;
        }
    }
    &stat[at..]
}

// When a process started, field 22 of its stat line; empty where it has ended (state Z or X, field 3).
#[tactic(auto, unfolding(crate::specs::Stat::start_time, crate::specs::Stat::ended))]
pub fn start_time(stat: &[u8]) -> &[u8]
    ensures { result.now ≡ start_time stat.now }
{
    let fields = after_name(stat);
    let state = script::word(fields, 1);
    if script::is_same(state, b"Z") || script::is_same(state, b"X") {
        return &stat[..0];
    }
    script::word(fields, 20)
}

// ---- a line of the queue

// A line's bytes before anything is written into it: spaces, and the line feed that ends it.
#[tactic(auto, unfolding(crate::specs::Line::blank_line))]
pub fn blank() -> [u8; 128]
    ensures { (result ≡ blank_line) × (128 ≡ length result) }
{
    let mut line = [b' '; 128];
    line[127] = b'\n';
    line
}

// Writes a process's line into a blank one; false where what should stand in it isn't known, or doesn't fit.
#[tactic(auto, unfolding(crate::specs::Line::fits, crate::specs::Line::signed, crate::specs::Line::line_of))]
pub fn sign(pid: &[u8], start: &[u8], boot: &[u8], line: &mut [u8]) -> bool
    requires { 128 ≤ length line.old }
    ensures value { result ≡ fits pid.now start.now boot.now }
    ensures line_after { line.new ≡ signed line.old pid.now start.now boot.now }
{
    if start.is_empty() || 20 < pid.len() || 20 < start.len() || 36 < boot.len() {
        return false;
    }
    text::put_at(line, 0, pid);
    text::put_at(line, 21, start);
    text::put_at(line, 42, boot);
    true
}

// Whether a line is that of the process of this number and start time, in this boot, which the own line names.
#[tactic(auto, unfolding(crate::specs::Line::is_now, crate::specs::Line::signed))]
pub fn is_now(line: &[u8], own: &[u8], pid: &[u8], start: &[u8]) -> bool
    ensures { result ≡ is_now line.now own.now pid.now start.now }
{
    let mut fresh = blank();
    if !sign(pid, start, text::piece(own, 42, 36), &mut fresh) {
        return false;
    }
    script::is_same(line, &fresh)
}
