// What each slot of a journal says of itself.
ghost use Rattle.std.specs.Prelude.{◌≤◌, length};

use reasons::Reason;
use say::Output;

fn length_of(out: &mut Output, n: usize) {
    if 65536 < n {
        say::words(out, b" (over 65536");
    } else {
        say::value(out, b" (", n as u64);
    }
}

// Refuses a journal of a wrong length, and says how many bytes it has.
pub fn wrong_length(out: &mut Output, n: usize) {
    say::refusal(out, Reason::BadJournal);
    length_of(out, n);
    say::words(
        out,
        b" bytes; a journal has 32 to 65536, a multiple of 32)\n",
    );
}

// How many slots say x of themselves.
fn how_many(states: &[u8], x: u8) -> usize {
    states.iter().filter(|&&state| state == x).count()
}

// The line of slot k, where it is damaged.
fn damaged_slot(out: &mut Output, journal: &[u8], k: usize, state: u8)
    requires { k ≤ 2048 }
{
    if state != 3 {
        return;
    }
    say::sentence(out, b"damaged # ", &[k as u64]);
    say::hex(out, text::piece(journal, 32 * k, 32));
    say::line(out);
}

fn damaged(out: &mut Output, journal: &[u8], states: &[u8])
    requires { length states.now ≤ 2048 }
{
    for (k, &state) in states.iter().enumerate() {
        damaged_slot(out, journal, k, state);
    }
}

fn counts(out: &mut Output, states: &[u8]) {
    let numbers = [
        how_many(states, 0) as u64,
        how_many(states, 1) as u64,
        how_many(states, 2) as u64,
        how_many(states, 3) as u64,
    ];
    say::sentence(out, b"free # held # released # damaged #", &numbers);
}

// Ends a line with whether the journal is well formed.
pub fn verdict(out: &mut Output, well: bool) {
    if well {
        say::words(out, b" well formed\n");
    } else {
        say::words(out, b" not well formed\n");
    }
}

fn report(out: &mut Output, journal: &[u8], states: &[u8], well: bool)
    requires { length states.now ≤ 2048 }
{
    damaged(out, journal, states);
    counts(out, states);
    verdict(out, well);
}

// As many states as there are slots.
fn surveyed<'a>(journal: &[u8], states: &'a [u8]) -> &'a [u8]
    requires { length states.now ≤ 2048 }
    ensures { length result.now ≤ 2048 }
{
    &states[..states.len().min(journal.len() / 32)]
}

// 2,048 states are enough for any journal, so that nothing but its length is refused.
fn survey_in(out: &mut Output, journal: &[u8], states: &mut [u8])
    requires { length states.old ≤ 2048 }
{
    match surveys::survey(journal, states) {
        Ok(well) => report(out, journal, surveyed(journal, states), well),
        Err(_) => wrong_length(out, journal.len()),
    }
}

pub fn survey(out: &mut Output, journal: &[u8]) {
    let mut states = [0u8; 2048];
    survey_in(out, journal, &mut states);
}
