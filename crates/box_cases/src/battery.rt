// The battery swap: forty payments in a journal of 16 slots. In the middle the clock starts at the epoch again, while the host's date goes on; releases
// arrive late and twice; the journal is full for a while. Nothing is lost.
use call_records::Script;
use dates::Date;
use held::Told;
use payer::Terms;
use plays::{Totals, Unplayed};
use samples::{EVERY, NONE};
use say::Output;

// The spring, a byte a call: `p` a payment by a booking, `s` one by a swipe, `?` a record of no known kind, any other a release up to its number less
// that of `@`: D is 4.
const SPRING: [u8; 50] = *b"pspspspspspsDpspspspspsJJpspspsIZpspspspspspspsa~?";

// ---- the script

// What the clock says at call n, two days after the one before; the battery is changed before the 23rd, unless it is good.
fn clock_at(n: u8, good: bool) -> u32 {
    if good || n < 22 {
        return 1740787200 + 172800 * (n as u32);
    }
    172800 * ((n - 22) as u32)
}

fn day_of(month: u32, day: u32) -> Date {
    Date {
        year: 2025,
        month,
        day,
    }
}

// The host's date at call n, two days after the one before, whatever the clock says: from 1 March to 7 June.
fn date_at(n: u8) -> Date {
    let passed = 2 * (n as u32);
    if passed < 31 {
        return day_of(3, passed + 1);
    }
    if passed < 61 {
        return day_of(4, passed - 30);
    }
    if passed < 92 {
        return day_of(5, passed - 60);
    }
    day_of(6, passed - 91)
}

// Call n of the spring. No two payments have the same amount, so that one for another would show.
fn call(script: &mut Script<6400>, n: u8, b: u8, good: bool) {
    let amount = 100 + 10 * (n as u32);
    let clock = clock_at(n, good);
    match b {
        b'p' => script.book(amount, clock),
        b's' => script.swipe2(call_records::w11(amount, date_at(n), clock)),
        0..=63 => script.unknown(),
        _ => script.release((b - 64) as u32),
    }
}

fn spring(good: bool) -> Script<6400> {
    let mut script: Script<6400> = Script::new();
    for (n, &b) in SPRING.iter().enumerate() {
        call(&mut script, n as u8, b, good);
    }
    script
}

// ---- what it comes to

// Whether what was booked is what was released and what is held.
fn all_there(takings: u64, remitted: u64, held: u64) -> bool {
    if takings < held {
        return false;
    }
    takings - held == remitted
}

fn counts(out: &mut Output, t: Totals, left: Told) {
    let numbers = [
        t.booked,
        t.takings,
        t.released,
        t.remitted,
        left.count as u64,
        left.sum,
        t.refused,
        t.skipped,
    ];
    say::sentence(
        out,
        b"booked # of #, released # of #, held # of #, refused #, skipped #",
        &numbers,
    );
}

fn outcome(out: &mut Output, t: Totals, left: Told) {
    counts(out, t, left);
    if all_there(t.takings, t.remitted, left.sum) {
        say::words(out, b": nothing lost\n");
    } else {
        say::words(out, b": LOST\n");
    }
}

pub fn unplayed(out: &mut Output, why: Unplayed) {
    match why {
        Unplayed::NotWhole => say::words(out, b"no whole number of records\n"),
        Unplayed::TooLong => say::words(out, b"too many records\n"),
    }
}

// The totals of a script, and what the journal holds after it.
pub fn told(out: &mut Output, t: Totals, journal: &[u8]) {
    match held::tell(journal) {
        Ok(left) => outcome(out, t, left),
        Err(why) => say::refused(out, why),
    }
}

// A table of one range that every card fits, and a list that blocks none.
pub fn terms() -> Terms<'static> {
    Terms {
        site: &EVERY,
        acquirer: b"",
        hot: &NONE,
        digits: 16,
    }
}

// A script played on a journal, with scratch for either track.
pub fn played(out: &mut Output, script: &[u8], journal: &mut [u8]) {
    let mut scratch = [0u8; 76];
    match replay::replay(script, terms(), &mut scratch, journal) {
        Ok(t) => told(out, t, journal),
        Err(why) => unplayed(out, why),
    }
}

// The first n calls, played on an all-zero journal.
fn after(out: &mut Output, words: &[u8], script: &[u8], n: u8) {
    let mut journal = [0u8; 512];
    say::words(out, words);
    played(
        out,
        text::piece(script, 0, 128 * (n as usize)),
        &mut journal,
    );
}

fn until_full(out: &mut Output, script: &[u8]) {
    after(out, b"the first four released: ", script, 13);
    after(out, b"the journal full: ", script, 21);
    after(
        out,
        b"two refused, the battery changed between them: ",
        script,
        23,
    );
    after(out, b"a release, late: ", script, 24);
    after(out, b"the same once more: ", script, 25);
}

fn from_then_on(out: &mut Output, script: &[u8]) {
    after(out, b"full again: ", script, 31);
    after(out, b"an older release: ", script, 32);
    after(out, b"all released: ", script, 33);
    after(out, b"at the end: ", script, 50);
}

fn play(out: &mut Output, good: bool) {
    let script = spring(good);
    until_full(out, script.written());
    from_then_on(out, script.written());
}

pub fn run(out: &mut Output) {
    say::words(
        out,
        b"\n# The battery swap: forty payments in a journal of 16 slots\n",
    );
    play(out, false);
    say::words(out, b"# The same with a good battery\n");
    play(out, true);
}
