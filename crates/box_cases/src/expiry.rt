// Cards that expire in December 2025, swiped on the host's dates: the last two days of the year, the day after them, an earlier day again, and two that
// are no real days. A slot stays free, so that nothing but the date refuses. What the clock says makes no difference.
use crate::battery;
use call_records::{Script, e1, w11};
use dates::Date;
use say::Output;

fn date(year: u32, month: u32, day: u32) -> Date {
    Date { year, month, day }
}

fn calls(clock: u32) -> Script<1024> {
    let mut script: Script<1024> = Script::new();
    script.swipe2(w11(100, date(2025, 12, 30), clock));
    script.swipe1(e1(110, date(2025, 12, 31), clock));
    script.swipe2(w11(120, date(2026, 1, 1), clock));
    script.release(1);
    script.swipe1(e1(140, date(2026, 1, 1), clock));
    script.swipe1(e1(150, date(2025, 12, 31), clock));
    script.swipe2(w11(160, date(2025, 12, 32), clock));
    script.swipe1(e1(170, date(0, 0, 0), clock));
    script
}

fn by_clock(out: &mut Output, words: &[u8], clock: u32) {
    let script = calls(clock);
    let mut journal = [0u8; 128];
    say::words(out, words);
    battery::played(out, script.written(), &mut journal);
}

pub fn run(out: &mut Output) {
    say::words(
        out,
        b"\n# Cards that expire, by the host's dates: two swipes, two of expired cards, one on an earlier day again, two on no real day\n",
    );
    by_clock(out, b"the clock on 31 December 2025: ", 1767139200);
    by_clock(out, b"the clock at the epoch: ", 0);
    by_clock(out, b"the clock at its end: ", 4294967295);
}
