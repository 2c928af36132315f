// Box and host over the radio: five payments in a journal of three slots, most of them at the epoch, and an air of four places. First the host hears
// nothing that it wants; then records and answers arrive late, twice and out of order; in the end all have arrived. The swipes are on the last two days
// on which their cards are good.
#![tactic(auto)]

use box_cases::battery;
use call_records::{Script, e1, w11};
use dates::Date;
use exchange::Sums;
use say::Output;

// ---- the script

fn in_december(day: u32) -> Date {
    Date {
        year: 2025,
        month: 12,
        day,
    }
}

// Three payments fill the journal, and a fourth is refused with 18. The host hears noise from a place that nothing was sent into, and answers nothing:
// an answer of 0 was never sent. Record 1 is sent into a place that isn't there, and lost. Record 2 isn't wanted yet; the host answers 0, which meets 20
// at the box. An answer that was never sent does nothing, and a release written into the script is passed over.
fn unheard(script: &mut Script<4480>) {
    script.book(100, 1767052800);
    script.book(200, 0);
    script.swipe2(w11(300, in_december(30), 0));
    script.book(350, 0);
    script.deliver(0);
    script.answer(0);
    script.send(1, 9);
    script.deliver(9);
    script.send(2, 1);
    script.deliver(1);
    script.answer(0);
    script.answer(2);
    script.release(3);
}

// Record 1 is sent again and arrives twice; its answer releases it, and payment 4 is booked over it. Record 2 arrives once more and is taken now; record 1
// arrives once more, of which the box has nothing left. The answer of 4 was never sent.
fn late(script: &mut Script<4480>) {
    script.send(1, 0);
    script.deliver(0);
    script.deliver(0);
    script.answer(1);
    script.book(400, 1767139200);
    script.deliver(1);
    script.deliver(0);
    script.answer(4);
}

// Record 4 arrives before record 3, and again after it. Its answer arrives, then an older one, then the same again.
fn caught_up(script: &mut Script<4480>) {
    script.send(3, 2);
    script.send(4, 3);
    script.deliver(3);
    script.deliver(2);
    script.deliver(3);
    script.answer(4);
    script.answer(2);
    script.answer(4);
}

// A swipe that can't be read is refused; payment 5 is booked by the next one, sent, taken and released. The answer of 0 arrives again.
fn one_more(script: &mut Script<4480>) {
    script.swipe1(w11(450, in_december(31), 0));
    script.swipe1(e1(500, in_december(31), 0));
    script.send(5, 2);
    script.deliver(2);
    script.answer(5);
    script.answer(0);
}

// ---- what it comes to

fn agreed(out: &mut Output, sums: Sums, journal: &[u8]) {
    let ledger = sums.ledger;
    let numbers = [ledger.taken as u64, ledger.total];
    say::sentence(out, b"taken # of #, ", &numbers);
    battery::told(out, sums.totals, journal);
}

// The first so many bytes of a script, run on an all-zero journal and a fresh ledger.
fn after(out: &mut Output, words: &[u8], script: &[u8], n: usize, air: &mut [u8]) {
    let mut scratch = [0u8; 76];
    let mut journal = [0u8; 96];
    say::words(out, words);
    match exchange::run(
        text::piece(script, 0, n),
        battery::terms(),
        &mut scratch,
        &mut journal,
        air,
        ledger::fresh(),
    ) {
        Ok(sums) => agreed(out, sums, &journal),
        Err(why) => battery::unplayed(out, why),
    }
}

fn stages(out: &mut Output, script: &[u8], air: &mut [u8]) {
    after(out, b"nothing wanted has arrived: ", script, 128 * 13, air);
    after(
        out,
        b"two taken, one answer arrived: ",
        script,
        128 * 21,
        air,
    );
    after(out, b"all arrived: ", script, 128 * 35, air);
}

fn again(out: &mut Output, script: &[u8], air: &mut [u8]) {
    after(
        out,
        b"the first of it again, the air as it was left: ",
        script,
        128 * 13,
        air,
    );
    after(out, b"a byte too few: ", script, 128 * 35 - 1, air);
}

// All on one air, which each run clears first: record 1, left in its first place, isn't heard when the first events are run again.
fn run_all(out: &mut Output, script: &[u8]) {
    let mut air = [0u8; 128];
    stages(out, script, &mut air);
    again(out, script, &mut air);
}

pub fn run(out: &mut Output) {
    let mut script: Script<4480> = Script::new();
    unheard(&mut script);
    late(&mut script);
    caught_up(&mut script);
    one_more(&mut script);
    say::words(
        out,
        b"\n# Box and host over the radio: five payments in a journal of three slots\n",
    );
    run_all(out, script.written());
}
