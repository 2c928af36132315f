// Swipes of both tracks in one script: each stream as its own track, a release, and each stream as the other track.
use crate::battery;
use call_records::{Script, e1, w11};
use samples::DAY;
use say::Output;

fn calls() -> Script<640> {
    let mut script: Script<640> = Script::new();
    script.swipe2(w11(250, DAY, 0));
    script.swipe1(e1(300, DAY, 0));
    script.release(1);
    script.swipe2(e1(350, DAY, 0));
    script.swipe1(w11(400, DAY, 0));
    script
}

pub fn run(out: &mut Output) {
    let script = calls();
    let mut journal = [0u8; 64];
    say::words(
        out,
        b"\n# Both tracks in one script: each swiped as itself, the first released, each swiped as the other\n",
    );
    battery::played(out, script.written(), &mut journal);
}
