// Worked cases of many calls of the box: the battery swap, both tracks in one script, and cards that expire.
#![tactic(auto)]

pub mod battery;
mod expiry;
mod tracks;

use say::Output;

pub fn run(out: &mut Output) {
    battery::run(out);
    tracks::run(out);
    expiry::run(out);
}
