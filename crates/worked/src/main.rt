// Shows document 01 and requests E1, E4 and E6 to E9: their cases and the outside vectors, one line a case, as `stdin` lists them; then the
// cases that no line can ask for.
#![tactic(auto)]

use keeping::Desk;
use waiting::{Output, Streams};

fn more(streams: Streams) {
    let mut out = Output::new(streams);
    part_cases::run(&mut out);
    length_cases::run(&mut out);
    list_cases::run(&mut out);
    box_cases::run(&mut out);
    radio_cases::run(&mut out);
    out.flush();
}

fn main(rt: HostRuntime) {
    let streams = Streams {
        input: rt.stdin(),
        output: rt.stdout(),
        errors: rt.stderr(),
    };
    let mut desk = Desk::new(true);
    commands::run(streams, &mut desk);
    more(streams);
}
