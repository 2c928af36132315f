// One step of a walk on a journal whose view is already made: for callers who hold no walker.
ghost use Rattle.std.specs.Prelude.{◌≡◌, ◌≤◌};
ghost use Rattle.slots.specs.Journal.{slots_of, Formed};
ghost use Rattle.walker.specs.Steps.{first_above, walk_place};

// The serial of the first held record above s in a journal with newest serial b, 0 for none.
pub fn first_above(j: &[u8], b: u32, s: u32) -> u32
    requires { Formed j.now (slots_of j.now) b }
    ensures { result ≡ first_above j.now b s }
{
    if b <= s {
        return 0;
    }
    let n = j.len() / 32;
    let low = slots::higher(slots::floor_of(n, b), s);
    let t = held::inner::tally(j, n, low, b);
    t.first
}

// Where the record of serial s begins, 0 for serial 0.
pub fn place_or_zero(j: &[u8], s: u32) -> u32
    requires { (1 ≤ slots_of j.now) × (slots_of j.now ≤ 2048) }
    ensures { result ≡ walk_place j.now s }
{
    if s == 0 {
        return 0;
    }
    slots::place_of(j.len() / 32, s) as u32
}
