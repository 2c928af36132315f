// Card numbers of 13 to 19 digits, and their masked text.
#![tactic(auto)]

ghost use Rattle.std.specs.Prelude.{◌≡◌, true, ◌++◌, ◌≤◌, length, drop, replicate};
ghost use Rattle.text.specs.Numbers.{put};
ghost use Rattle.pan.specs.Pan.{pan_length, front_shown, back_shown, masked, Masks};

use reasons::Reason;

// How many first digits of a PAN of n digits are shown.
#[tactic(auto, unfolding(crate::specs::Pan::front_shown))]
fn front_shown(n: usize) -> usize
    ensures { result ≡ front_shown n }
{
    6
}

// And how many last ones.
#[tactic(auto, unfolding(crate::specs::Pan::back_shown))]
fn back_shown(n: usize) -> usize
    ensures { result ≡ back_shown n }
{
    4
}

// Writes n stars over the front of the output.
fn write_stars(out: &mut [u8], n: usize)
    requires { n ≤ length out.old }
    ensures { out.new ≡ replicate n 42 ++ drop n out.old }
{
    out[..n].fill(b'*');
}

// Writes the masked text over the front of the output: stars, and the digits shown over them. No hidden digit is ever written.
fn write_masked(pan: &[u8], out: &mut [u8])
    requires { (pan_length (length pan.now) ≡ true) × (length pan.now ≤ length out.old) }
    ensures { out.new ≡ put out.old 0 (masked pan.now) }
{
    let n = pan.len();
    let front = front_shown(n);
    let back = n - back_shown(n);
    write_stars(out, n);
    text::put_at(out, 0, &pan[..front]);
    text::put_at(out, back, &pan[back..]);
}

// Masks a PAN into the front of the output.
#[tactic(auto, unfolding(crate::specs::Pan::mask_rule, crate::specs::Pan::mask_bytes))]
pub fn mask(pan: &[u8], out: &mut [u8]) -> Result<(), Reason>
    ensures { Masks pan.now out.old result out.new }
{
    let n = pan.len();
    if n < 13 {
        return Err(Reason::BadCount);
    }
    if 19 < n {
        return Err(Reason::BadCount);
    }
    if !text::all_digits(pan) {
        return Err(Reason::BadByte);
    }
    if out.len() < n {
        return Err(Reason::ShortOutput);
    }
    write_masked(pan, out);
    Ok(())
}
