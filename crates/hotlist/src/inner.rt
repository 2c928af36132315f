// For the crates above: the list's check, and the search in a list that passed it.
ghost use Rattle.std.specs.Prelude.{◌≡◌, true, ◌^◌, ◌≤◌, length};
ghost use Rattle.text.specs.Bytes.{all_digits};
ghost use Rattle.pan.specs.Pan.{pan_length};
ghost use Rattle.hotlist.specs.Hotlist.{rises, list_ok, stands, listed};

// The least number that is too large for so many digits.
fn too_large(digits: u32) -> u64
    requires { pan_length digits ≡ true }
    ensures { result ≡ 10 ^ digits }
{
    match digits {
        13 => 10000000000000,
        14 => 100000000000000,
        15 => 1000000000000000,
        16 => 10000000000000000,
        17 => 100000000000000000,
        18 => 1000000000000000000,
        _ => 10000000000000000000,
    }
}

// Whether each number is below the next. Looks at every number, with no way out in between, as text::all_digits does.
fn rises(list: &[u64]) -> bool
    requires { length list.now ≤ 8192 }
    ensures { result ≡ rises list.now }
{
    let mut rising = true;
    for i in 1..list.len() {
        rising = rising & (list[i - 1] < list[i]);
    }
    rising
}

// Whether the list and its PAN length are allowed. Of a list that rises the last number is the largest.
#[tactic(auto, unfolding(crate::specs::Hotlist::list_ok))]
pub fn list_ok(list: &[u64], digits: u32) -> bool
    ensures { result ≡ list_ok list.now digits }
{
    if 8192 < list.len() {
        return false;
    }
    if digits < 13 {
        return false;
    }
    if 19 < digits {
        return false;
    }
    if !rises(list) {
        return false;
    }
    match list.last() {
        None => true,
        Some(&last) => last < too_large(digits),
    }
}

// What a search says: whether the number stands in the list, and how many numbers were looked at.
#[derive(Clone, Copy)]
pub struct Searched {
    pub found: bool,
    pub looks: u32,
}

// Searches a list by halving what is left.
fn search(list: &[u64], x: u64) -> Searched
    requires { (length list.now ≤ 8192) × (rises list.now ≡ true) }
    ensures { (result.found ≡ stands x list.now) × (result.looks ≤ 14) }
{
    let mut low = 0;
    let mut high = list.len();
    let mut looks = 0;
    while low < high {
        let middle = low + (high - low) / 2;
        let y = list[middle];
        looks += 1;
        if y == x {
            return Searched { found: true, looks };
        }
        if y < x {
            low = middle + 1;
        } else {
            high = middle;
        }
    }
    Searched {
        found: false,
        looks,
    }
}

// Whether a PAN is in a list that passed.
#[tactic(auto, unfolding(crate::specs::Hotlist::listed))]
pub fn is_listed(list: &[u64], digits: u32, pan: &[u8]) -> bool
    requires { (list_ok list.now digits ≡ true) × (pan_length (length pan.now) ≡ true) × (all_digits pan.now ≡ true) }
    ensures { result ≡ listed list.now digits pan.now }
{
    pan.len() as u32 == digits && search(list, text::decimal(pan)).found
}
