// What a call of the library hands over to C (include/goltwarden.h): 0 or the number of the refusal; on a refusal nothing behind a pointer changes.
// The functions of the interface stand in `c_numbers`, `c_stripe` and `c_box`.
#![tactic(auto)]

ghost use Rattle.reasons.specs.Reasons.{said};
ghost use Rattle.hands.specs.Hands.{Hands};

use reasons::Reason;

// Hands over what a call answers: 0, and the value into its place, or the number of the refusal.
pub fn hand<T: Copy>(answer: Result<T, Reason>, place: &mut T) -> u32
    ensures { Hands (said answer) place.old (λ v. v) result place.new }
{
    match answer {
        Ok(v) => {
            *place = v;
            0
        }
        Err(why) => reasons::number(why),
    }
}
