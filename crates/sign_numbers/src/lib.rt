// The sign of an orientation or of a circle by number, for the C interface.
#![tactic(auto)]

ghost use Rattle.std.specs.Prelude.{◌≡◌};
ghost use Rattle.signs.specs.Answers.{whole_number};

use signs::Sign;

// -1, 0, 1, or 2 for out of range
pub fn number_of(answer: Option<Sign>) -> i32
    ensures { result ≡ whole_number answer }
{
    match answer {
        Some(s) => s.as_i32(),
        None => 2,
    }
}
