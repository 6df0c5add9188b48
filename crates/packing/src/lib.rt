// An answer as one number of 64 bits, for the C interface: a number in the upper half, and a value in the lower one.
#![tactic(auto)]

ghost use Rattle.std.specs.Prelude.{◌≡◌, ◌<◌, ◌≤◌, ◌+◌, ◌*◌};
ghost use Rattle.tables.specs.Answers.{breaks, of_refusal, of_verdict};
ghost use Rattle.row_numbers.specs.Numbers.{value_in, place_of};
ghost use Rattle.packing.specs.Packed.{shift, packed};

use tables::{Objection, Refusal};

fn halves(number: u32, value: usize) -> u64
    requires { (number ≤ 11) × (value < shift) }
    ensures { result ≡ number * shift + value }
{
    number as u64 * 4294967296 + value as u64
}

// A refusal's number and its place.
pub fn refusal(r: Refusal) -> u64
    requires { place_of r < shift }
    ensures { result ≡ packed (of_refusal r) }
{
    halves(row_numbers::number(r), row_numbers::place(r))
}

// The number of a broken rule, which may be any number.
pub fn broken(rule: u32) -> u64
    ensures { result ≡ packed (breaks rule) }
{
    rule as u64
}

// 0 for yes, the number of the lowest broken rule, or a refusal's number and its place.
pub fn verdict(answer: Result<(), Objection>) -> u64
    requires { value_in (of_verdict answer) < shift }
    ensures { result ≡ packed (of_verdict answer) }
{
    match answer {
        Ok(()) => 0,
        Err(Objection::Breaks(rule)) => broken(rule as u32),
        Err(Objection::Refused(r)) => refusal(r),
    }
}
