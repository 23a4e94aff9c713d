// The numbers of the refusals, for those who print or return one.

#![tactic(auto)]

ghost use Rattle.std.specs.Prelude.{◌≡◌, ◌<◌};
ghost use Rattle.meaning.specs.Calls.{number_of};

use meaning::Refusal;

pub fn number(r: Refusal) -> u64
    ensures { (result ≡ number_of r) × (result < 16) }
{
    // a match and no cast of the enum: a number belongs to its name, wherever that stands in the list
    match r {
        Refusal::BadContents => 1,
        Refusal::TooLarge => 2,
        Refusal::BadStrings => 3,
        Refusal::BadValues => 4,
        Refusal::BadPoints => 5,
        Refusal::BadNodes => 6,
        Refusal::NoSuchPoint => 7,
        Refusal::NoSuchNode => 8,
        Refusal::BadStart => 9,
        Refusal::BadLimits => 10,
        Refusal::StepsExhausted => 11,
        Refusal::RoomExhausted => 12,
        Refusal::BadOutput => 13,
        Refusal::OutputTooShort => 14,
        Refusal::ListTooShort => 15,
    }
}
