// The number of a load's refusal, as the programs print it and as it goes to callers in C.
#![tactic(auto)]

ghost use Rattle.std.specs.Prelude.{◌≡◌};
ghost use Rattle.spec_file.specs.Refusal.{number};

use spec_file::Refusal;

pub fn refusal_number(k: Refusal) -> u8
    ensures { result ≡ number k }
{
    match k {
        Refusal::FileTooLong => 1,
        Refusal::BadByte => 2,
        Refusal::TooDeep => 3,
        Refusal::Ungrammatical => 4,
        Refusal::StringTooLong => 5,
        Refusal::TooMany => 6,
        Refusal::GivenAgain => 7,
        Refusal::UndefinedGroup => 12,
        Refusal::BadLevel => 8,
        Refusal::UnknownWord => 9,
        Refusal::BadCalculation => 10,
        Refusal::NoRoom => 11,
    }
}
