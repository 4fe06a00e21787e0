// The stop words of a program: an integer and a unit, as in a text.
#![tactic(auto)]

ghost use Rattle.std.specs.Prelude.{◌≡◌};
ghost use Rattle.stop.specs.Stop.{unit_of, stop_of};

use lexis::run::all_digits;
use refusal::Reason;
use words::integer::time_of;
use words::unit::TimeUnit;
use words::vocabulary::same_word;

// The unit that a word is, if it is one.
pub fn unit_of(word: &[u8]) -> Option<TimeUnit>
    ensures { result ≡ unit_of word.now }
{
    TimeUnit::ALL
        .iter()
        .copied()
        .find(|unit| same_word(word, unit.spelling()))
}

// The stop that two argument words say, in femtoseconds.
pub fn stop_of(amount: &[u8], unit: &[u8]) -> Result<u64, Reason>
    ensures { result ≡ stop_of amount.now unit.now }
{
    if amount.is_empty() {
        return Err(Reason::Stop);
    }
    if !all_digits(amount) {
        return Err(Reason::Stop);
    }
    let scale = unit_of(unit).ok_or(Reason::Stop)?;
    time_of(amount, scale).ok_or(Reason::Stop)
}
