// The value of an integer of any number of digits, as far as it is of use, and the time that it says with a unit.
ghost use Rattle.std.specs.Prelude.{◌≡◌, ◌<◌};
ghost use Rattle.words.specs.Unit.{delay_of};
ghost use Rattle.words.specs.Integer.{digit_of, value_of, amount_of};

use crate::unit::TimeUnit;

// The value of a digit.
pub fn digit(byte: u8) -> u64
    ensures { (result ≡ digit_of byte) × (result < 256) }
{
    u64::from(byte.saturating_sub(b'0'))
}

// The value of a run of digits, where it is at most 10^18. It stops at the first digit that takes it above, so it never wraps.
pub fn amount_of(run: &[u8]) -> Option<u64>
    ensures { result ≡ amount_of run.now }
{
    let mut sum: u64 = 0;
    for byte in run {
        sum = sum * 10 + digit(*byte);
        if sum > TimeUnit::LONGEST {
            return None;
        }
    }
    Some(sum)
}

// So many of a unit, in femtoseconds, from the digits of the amount.
pub fn time_of(digits: &[u8], unit: TimeUnit) -> Option<u64>
    ensures { result ≡ delay_of (value_of digits.now) unit }
{
    unit.femtoseconds(amount_of(digits)?)
}
