// Units of time, each a fixed number of femtoseconds.
ghost use Rattle.std.specs.Prelude.{◌≡◌, ◌<◌};
ghost use Rattle.words.specs.Unit.{spelling_of, femtoseconds_of, delay_of};

#[derive(Clone, Copy, Debug, PartialEq, Eq, Hash)]
pub enum TimeUnit {
    Fs,
    Ps,
    Ns,
    Us,
    Ms,
    Sec,
    Min,
    Hr,
}

impl TimeUnit {
    pub const FS: u64 = 1;

    pub const PS: u64 = 1_000;

    pub const NS: u64 = 1_000_000;

    pub const US: u64 = 1_000_000_000;

    pub const MS: u64 = 1_000_000_000_000;

    pub const SEC: u64 = 1_000_000_000_000_000;

    pub const MIN: u64 = 60 * TimeUnit::SEC;

    pub const HR: u64 = 60 * TimeUnit::MIN;
    // The longest delay and the latest stop.
    pub const LONGEST: u64 = 1_000_000_000_000_000_000;

    pub const ALL: [TimeUnit; 8] = [
        TimeUnit::Fs,
        TimeUnit::Ps,
        TimeUnit::Ns,
        TimeUnit::Us,
        TimeUnit::Ms,
        TimeUnit::Sec,
        TimeUnit::Min,
        TimeUnit::Hr,
    ];

    // The word of the vocabulary that the unit is.
    pub fn spelling(self) -> &'static [u8]
        ensures { result.now ≡ spelling_of self }
    {
        match self {
            TimeUnit::Fs => b"fs",
            TimeUnit::Ps => b"ps",
            TimeUnit::Ns => b"ns",
            TimeUnit::Us => b"us",
            TimeUnit::Ms => b"ms",
            TimeUnit::Sec => b"sec",
            TimeUnit::Min => b"min",
            TimeUnit::Hr => b"hr",
        }
    }

    // How many femtoseconds the unit has.
    pub fn size(self) -> u64
        ensures { (result ≡ femtoseconds_of self) × (0 < result) }
    {
        match self {
            TimeUnit::Fs => TimeUnit::FS,
            TimeUnit::Ps => TimeUnit::PS,
            TimeUnit::Ns => TimeUnit::NS,
            TimeUnit::Us => TimeUnit::US,
            TimeUnit::Ms => TimeUnit::MS,
            TimeUnit::Sec => TimeUnit::SEC,
            TimeUnit::Min => TimeUnit::MIN,
            TimeUnit::Hr => TimeUnit::HR,
        }
    }

    // So many of this unit, in femtoseconds, where that is at most the longest.
    pub fn femtoseconds(self, amount: u64) -> Option<u64>
        ensures { result ≡ delay_of amount self }
    {
        let size = self.size();
        if amount <= TimeUnit::LONGEST / size {
            Some(amount * size)
        } else {
            None
        }
    }
}
