// What the kind of an instruction says of it, and whether its words keep its kind's sizes.
ghost use Rattle.std.specs.Prelude.{◌≡◌};
ghost use Rattle.laws.specs.Decides.{Decides};
ghost use Rattle.fitness.specs.Inside.Parts.{signals, instructions, Few};
ghost use Rattle.fitness.specs.Inside.Kinds.{takes_of, leaves_of, about_below, delay_below, Legal, Legals};

use kind::Kind;

const ABOVE_LONGEST: u64 = 1_000_000_000_000_000_001;

// By kind, how many operands an instruction takes.
// Kept: with a `match` over the kinds in place of the three tables fit_table took an eighth longer.
const TAKES: [u8; 12] = [0, 0, 1, 2, 2, 2, 2, 2, 2, 1, 1, 0];
// By kind, what an instruction is about is below this, or, where it is a signal, below the number of signals.
const ABOUT: [u64; 12] = [0, 2, 1, 1, 1, 1, 1, 1, 1, 0, 4097, 4097];
// By kind, its delay is below this.
const DELAY: [u64; 12] = [1, 1, 1, 1, 1, 1, 1, 1, 1, ABOVE_LONGEST, 1, 1];

// How many operands an instruction takes.
pub fn takes_of(kind: Kind) -> u8
    ensures { result ≡ takes_of kind }
{
    TAKES[kind as usize]
}

// How many operands an instruction leaves.
pub fn leaves_of(kind: Kind) -> u8
    ensures { result ≡ leaves_of kind }
{
    match kind {
        Kind::Assignment | Kind::Test | Kind::Skip => 0,
        _ => 1,
    }
}

fn about_below(signals: u64, kind: Kind) -> u64
    ensures { result ≡ about_below signals kind }
{
    match kind {
        Kind::Name | Kind::Assignment => signals,
        _ => ABOUT[kind as usize],
    }
}

fn delay_below(kind: Kind) -> u64
    ensures { result ≡ delay_below kind }
{
    DELAY[kind as usize]
}

// Whether the words of an instruction keep their kinds and sizes.
fn legal(signals: u64, operation: u64, delay: u64) -> bool
    ensures { Decides result (Legal signals operation delay) }
{
    match Kind::try_from(operation % 16) {
        Ok(kind) => operation / 16 < about_below(signals, kind) && delay < delay_below(kind),
        Err(_) => false,
    }
}

// Whether those of all instructions do.
pub fn legals(words: &[u64]) -> bool
    requires { Few words.now }
    ensures { Decides result (Legals words.now (signals words.now) (instructions words.now)) }
{
    let signals = words[0];
    let instructions = words[2] as usize;
    let operations = &words[195..195 + instructions];
    let delays = &words[4291..4291 + instructions];
    operations
        .iter()
        .zip(delays)
        .all(|(&operation, &delay)| legal(signals, operation, delay))
}
