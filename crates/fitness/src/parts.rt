// Ranges of a table's words, its counts, and the ends of its processes.
ghost use Rattle.std.specs.Prelude.{◌≡◌, ◌+◌, ◌^◌, ◌≤◌, length};
ghost use Rattle.laws.specs.Decides.{Decides};
ghost use Rattle.layout.proofs.Tables.{decode_table};
ghost use Rattle.fitness.specs.Inside.Parts.{processes, instructions, Within, Few, Rows, Used, Unused};

// Whether the words from one place up to another are at most top.
pub fn within(words: &[u64], from: usize, upto: usize, top: u64) -> bool
    requires { upto ≤ length words.now }
    ensures { Decides result (Within words.now from upto top) }
{
    words[..upto].iter().skip(from).all(|&word| word <= top)
}

// Whether the words from one place up to another are zero. With no way out of the loop it runs on wide registers.
// Kept: beside `within`, which decides the same with a top of 0: tried in its place, a call on lent words took two to three times as long.
pub fn zeros(words: &[u64], from: usize, upto: usize) -> bool
    requires from_le_upto { from ≤ upto }
    requires upto_in_bounds { upto ≤ length words.now }
    ensures { Decides result (Within words.now from upto 0) }
{
    let mut all = 0;
    for word in &words[from..upto] {
        all |= *word;
    }
    all == 0
}

// One less than 2 to the n.
fn most_of(n: u64) -> u64
    requires { n ≤ 64 }
    ensures { result + 1 ≡ 2 ^ n }
{
    match 1u64.checked_shl(n as u32) {
        Some(power) => power - 1,
        None => u64::MAX,
    }
}

// Whether a table's words are long enough, and its counts keep the sizes.
pub fn few(words: &[u64]) -> bool
    ensures { Decides result (Few words.now) }
{
    8387 <= words.len() && words[0] <= 64 && words[1] <= 64 && words[2] <= 4096
}

// Whether starting values are yes-or-nos, and signals wake no process that is not there.
pub fn used(words: &[u64]) -> bool
    requires { Few words.now }
    ensures { Decides result (Used words.now) }
{
    let signals = words[0] as usize;
    let top = most_of(words[1]);
    within(words, 3, 3 + signals, 1) && within(words, 67, 67 + signals, top)
}

// Whether unused words are zero.
pub fn unused(words: &[u64]) -> bool
    requires { Few words.now }
    ensures { Decides result (Unused words.now) }
{
    let signals = words[0] as usize;
    let processes = words[1] as usize;
    let instructions = words[2] as usize;
    zeros(words, 3 + signals, 67)
        && zeros(words, 67 + signals, 131)
        && zeros(words, 131 + processes, 195)
        && zeros(words, 195 + instructions, 4291)
        && zeros(words, 4291 + instructions, 8387)
}

// Whether the processes' instructions follow one another without gap and cover all.
pub fn ends(words: &[u64]) -> bool
    requires { Few words.now }
    ensures { Decides result (Rows (decode_table words.now) (processes words.now) (instructions words.now)) }
{
    let processes = words[1] as usize;
    let ends = &words[131..131 + processes];
    let last = ends.last().copied().unwrap_or(0);
    ends.is_sorted() && last == words[2]
}
