// The cells of a session: posts, takes, and what comes next. Everything that a run changes stands in one array.
#![tactic(auto)]

ghost use Rattle.std.specs.Prelude.{◌≡◌, ℕ, ◌+◌, ◌*◌, ◌/◌, ◌^◌, ◌≤◌, ◌<◌, length, get_or, is_ok, IfErr};
ghost use Rattle.refusal.specs.declared.Reason.TheVariants.{Pending};
ghost use Rattle.cells.specs.Cells.{truth, pending_of, pendings, Fit, Posted, Reached, Took, ComesNext};
ghost use Rattle.cells.specs.Inside.Moves.{Cut, Dropped, Nearer, Seen};

use refusal::Reason;

// Of the count changes from base on, sets those at t or later to zero and says how many are left.
fn cut(cells: &mut [u64; 1152], base: usize, count: usize, t: u64) -> usize
    requires cells_len { length cells.old ≡ 1152 }
    requires count_bound { base + count ≤ 1152 }
    requires by_index { (i j : ℕ) → i < j → j < count → get_or cells.old (base + i) 0 / 2 < get_or cells.old (base + j) 0 / 2 }
    ensures { Cut cells.old base count t result cells.new }
{
    for n in (0..count).rev() {
        let at = base + n;
        if cells[at] / 2 < t {
            return n + 1;
        }
        cells[at] = 0;
    }
    0
}

// Posts a value (0 or 1) for a signal at a time; a 17th pending change is refused, and then nothing changes.
pub fn post(cells: &mut [u64; 1152], signal: usize, time: u64, value: u64) -> Result<(), Reason>
    requires fit { Fit cells.old }
    requires signal_bound { signal < 64 }
    requires time_bound { time ≤ 2000000000000000000 }
    requires value_bound { value ≤ 1 }
    ensures posted { Posted cells.old signal time (truth value) (is_ok result) cells.new }
    ensures reason { IfErr result (λ e. e ≡ Pending) }
{
    let top = 64 + signal;
    let base = 128 + signal * 16;
    let count = cells[top] as usize;
    let m = cut(cells, base, count, time);
    if 16 <= m {
        return Err(Reason::Pending);
    }
    let at = base + m;
    cells[at] = time * 2 + value;
    cells[top] = (m + 1) as u64;
    Ok(())
}

// Drops the first of a signal's count changes. The cells behind them are zero, so that all sixteen are moved: a fixed number of moves
// compiles to no loop.
fn drop_first(cells: &mut [u64; 1152], base: usize, count: usize)
    requires cells_len { length cells.old ≡ 1152 }
    requires base_bound { base + 16 ≤ 1152 }
    requires by_index { (i : ℕ) → count ≤ i → i < 16 → get_or cells.old (base + i) 0 ≡ 0 }
    ensures { Dropped cells.old base cells.new }
{
    if count == 1 {
        cells[base] = 0;
        return;
    }
    cells.copy_within(base + 1..base + 16, base);
    let last = base + 15;
    cells[last] = 0;
}

// Takes a signal's change at a time out, gives the signal that value, and says whether it is another than before.
pub fn take(cells: &mut [u64; 1152], signal: usize, time: u64) -> bool
    requires fit { Fit cells.old }
    requires signal_bound { signal < 64 }
    requires reached { Reached time (pending_of cells.old signal) }
    ensures { Took cells.old signal time result cells.new }
{
    let top = 64 + signal;
    let base = 128 + signal * 16;
    let count = cells[top] as usize;
    if count == 0 {
        return false;
    }
    let x = cells[base];
    if x / 2 != time {
        return false;
    }
    drop_first(cells, base, count);
    cells[top] = (count - 1) as u64;
    let old = cells[signal];
    let new = x % 2;
    cells[signal] = new;
    old != new
}

// The word with bit k alone.
pub fn one(k: u64) -> u64
    requires { k < 64 }
    ensures { result ≡ 1 * 2 ^ k }
{
    1 << k
}

// The bits of a word that are set: their places, in rising order.
#[derive(Drop)]
pub struct Bits(pub u64);

impl Iterator for Bits {
    ghost use Rattle.std.specs.Iterator.{at_most};
    ghost use Rattle.cells.specs.Inside.Places.{NextBit};

    type Item = usize;

    ghost next_gives = { NextBit };

    ghost remaining = { λ bits. at_most bits.0 };

    #[inline(always)]
    fn next(&mut self) -> Option<usize> {
        if self.0 == 0 {
            return None;
        }
        let place = u64::trailing_zeros(self.0);
        self.0 = self.0 ^ one(place as u64);
        Some(place as usize)
    }
}

// What comes next: a time, and a word of the signals that have a change then.
#[derive(Clone, Copy, Debug, PartialEq, Eq)]
pub struct Coming {
    pub time: u64,
    pub due: u64,
}

// Of what comes next, and a signal's first time with its bit, the earlier; both, where they are the same. In this form it
// compiles to no jump: which one is earlier cannot be foreseen.
fn nearer(next: Coming, first: u64, bit: u64) -> Coming
    ensures { Nearer first bit next.time next.due result }
{
    let mut time = next.time;
    let mut due = next.due;
    if first < time {
        time = first;
        due = 0;
    }
    if first == time {
        due = due | bit;
    }
    Coming { time, due }
}

// One signal more, with its bit: its first change may be earlier than those before.
fn earlier(cells: &[u64; 1152], signal: usize, bit: u64, next: Coming) -> Coming
    requires fit { Fit cells.now }
    requires signal_bound { signal < 64 }
    requires bit_value { bit ≡ 1 * 2 ^ signal }
    requires seen { Seen cells.now signal next }
    ensures { Seen cells.now (signal + 1) result }
{
    let top = 64 + signal;
    if cells[top] == 0 {
        return next;
    }
    let base = 128 + signal * 16;
    nearer(next, cells[base] / 2, bit)
}

// What comes next for so many signals, if anything is pending.
pub fn comes_next(cells: &[u64; 1152], count: usize) -> Option<Coming>
    requires fit { Fit cells.now }
    requires count_bound { count ≤ 64 }
    ensures { ComesNext (pendings count cells.now) result }
{
    let mut next = Coming {
        time: u64::MAX,
        due: 0,
    };
    // The bit is carried along: a shift by a number that is not constant takes longer.
    let mut bit: u64 = 1;
    for signal in 0..count {
        next = earlier(cells, signal, bit, next);
        bit = bit << 1;
    }
    if next.due == 0 { None } else { Some(next) }
}
