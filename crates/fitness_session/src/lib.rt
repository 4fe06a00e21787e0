// Whether words hold a session that is fit for a table.
#![tactic(auto)]

ghost use Rattle.std.specs.Prelude.{◌≡◌, ◌+◌, ◌≤◌, ◌<◌, length, get_or};
ghost use Rattle.laws.specs.Decides.{Decides};
ghost use Rattle.words.specs.Unit.{longest};
ghost use Rattle.table.specs.Table.{Table};
ghost use Rattle.table.specs.Fit.{FitTable};
ghost use Rattle.layout.specs.TableWords.{HoldsTable, FitTableWords};
ghost use Rattle.layout.specs.SessionWords.{FitSessionWords};
ghost use Rattle.fitness_session.specs.Inside.Parts.{Head, Changes, most_for, Signal, Signals};

use fitness::drivers::owners;
use fitness::parts::{within, zeros};

const LONGEST: u64 = 1_000_000_000_000_000_000;

// Whether the number of signals is this, and the time and the values are fit.
fn head(words: &[u64], signals: u64) -> bool
    requires { signals ≤ 64 }
    ensures { Decides result (Head words.now signals) }
{
    let end = 2 + signals as usize;
    1154 <= words.len()
        && words[0] == signals
        && words[1] <= LONGEST
        && within(words, 2, end, 1)
        && zeros(words, end, 66)
}

// Whether the changes of one signal are later than the time, near, and rising, with zeros behind them.
fn changes(words: &[u64], from: usize, count: usize, time: u64) -> bool
    requires from_in_bounds { from + 16 ≤ length words.now }
    requires count_bound { count ≤ 16 }
    requires time_le_longest { time ≤ longest }
    ensures { Decides result (Changes words.now from count time) }
{
    let mut last = time;
    for word in &words[from..from + count] {
        let next = *word / 2;
        if next <= last {
            return false;
        }
        last = next;
    }
    last <= time + LONGEST && zeros(words, from + count, from + 16)
}

// How many changes may be pending for a signal with this driver.
fn most_for(driver: Option<u8>) -> u64
    ensures { result ≡ most_for driver }
{
    match driver {
        Some(_) => 16,
        None => 0,
    }
}

// Whether what is pending for signal k is fit.
fn signal(words: &[u64], driver: Option<u8>, k: usize) -> bool
    requires in_bounds { 1154 ≤ length words.now }
    requires words_bound { get_or words.now 1 0 ≤ longest }
    requires k_bound { k < 64 }
    ensures { Decides result (Signal words.now driver k) }
{
    let count = words[66 + k];
    count <= most_for(driver) && changes(words, 130 + 16 * k, count as usize, words[1])
}

// Whether what is pending for each signal is fit.
fn signals(words: &[u64], own: &[Option<u8>; 64]) -> bool
    requires in_bounds { 1154 ≤ length words.now }
    requires words_bound { get_or words.now 1 0 ≤ longest }
    ensures { Decides result (Signals words.now own.now 64) }
{
    own.iter()
        .enumerate()
        .all(|(k, &driver)| signal(words, driver, k))
}

// Whether the first 1,154 words hold a session that is fit for the table that the table's words hold.
pub fn fit_session(table: &[u64], words: &[u64]) -> bool
    requires { FitTableWords table.now }
    ensures { (t : Table) → HoldsTable table.now t → FitTable t → Decides result (FitSessionWords t words.now) }
{
    if !head(words, table[0]) {
        return false;
    }
    match owners(table) {
        Some(own) => signals(words, &own),
        None => false,
    }
}
