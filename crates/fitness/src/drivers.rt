// Which process posts each signal.
ghost use Rattle.std.specs.Prelude.{◌≡◌, suc, ◌<◌, length, MatchOption};
ghost use Rattle.laws.specs.Decides.{Decides};
ghost use Rattle.table.specs.Table.{begins};
ghost use Rattle.layout.proofs.Tables.{decode_table};
ghost use Rattle.fitness.specs.Inside.Parts.{processes, instructions, Ready};
ghost use Rattle.fitness.specs.Inside.Drivers.{Alone, Claimed, Owned, Drove};

use kind::Kind;

// Notes that process p posts a signal, unless another process does.
fn claim(own: &mut [Option<u8>], signal: usize, p: u8) -> bool
    requires { signal < length own.old }
    ensures { Claimed own.old signal p result own.new }
{
    let driver = Some(p);
    if own[signal].is_some() && own[signal] != driver {
        return false;
    }
    own[signal] = driver;
    true
}

// The posts of process p: of no signal that an earlier process posts.
fn drives(words: &[u64], own: &mut [Option<u8>], p: u8, from: usize, upto: usize) -> bool
    requires ready { Ready words.now }
    requires p_bound { p < processes words.now }
    requires from_value { from ≡ begins (decode_table words.now) p }
    requires upto_value { upto ≡ begins (decode_table words.now) (suc p) }
    requires owned { Owned (decode_table words.now) (processes words.now) from own.old }
    ensures { Drove (decode_table words.now) (processes words.now) upto result own.new }
{
    for x in from..upto {
        let operation = words[195 + x];
        let posts = operation % 16 == Kind::Assignment.number();
        if posts && !claim(own, (operation / 16) as usize, p) {
            return false;
        }
    }
    true
}

// The drivers of all signals, where no signal is posted by two processes.
pub fn owners(words: &[u64]) -> Option<[Option<u8>; 64]>
    requires { Ready words.now }
    ensures { MatchOption result (Alone (decode_table words.now) (processes words.now) → ⊥) (Owned (decode_table words.now) (processes words.now) (instructions words.now)) }
{
    let mut own = [None; 64];
    let mut from = 0;
    for p in 0..words[1] as u8 {
        let end = words[131 + p as usize] as usize;
        if !drives(words, &mut own, p, from, end) {
            return None;
        }
        from = end;
    }
    Some(own)
}

// Whether no signal is posted by two processes.
pub fn alone(words: &[u64]) -> bool
    requires { Ready words.now }
    ensures { Decides result (Alone (decode_table words.now) (processes words.now)) }
{
    owners(words).is_some()
}
