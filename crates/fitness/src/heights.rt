// Numbers of operands: one pass over the instructions, which writes down with how many each is reached: one more, and 0 where it is not.
// Kept: an Option for each of the 4,097 takes two bytes, and the stack that the C interface promises has no room for them.
ghost use Rattle.std.specs.Prelude.{◌≡◌, ◌≤◌, ◌<◌, length, get_or};
ghost use Rattle.laws.specs.Decides.{Decides};
ghost use Rattle.layout.proofs.Tables.{decode_table};
ghost use Rattle.fitness.specs.Inside.Parts.{processes, instructions, Ready, Sounds};
ghost use Rattle.fitness.specs.Inside.Kinds.{Forward};
ghost use Rattle.fitness.specs.Inside.Heights.{PutAs, Stepped, Fresh, Passed};

use crate::kinds::{leaves_of, takes_of};
use kind::Kind;

// Puts h at j, unless another stands there.
fn put(hs: &mut [u8], j: usize, h: u8) -> bool
    requires { j < length hs.old }
    ensures { PutAs hs.old j h result hs.new }
{
    let old = hs[j];
    if old == 0 {
        hs[j] = h;
        return true;
    }
    old == h
}

// Whether a jump goes strictly forward, and not past the end.
fn ahead(kind: Kind, about: usize, x: usize, upto: usize) -> bool
    ensures { Decides result (Forward upto x kind about) }
{
    if !matches!(kind, Kind::Test | Kind::Skip) {
        return true;
    }
    x < about && about <= upto
}

// Does an instruction to the heights.
fn step(hs: &mut [u8], kind: Kind, about: usize, x: usize, upto: usize) -> bool
    requires hs_len { length hs.old ≡ 4097 }
    requires x_lt_upto { x < upto }
    requires upto_bound { upto ≤ 4096 }
    requires forward { Forward upto x kind about }
    requires x_bound { get_or hs.old x 0 ≤ 35 }
    ensures { Stepped hs.old kind about x result hs.new }
{
    let h = hs[x];
    if h == 0 {
        return true;
    }
    let takes = takes_of(kind);
    if h <= takes {
        return false;
    }
    let left = h - takes + leaves_of(kind);
    if 35 < left {
        return false;
    }
    match kind {
        Kind::Test => put(hs, x + 1, left) && put(hs, about, left),
        Kind::Skip => put(hs, about, left),
        _ => put(hs, x + 1, left),
    }
}

// The heights of the instructions of one process.
fn heights(words: &[u64], hs: &mut [u8], from: usize, upto: usize) -> bool
    requires ready { Ready words.now }
    requires from_le_upto { from ≤ upto }
    requires upto_bound { upto ≤ instructions words.now }
    requires fresh { Fresh from hs.old }
    ensures { Passed (decode_table words.now).code from upto result hs.new }
{
    for x in from..upto {
        let operation = words[195 + x];
        let about = (operation / 16) as usize;
        let Ok(kind) = Kind::try_from(operation % 16) else {
            return false;
        };
        if !ahead(kind, about, x, upto) || !step(hs, kind, about, x, upto) {
            return false;
        }
    }
    if 1 < hs[upto] {
        return false;
    }
    hs[upto] = 1;
    true
}

// Whether the operands of every process keep the rules.
pub fn sounds(words: &[u64]) -> bool
    requires { Ready words.now }
    ensures { Decides result (Sounds (decode_table words.now) (processes words.now)) }
{
    let processes = words[1] as usize;
    let mut hs = [0u8; 4097];
    hs[0] = 1;
    let mut from = 0;
    for p in 0..processes {
        let end = words[131 + p] as usize;
        if !heights(words, &mut hs, from, end) {
            return false;
        }
        from = end;
    }
    true
}
