// Words of a table, written while its text is read. Where no word stands nothing is written, so a first run over a short table leaves it.
#![tactic(auto)]

ghost use Rattle.std.specs.Prelude.{◌≡◌, ◌≤◌, length, set};
ghost use Rattle.kind.specs.Numbers as kinds;
ghost use Rattle.look.specs.Inside.Tokens.{number_of};
ghost use Rattle.emission.specs.Inside.Draft.{placed, following, jump_word, aimed, bit_of, with_bit, waking, ended, begun, cleared, binary_kind};

use kind::Kind;
use look::token::Token;

fn write(table: &mut [u64], at: usize, word: u64)
    ensures { table.new ≡ set table.old at word }
{
    if at < table.len() {
        table[at] = word;
    }
}

// The operation and the delay of instruction n. The answer is the next address.
pub fn emit(table: &mut [u64], n: usize, operation: u64, delay: u64) -> usize
    ensures { (result ≡ following n) × (table.new ≡ placed table.old n operation delay) }
{
    if n < 4096 {
        write(table, 195 + n, operation);
        write(table, 4291 + n, delay);
        n + 1
    } else {
        n
    }
}

// The operation of a test or a skip.
fn jump(kind: Kind, target: usize) -> u64
    ensures { result ≡ jump_word (kinds.number_of kind) target }
{
    if 4096 < target {
        0
    } else {
        kind.number() + (16 * target) as u64
    }
}

// A jump is written when its target is known.
pub fn aim(table: &mut [u64], n: usize, kind: Kind, target: usize)
    ensures { table.new ≡ aimed table.old n (kinds.number_of kind) target }
{
    if n < 4096 {
        write(table, 195 + n, jump(kind, target));
    }
}

// The operation of a binary word.
pub fn binary(word: Token) -> u64
    ensures { result ≡ binary_kind (number_of word) }
{
    match word {
        Token::Nand => 5,
        Token::Nor => 6,
        Token::And => 3,
        Token::Or => 4,
        Token::Xor => 7,
        _ => 8,
    }
}

// The signals from one number up to another start as `true` where that word is given.
pub fn start_values(table: &mut [u64], from: usize, to: usize, word: Token)
    ensures { table.new ≡ begun table.old from to (number_of word) }
{
    if word != Token::True || 64 < to {
        return;
    }
    for k in from..to {
        write(table, 3 + k, 1);
    }
}

// The bit of a process, counted from 1.
fn bit(process: u64) -> u64
    ensures { result ≡ bit_of process }
{
    match process {
        1..=64 => 1 << (process - 1),
        _ => 0,
    }
}

// The word of a signal with the bit of a process, which is above all bits of it so far.
fn with_bit(word: u64, process: u64) -> u64
    ensures { result ≡ with_bit word process }
{
    let b = bit(process);
    if word < b { word + b } else { word }
}

// A signal wakes a process, counted from 1.
pub fn wake(table: &mut [u64], signal: usize, process: u64)
    ensures { table.new ≡ waking table.old signal process }
{
    if signal < 64 {
        let at = 67 + signal;
        if at < table.len() {
            table[at] = with_bit(table[at], process);
        }
    }
}

// The address behind the last instruction of a process, counted from 1.
pub fn end_process(table: &mut [u64], process: u64, next: usize)
    ensures { table.new ≡ ended table.old process next }
{
    if matches!(process, 1..=64) {
        write(table, 130 + process as usize, next as u64);
    }
}

// A table of zeros.
pub fn clear(table: &mut [u64])
    requires { 8387 ≤ length table.old }
    ensures { table.new ≡ cleared table.old }
{
    table[..8387].fill(0);
}
