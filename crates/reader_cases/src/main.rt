// Reads the texts of its standard input, and prints a line for each: its refusal, or the numbers of its signals, processes and
// instructions. tests/texts/README.md says how the texts stand there, and where the expected lines come from.
#![tactic(auto)]

ghost use Rattle.std.specs.Prelude.{◌≡◌, ◌≤◌, ◌<◌, IfOk, OnErr, length};

use program::read_full;
use reader::read;
use std::io;
use std::io::Read;
use words::integer::amount_of;

// The value of digits, where it is below 100,000.
fn number(digits: &[u8]) -> usize
    ensures { result < 100000 }
{
    match amount_of(digits) {
        Some(n) => { if n < 100_000 { n as usize } else { 0 } }
        None => 0,
    }
}

fn say_accepted(rt: &impl Print, table: &[u64]) -> io::Result<()>
    requires { 3 ≤ length table.now }
{
    println!(rt; "accepted {} {} {}", table[0], table[1], table[2])
}

fn answer(rt: &impl Print, text: &[u8]) -> io::Result<()> {
    let mut table = [0u64; 8387];
    match read(text, &mut table) {
        Ok(()) => say_accepted(rt, &table),
        Err(refusal) => println!(rt; "{refusal}"),
    }
}

// Repeats the bytes before a place up to an end: each is that of so many places before.
fn repeat(text: &mut [u8], from: usize, size: usize, end: usize)
    requires { (size ≤ from) × (end ≤ length text.old) }
{
    for i in from..end {
        text[i] = text[i - size];
    }
}

// A piece of the text, from a place on. The answer is where it ends.
fn piece<R: Read>(input: &mut R, text: &mut [u8], start: usize) -> io::Result<usize>
    requires { start ≤ length text.old }
    ensures within { IfOk result (λ n. n ≤ length text.new) }
    ensures err { OnErr result (length text.new ≡ length text.old) }
{
    let mut line = [0u8; 12];
    read_full(input, &mut line)?;
    let times = number(&line[0..5]);
    let size = number(&line[6..11]);
    if text.len() - start < size {
        return Ok(start);
    }
    if text.len() - start < times * size {
        return Ok(start);
    }
    read_full(input, &mut text[start..start + size])?;
    read_full(input, &mut line[0..1])?;
    let end = start + times * size;
    repeat(text, start + size, size, end);
    Ok(end)
}

// The next text, and whether there was one.
fn next_text<R: Read>(rt: &impl Print, input: &mut R, text: &mut [u8]) -> io::Result<bool> {
    let mut line = [0u8; 10];
    if read_full(input, &mut line)? < 10 {
        return Ok(false);
    }
    let mut filled = 0;
    for _ in 0..number(&line[5..9]) {
        filled = piece(input, text, filled)?;
    }
    answer(rt, &text[..filled])?;
    Ok(true)
}

fn main(rt: HostRuntime) -> io::Result<()> {
    let mut input = rt.stdin();
    let mut text = [0u8; 60001];
    for _ in 0..100_000 {
        if !next_text(&rt, &mut input, &mut text)? {
            return Ok(());
        }
    }
    Ok(())
}
