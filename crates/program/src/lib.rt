// What the programs share: their stop words, the line of a refusal, and how they read their input.
#![tactic(auto)]

ghost use Rattle.std.specs.Prelude.{◌≡◌, ◌≤◌, IfOk, OnErr, length};
ghost use Rattle.program.specs.Given.{InTime};

use refusal::{Reason, Refusal};
use std::env::{Env, FillError};
use std::io;
use std::io::Read;
use stop::stop_of;

// The line of a refusal, with its place where it has one.
pub fn print_refusal(rt: &impl Print, refusal: Refusal) -> io::Result<()> {
    println!(rt; "{refusal}")
}

// Reads until the buffer is full or the input ends, and answers how many bytes it put at the buffer's start.
pub fn read_full<R: Read>(input: &mut R, buffer: &mut [u8]) -> io::Result<usize>
    ensures within { IfOk result (λ n. n ≤ length buffer.new) }
    ensures err { OnErr result (length buffer.new ≡ length buffer.old) }
{
    let mut done = 0;
    // Kept: no `for`, since each read says itself how far it came.
    while done < buffer.len() {
        let n = input.read(&mut buffer[done..])?;
        if n == 0 {
            return Ok(done);
        }
        done += n;
    }
    Ok(done)
}

// Whether the command has a word at a place; its own name is at 0.
fn has_word(rt: &impl Env, place: usize) -> bool {
    !matches!(rt.arg(place, &mut []), Err(FillError::NotPresent))
}

// Puts a word of the command at the start of a buffer, and answers its length. A word that is longer than the buffer counts as empty.
fn word(rt: &impl Env, place: usize, buffer: &mut [u8]) -> usize
    ensures { result ≤ length buffer.new }
{
    rt.arg(place, buffer).unwrap_or(0)
}

// The stop that the two argument words say. Linux hands over no argument that is longer than the first buffer, and a word that is
// longer than the second is no unit: it counts as empty.
pub fn stop_words(rt: &impl Env) -> Result<u64, Reason>
    ensures { InTime result }
{
    if !has_word(rt, 2) || has_word(rt, 3) {
        return Err(Reason::Stop);
    }
    let mut amount = [0u8; 131072];
    let mut unit = [0u8; 4];
    let n = word(rt, 1, &mut amount);
    let m = word(rt, 2, &mut unit);
    stop_of(&amount[..n], &unit[..m])
}
