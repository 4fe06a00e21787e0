// Runs the cases of its standard input, and prints a line for each. A case is a letter that says what is done, four digits for
// the length of its text, LF, the text, and LF.
#![tactic(auto)]

mod scan;
mod word;

ghost use Rattle.std.specs.Prelude.{◌≤◌, ◌<◌, IfOk, length};

use program::read_full;
use std::io;
use words::integer::amount_of;

// How long the text of the first case is.
fn text_length(input: &[u8]) -> usize
    requires { 7 ≤ length input.now }
{
    match amount_of(&input[1..5]) {
        Some(n) => n as usize,
        None => 0,
    }
}

fn run(rt: &impl Print, what: u8, text: &[u8]) -> io::Result<()> {
    match what {
        b't' => {
            scan::tokens(rt, text)?;
            scan::verdict(rt, text)?;
        }
        b'u' => word::delay(rt, text)?,
        _ => word::same(rt, text)?,
    }
    println!(rt)
}

// Runs the first case of the input and answers how many bytes it takes: all of them where the case is cut.
fn run_first(rt: &impl Print, input: &[u8]) -> io::Result<usize>
    requires { 0 < length input.now }
    ensures { IfOk result (λ n. (0 < n) × (n ≤ length input.now)) }
{
    let room = input.len();
    if room < 7 {
        return Ok(room);
    }
    let n = text_length(input);
    if room - 7 < n {
        return Ok(room);
    }
    let end = 6 + n;
    run(rt, input[0], &input[6..end])?;
    Ok(end + 1)
}

fn run_all(rt: &impl Print, input: &[u8]) -> io::Result<()> {
    let mut i = 0;
    // Kept: no `for`, since each case says itself where the next one starts.
    while i < input.len() {
        i += run_first(rt, &input[i..])?;
    }
    Ok(())
}

fn main(rt: HostRuntime) -> io::Result<()> {
    let mut input = [0u8; 65536];
    let n = read_full(&mut rt.stdin(), &mut input)?;
    run_all(&rt, &input[..n])
}
