// Tries tables and sessions that are made by hand. Each line of its standard input has 29 bytes: a letter, a space, five digits, a
// space, twenty digits and LF. tests/fitness/reference.py says what the letters mean, and writes the lines and the expected answers.
#![tactic(auto)]

ghost use Rattle.std.specs.Prelude.{◌≤◌, length};

use fitness::fit_table;
use fitness_session::fit_session;
use program::read_full;
use std::io;
use std::io::Read;

// The value of digits; 0 where it does not fit.
fn number(digits: &[u8]) -> u64 {
    let value = digits.iter().try_fold(0u64, |sum, digit| {
        sum.checked_mul(10)?.checked_add(u64::from(*digit % 16))
    });
    value.unwrap_or(0)
}

fn put(words: &mut [u64], place: usize, value: u64) {
    if let Some(word) = words.get_mut(place) {
        *word = value;
    }
}

// Puts the word at a place also into the next ones.
fn repeat(words: &mut [u64], place: usize, count: u64) {
    if place < words.len() {
        let value = words[place];
        let next = &mut words[place + 1..];
        let count = next.len().min(count as usize);
        next[..count].fill(value);
    }
}

fn say(rt: &impl Print, fit: bool) -> io::Result<()> {
    println!(rt; "{}", if fit { "fit" } else { "unfit" })
}

fn table_line(rt: &impl Print, table: &[u64], count: usize) -> io::Result<()> {
    if count <= table.len() {
        say(rt, fit_table(&table[0..count]))?;
    }
    Ok(())
}

fn session_line(rt: &impl Print, table: &[u64], session: &[u64], count: usize) -> io::Result<()> {
    if count <= session.len() {
        if fit_table(table) {
            say(rt, fit_session(table, &session[0..count]))?;
        } else {
            println!(rt; "no table")?;
        }
    }
    Ok(())
}

fn run(rt: &impl Print, line: &[u8], table: &mut [u64], session: &mut [u64]) -> io::Result<()>
    requires { 29 ≤ length line.now }
{
    let place = number(&line[2..7]) as usize;
    let value = number(&line[8..28]);
    match line[0] {
        b'w' => put(table, place, value),
        b'v' => put(session, place, value),
        b'r' => repeat(table, place, value),
        b't' => table_line(rt, table, place)?,
        _ => session_line(rt, table, session, place)?,
    }
    Ok(())
}

// Runs the next line, and answers whether there was one.
fn run_next<R: Read>(
    rt: &impl Print,
    input: &mut R,
    table: &mut [u64],
    session: &mut [u64],
) -> io::Result<bool> {
    let mut line = [0u8; 29];
    if read_full(input, &mut line)? < 29 {
        return Ok(false);
    }
    run(rt, &line, table, session)?;
    Ok(true)
}

fn run_all<R: Read>(
    rt: &impl Print,
    input: &mut R,
    table: &mut [u64],
    session: &mut [u64],
) -> io::Result<()> {
    for _ in 0..1_000_000 {
        if !run_next(rt, input, table, session)? {
            return Ok(());
        }
    }
    Ok(())
}

fn main(rt: HostRuntime) -> io::Result<()> {
    let mut table = [0u64; 8400];
    let mut session = [0u64; 1160];
    run_all(&rt, &mut rt.stdin(), &mut table, &mut session)
}
