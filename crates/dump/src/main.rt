// The dump program: a text on standard input, a stop as two argument words, and its value change dump on standard output.
#![tactic(auto)]

ghost use Rattle.std.specs.Prelude.{◌≤◌};

use heading::header;
use player::play;
use program::{print_refusal, read_full, stop_words};
use reader::read;
use std::io;

// The start of a text, and its advances up to the stop.
fn run(rt: &impl Print, text: &[u8], stop: u64) -> io::Result<()>
    requires { stop ≤ 1000000000000000000 }
{
    let mut table = [0u64; 8387];
    match read(text, &mut table) {
        Ok(()) => play(rt, &table, stop),
        Err(refusal) => print_refusal(rt, refusal),
    }
}

// The whole dump of a text.
fn show(rt: &impl Print, text: &[u8], stop: u64) -> io::Result<()>
    requires { stop ≤ 1000000000000000000 }
{
    let mut out = [0u8; 4096];
    match header(text, &mut out) {
        Ok(count) => {
            rt.write_all(&out[..count])?;
            run(rt, text, stop)
        }
        Err(refusal) => print_refusal(rt, refusal),
    }
}

fn main(rt: HostRuntime) -> io::Result<()> {
    match stop_words(&rt) {
        Err(reason) => print_refusal(&rt, reason.into()),
        Ok(stop) => {
            let mut text = [0u8; 60001];
            let n = read_full(&mut rt.stdin(), &mut text)?;
            show(&rt, &text[..n], stop)
        }
    }
}
