// The trace program: given what the dump program is given, it prints a line for each call, with its bytes, time, cycles and steps.
#![tactic(auto)]

mod say;

ghost use Rattle.std.specs.Prelude.{◌≤◌, length};
ghost use Rattle.layout.specs.TableWords.{FitTableWords};
ghost use Rattle.cells.specs.Cells.{FitFor};
ghost use Rattle.machine.specs.Inside.Steps.{signals_of};
ghost use Rattle.machine.specs.Inside.Works.{Works};

use heading::header;
use machine::Machine;
use player::Gathered;
use program::{read_full, stop_words};
use reader::read;
use refusal::Reason;
use session::{Answer, begin, forward};
use std::io;

// Advances up to the last, with a line for each. A proved loop has to end: this one has more turns than any run takes.
fn go_on(
    rt: &impl Print,
    cells: &mut [u64; 1152],
    machine: &Machine,
    stop: u64,
    out: &mut [u8],
    lines: &mut Gathered,
) -> io::Result<()>
    requires works { Works machine.now.table.now machine.now.plan.now machine.now.relays.now }
    requires fit_for { FitFor (signals_of machine.now.table.now) cells.old }
    requires stop_bound { stop ≤ 1000000000000000000 }
    requires out_in_bounds { 4096 ≤ length out.old }
{
    for _ in 0..u64::MAX {
        lines.make_room(rt)?;
        match forward(cells, machine, stop, out) {
            Ok(Answer::Moved(moved)) => say::moved(lines, b"advance", moved),
            Ok(Answer::Quiet) => {
                say::put(lines, b"advance quiet bytes 0\n");
                return lines.flush(rt);
            }
            Ok(Answer::StopReached) => {
                say::put(lines, b"advance stop reached bytes 0\n");
                return lines.flush(rt);
            }
            Err(reason) => {
                lines.flush(rt)?;
                return say::refused(rt, b"advance", reason.into());
            }
        }
    }
    Ok(())
}

// The start and the advances of a machine.
fn run_machine(
    rt: &impl Print,
    machine: &Machine,
    stop: u64,
    lines: &mut Gathered,
) -> io::Result<()>
    requires works { Works machine.now.table.now machine.now.plan.now machine.now.relays.now }
    requires stop_bound { stop ≤ 1000000000000000000 }
{
    let mut cells = [0u64; 1152];
    let mut out = [0u8; 4096];
    match begin(&mut cells, machine, &mut out) {
        Ok(moved) => {
            say::moved(lines, b"start", moved);
            go_on(rt, &mut cells, machine, stop, &mut out, lines)
        }
        Err(reason) => {
            lines.flush(rt)?;
            say::refused(rt, b"start", reason.into())
        }
    }
}

// The start and the advances.
fn run(rt: &impl Print, table: &[u64], stop: u64, lines: &mut Gathered) -> io::Result<()>
    requires fit_table_words { FitTableWords table.now }
    requires stop_bound { stop ≤ 1000000000000000000 }
{
    let mut relays = [0u64; 256];
    plan::list_relays(table, &mut relays);
    run_machine(
        rt,
        &Machine {
            table,
            plan: &[],
            relays: &relays,
        },
        stop,
        lines,
    )
}

// The calls of an accepted text, whose header has so many bytes.
fn translate(rt: &impl Print, text: &[u8], stop: u64, count: usize) -> io::Result<()>
    requires { stop ≤ 1000000000000000000 }
{
    let mut table = [0u64; 8387];
    match read(text, &mut table) {
        Ok(()) => {
            let mut lines = Gathered::new();
            say::header(&mut lines, count);
            run(rt, &table, stop, &mut lines)
        }
        Err(refusal) => say::refused(rt, b"header", refusal),
    }
}

fn show(rt: &impl Print, text: &[u8], stop: u64) -> io::Result<()>
    requires { stop ≤ 1000000000000000000 }
{
    let mut out = [0u8; 4096];
    match header(text, &mut out) {
        Ok(count) => translate(rt, text, stop, count),
        Err(refusal) => say::refused(rt, b"header", refusal),
    }
}

fn main(rt: HostRuntime) -> io::Result<()> {
    match stop_words(&rt) {
        Err(reason) => say::refused(&rt, b"stop words", reason.into()),
        Ok(stop) => {
            let mut text = [0u8; 60001];
            let n = read_full(&mut rt.stdin(), &mut text)?;
            show(&rt, &text[..n], stop)
        }
    }
}
