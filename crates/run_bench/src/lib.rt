// What the benchmark of the run calls from C: in each answer the time after the call, or 0 where it did not move.
#![tactic(auto)]

ghost use Rattle.std.specs.Prelude.{◌≤◌, length};
ghost use Rattle.layout.specs.TableWords.{FitTableWords};
ghost use Rattle.cells.specs.Cells.{FitFor};
ghost use Rattle.machine.specs.Inside.Steps.{signals_of};
ghost use Rattle.machine.specs.Inside.Relays.{Relayed};

use machine::Machine;
use refusal::Reason;
use session::Answer;

fn time_of(answer: Result<Answer, Reason>) -> u64 {
    match answer {
        Ok(Answer::Moved(moved)) => moved.time,
        _ => 0,
    }
}

// Lists the relays of a table in words that are all zero.
#[unsafe(no_mangle)]
pub extern "C" fn run_bench_relays(table: &[u64], relays: &mut [u64; 256])
    requires fit_table_words { FitTableWords table.now }
    requires relayed { Relayed table.now relays.old }
{
    plan::list_relays(table, relays);
}

// The start on cells, without a test of fitness.
#[unsafe(no_mangle)]
pub extern "C" fn run_bench_begin(
    cells: &mut [u64; 1152],
    table: &[u64],
    relays: &[u64; 256],
    out: &mut [u8],
) -> u64
    requires fit_table_words { FitTableWords table.now }
    requires relayed { Relayed table.now relays.now }
    requires in_bounds { 4096 ≤ length out.old }
{
    time_of(session::begin(
        cells,
        &Machine {
            table,
            plan: &[],
            relays,
        },
        out,
    )
    .map(Answer::Moved))
}

// An advance on cells, without a test of fitness.
#[unsafe(no_mangle)]
pub extern "C" fn run_bench_forward(
    cells: &mut [u64; 1152],
    table: &[u64],
    relays: &[u64; 256],
    stop: u64,
    out: &mut [u8],
) -> u64
    requires fit_table_words { FitTableWords table.now }
    requires relayed { Relayed table.now relays.now }
    requires fit_for { FitFor (signals_of table.now) cells.old }
    requires stop_bound { stop ≤ 1000000000000000000 }
    requires in_bounds { 4096 ≤ length out.old }
{
    time_of(session::forward(
        cells,
        &Machine {
            table,
            plan: &[],
            relays,
        },
        stop,
        out,
    ))
}

// The start on lent words.
#[unsafe(no_mangle)]
pub extern "C" fn run_bench_start(table: &[u64], words: &mut [u64], out: &mut [u8]) -> u64 {
    time_of(run::start(table, words, out).map(Answer::Moved))
}

// An advance on lent words.
#[unsafe(no_mangle)]
pub extern "C" fn run_bench_advance(
    table: &[u64],
    words: &mut [u64],
    stop: u64,
    out: &mut [u8],
) -> u64 {
    time_of(run::advance(table, words, stop, out))
}
