// Plays a table to standard output: its start, and advances up to a stop. What a run writes is gathered and written in large pieces.
#![tactic(auto)]

mod gathered;

ghost use Rattle.std.specs.Prelude.{◌≤◌};
ghost use Rattle.layout.specs.TableWords.{FitTableWords};
ghost use Rattle.cells.specs.Cells.{FitFor};
ghost use Rattle.machine.specs.Inside.Steps.{signals_of};
ghost use Rattle.machine.specs.Inside.Works.{Works};

pub use gathered::Gathered;
use machine::Machine;
use program::print_refusal;
use session::{Answer, begin, forward};
use std::io;

// Advances until nothing is pending or the stop is reached. A proved loop has to end: this one has more turns than any run takes.
fn go_on(
    rt: &impl Print,
    cells: &mut [u64; 1152],
    machine: &Machine,
    stop: u64,
    gathered: &mut Gathered,
) -> io::Result<()>
    requires works { Works machine.now.table.now machine.now.plan.now machine.now.relays.now }
    requires fit_for { FitFor (signals_of machine.now.table.now) cells.old }
    requires stop_bound { stop ≤ 1000000000000000000 }
{
    for _ in 0..u64::MAX {
        gathered.make_room(rt)?;
        match forward(cells, machine, stop, &mut gathered.bytes[gathered.count..]) {
            Ok(Answer::Moved(moved)) => gathered.add(moved.bytes),
            Ok(_) => return gathered.flush(rt),
            Err(reason) => {
                gathered.flush(rt)?;
                return print_refusal(rt, reason.into());
            }
        }
    }
    Ok(())
}

// Plays a machine.
fn play_machine(rt: &impl Print, machine: &Machine, stop: u64) -> io::Result<()>
    requires works { Works machine.now.table.now machine.now.plan.now machine.now.relays.now }
    requires stop_bound { stop ≤ 1000000000000000000 }
{
    let mut cells = [0u64; 1152];
    let mut gathered = Gathered::new();
    match begin(&mut cells, machine, &mut gathered.bytes) {
        Ok(moved) => {
            gathered.add(moved.bytes);
            go_on(rt, &mut cells, machine, stop, &mut gathered)
        }
        Err(reason) => print_refusal(rt, reason.into()),
    }
}

// A plan without a unit would only cost time.
pub fn play(rt: &impl Print, table: &[u64], stop: u64) -> io::Result<()>
    requires fit_table_words { FitTableWords table.now }
    requires stop_bound { stop ≤ 1000000000000000000 }
{
    let mut relays = [0u64; 256];
    plan::list_relays(table, &mut relays);
    let mut plan = [0u64; 16384];
    let units = plan::make(table, &mut plan);
    if units == 0 {
        play_machine(
            rt,
            &Machine {
                table,
                plan: &[],
                relays: &relays,
            },
            stop,
        )
    } else {
        play_machine(
            rt,
            &Machine {
                table,
                plan: &plan,
                relays: &relays,
            },
            stop,
        )
    }
}
