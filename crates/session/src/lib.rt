// A session, and the run of a start and of an advance: on its cells in place, and on lent words.
#![tactic(auto)]

ghost use Rattle.std.specs.Prelude.{◌≡◌, ℕ, ◌≤◌, ◌<◌, length, is_ok, IfErr};
ghost use Rattle.refusal.specs.declared.Reason.TheVariants.{Pending};
ghost use Rattle.rules.specs.Calls.{start, advance};
ghost use Rattle.table.specs.Table.{runners};
ghost use Rattle.layout.specs.TableWords.{FitTableWords};
ghost use Rattle.layout.proofs.Tables.{decode_table};
ghost use Rattle.cells.specs.Cells.{truth, FitFor, Due};
ghost use Rattle.machine.specs.Inside.Steps.{signals_of};
ghost use Rattle.machine.specs.Inside.Works.{Works};
ghost use Rattle.cycles.specs.Inside.Turns.{session_of};
ghost use Rattle.session.specs.Answers.{started};
ghost use Rattle.session.specs.Sessions.{session_in, FitHeld, PostsAs, TakesAs, CycleAs};
ghost use Rattle.session.specs.Inside.Goings.{GoesAs, Fresh, AllOf};

use cycles::Settled;
use machine::{Machine, Ran};
use refusal::Reason;

// What a call that moved did: how many bytes it wrote, the time that it moved to, and its cycles and steps.
#[derive(Clone, Copy, Debug, PartialEq, Eq)]
pub struct Moved {
    pub bytes: usize,
    pub time: u64,
    pub cycles: u64,
    pub steps: u64,
}

// What an advance that is not refused answers.
#[derive(Clone, Copy, Debug, PartialEq, Eq)]
pub enum Answer {
    Quiet,
    StopReached,
    Moved(Moved),
}

// The word of the first n numbers.
fn all_of(n: u64) -> u64
    requires { n ≤ 64 }
    ensures { AllOf n result }
{
    if n == 0 {
        return 0;
    }
    u64::MAX >> (64 - n)
}

// The cells of a session at the start: declared values, and nothing pending.
fn fresh(table: &[u64]) -> [u64; 1152]
    requires { FitTableWords table.now }
    ensures { Fresh table.now result }
{
    let mut cells = [0u64; 1152];
    cells[..64].copy_from_slice(&table[3..67]);
    cells
}

// The start, on cells that are not read: every process runs once, then cycles at 0.
pub fn begin(cells: &mut [u64; 1152], machine: &Machine, out: &mut [u8]) -> Result<Moved, Reason>
    requires works { Works machine.now.table.now machine.now.plan.now machine.now.relays.now }
    requires in_bounds { 4096 ≤ length out.old }
    ensures { GoesAs (start (runners (decode_table machine.now.table.now)) (decode_table machine.now.table.now).initial) (signals_of machine.now.table.now) cells.old out.old (started result) cells.new out.new }
{
    let table = machine.table;
    *cells = fresh(table);
    let count = table[0] as usize;
    let woken = all_of(table[1]);
    let ran = cycles::wake(cells, machine, woken, 0, 0)?;
    let Settled { cycles, steps, .. } = cycles::settle(cells, machine, ran.due, 0, ran.steps)?;
    let bytes = writing::write_start(out, cells, count);
    Ok(Moved {
        bytes,
        time: 0,
        cycles,
        steps,
    })
}

// An advance: to the least pending time, and cycles there, unless nothing is pending or that time is above the stop.
pub fn forward(
    cells: &mut [u64; 1152],
    machine: &Machine,
    stop: u64,
    out: &mut [u8],
) -> Result<Answer, Reason>
    requires works { Works machine.now.table.now machine.now.plan.now machine.now.relays.now }
    requires fit_for { FitFor (signals_of machine.now.table.now) cells.old }
    requires stop_bound { stop ≤ 1000000000000000000 }
    requires in_bounds { 4096 ≤ length out.old }
    ensures { (was : ℕ) → GoesAs (advance (runners (decode_table machine.now.table.now)) stop (session_of was (signals_of machine.now.table.now) cells.old)) (signals_of machine.now.table.now) cells.old out.old result cells.new out.new }
{
    let count = machine.table[0] as usize;
    let Some(next) = cells::comes_next(cells, count) else {
        return Ok(Answer::Quiet);
    };
    if stop < next.time {
        return Ok(Answer::StopReached);
    }
    let settled = cycles::settle(cells, machine, next.due, next.time, 0)?;
    let bytes = writing::write_advance(out, cells, settled.changed, next.time);
    Ok(Answer::Moved(Moved {
        bytes,
        time: next.time,
        cycles: settled.cycles,
        steps: settled.steps,
    }))
}

// A session: how many signals there are, the time, and in one array all that a run changes.
// Kept: what may not change, document 01's form for a call: its methods take the session by value and give back the session after it.
#[derive(Clone, Copy)]
pub struct Session {
    pub count: usize,
    pub time: u64,
    pub cells: [u64; 1152],
}

// What a method answers, and the session after it.
#[derive(Clone, Copy)]
pub struct After<T> {
    pub answer: T,
    pub session: Session,
}

impl Session {
    // Posts a value, 0 or 1, for a signal at a time.
    pub fn post(mut self, signal: usize, time: u64, value: u64) -> After<Result<(), Reason>>
        requires fit_held { FitHeld self }
        requires signal_lt_count { signal < self.count }
        requires time_bound { time ≤ 2000000000000000000 }
        requires value_bound { value ≤ 1 }
        ensures posted { PostsAs self signal time (truth value) (is_ok result.answer) result.session }
        ensures reason { IfErr result.answer (λ reason. reason ≡ Pending) }
    {
        let answer = cells::post(&mut self.cells, signal, time, value);
        After {
            answer,
            session: self,
        }
    }

    // Takes the changes of a time out, and answers which processes that wakes; due says which signals have one.
    pub fn take(mut self, table: &[u64], due: u64, time: u64) -> After<u64>
        requires fit_held { FitHeld self }
        requires fit_table_words { FitTableWords table.now }
        requires count_value { self.count ≡ signals_of table.now }
        requires due { Due due time (session_in self).pending }
        ensures { TakesAs self time result.session }
    {
        let t = cycles::take_all(&mut self.cells, table, due, time);
        After {
            answer: t.woken,
            session: self,
        }
    }

    // Runs a cycle at a time, with so many steps so far.
    pub fn cycle(
        mut self,
        machine: &Machine,
        due: u64,
        time: u64,
        already: u64,
    ) -> After<Result<Ran, Reason>>
        requires fit_held { FitHeld self }
        requires works { Works machine.now.table.now machine.now.plan.now machine.now.relays.now }
        requires count_value { self.count ≡ signals_of machine.now.table.now }
        requires due { Due due time (session_in self).pending }
        requires time_bound { time ≤ 1000000000000000000 }
        requires already_bound { already ≤ 900000000000000000 }
        ensures { CycleAs (runners (decode_table machine.now.table.now)) self time already result.answer result.session }
    {
        let went = cycles::cycle(&mut self.cells, machine, due, time, already);
        self.time = time;
        After {
            answer: went.ran,
            session: self,
        }
    }
}
