// Start and advance over lent words, as document 01 says.
#![tactic(auto)]

ghost use Rattle.std.specs.Prelude.{◌≡◌, ◌∷◌, ◌≤◌, length};
ghost use Rattle.std.proofs.lemmas.List.Edits.{sets};
ghost use Rattle.laws.specs.Decides.{Decides};
ghost use Rattle.rules.specs.Calls as calls;
ghost use Rattle.table.specs.Table.{runners};
ghost use Rattle.layout.specs.TableWords.{FitTableWords};
ghost use Rattle.layout.specs.SessionWords.{FitSessionWords};
ghost use Rattle.layout.proofs.Tables.{decode_table};
ghost use Rattle.session.specs.Answers.{started};
ghost use Rattle.run.specs.Lent.{LongEnough, Gives, Starts, Advances};
ghost use Rattle.run.specs.Inside.Copies.{Loaded};

use machine::Machine;
use refusal::Reason;
use session::{Answer, Moved};

// The cells of a session's words.
fn load(words: &[u64]) -> [u64; 1152]
    requires { 1154 ≤ length words.now }
    ensures { Loaded words.now 1152 result }
{
    let mut cells = [0u64; 1152];
    cells.copy_from_slice(&words[2..1154]);
    cells
}

// Writes a session's words: count, time and cells.
fn store(words: &mut [u64], count: u64, time: u64, cells: &[u64; 1152])
    requires in_bounds { 1154 ≤ length words.old }
    requires cells_len { length cells.now ≡ 1152 }
    ensures { words.new ≡ sets words.old 0 (count ∷ time ∷ cells.now) }
{
    words[0] = count;
    words[1] = time;
    words[2..1154].copy_from_slice(cells);
}

// The start, where the table is known to be fit.
pub fn start_fit(table: &[u64], words: &mut [u64], out: &mut [u8]) -> Result<Moved, Reason>
    requires fit_table_words { FitTableWords table.now }
    requires words_in_bounds { 1154 ≤ length words.old }
    requires out_in_bounds { 4096 ≤ length out.old }
    ensures { (f : FitTableWords table.now) → Gives (calls.start (runners f.table) f.table.initial) words.old out.old (started result) words.new out.new }
{
    let mut cells = [0u64; 1152];
    let machine = Machine {
        table,
        plan: &[],
        relays: &[0; 256],
    };
    let moved = session::begin(&mut cells, &machine, out)?;
    store(words, table[0], moved.time, &cells);
    Ok(moved)
}

// An advance, where the table and the session are known to be fit.
pub fn advance_fit(
    table: &[u64],
    words: &mut [u64],
    stop: u64,
    out: &mut [u8],
) -> Result<Answer, Reason>
    requires fit_table_words { FitTableWords table.now }
    requires fit_session_words { FitSessionWords (decode_table table.now) words.old }
    requires stop_bound { stop ≤ 1000000000000000000 }
    requires in_bounds { 4096 ≤ length out.old }
    ensures { (f : FitTableWords table.now) (s : FitSessionWords f.table words.old) → Gives (calls.advance (runners f.table) stop s.session) words.old out.old result words.new out.new }
{
    let mut cells = load(words);
    let machine = Machine {
        table,
        plan: &[],
        relays: &[0; 256],
    };
    let answer = session::forward(&mut cells, &machine, stop, out)?;
    if let Answer::Moved(moved) = answer {
        store(words, table[0], moved.time, &cells);
    }
    Ok(answer)
}

// Whether the lent buffers have their sizes.
fn long_enough(table: &[u64], words: &[u64], out: &[u8]) -> bool
    ensures { Decides result (LongEnough table.now words.now out.now) }
{
    8387 <= table.len() && 1154 <= words.len() && 4096 <= out.len()
}

// The start of a run on a lent table: the session's words are not read.
pub fn start(table: &[u64], words: &mut [u64], out: &mut [u8]) -> Result<Moved, Reason>
    ensures { Starts table.now words.old out.old (started result) words.new out.new }
{
    if !long_enough(table, words, out) {
        return Err(Reason::Buffer);
    }
    if !fitness::fit_table(table) {
        return Err(Reason::Table);
    }
    start_fit(table, words, out)
}

// An advance of a run on a lent table and session.
pub fn advance(
    table: &[u64],
    words: &mut [u64],
    stop: u64,
    out: &mut [u8],
) -> Result<Answer, Reason>
    ensures { Advances table.now words.old out.old stop result words.new out.new }
{
    if !long_enough(table, words, out) {
        return Err(Reason::Buffer);
    }
    if 1000000000000000000 < stop {
        return Err(Reason::Stop);
    }
    if !fitness::fit_table(table) {
        return Err(Reason::Table);
    }
    if !fitness_session::fit_session(table, words) {
        return Err(Reason::Session);
    }
    advance_fit(table, words, stop, out)
}
