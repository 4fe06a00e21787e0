// A text read where it lies: refusals 1 to 11, and the words of its table.
#![tactic(auto)]

pub mod declaration;
pub mod design;
pub mod process;

ghost use Rattle.std.specs.Prelude.{◌≤◌, Ok, length};
ghost use Rattle.layout.specs.TableWords.{table_size};
ghost use Rattle.reader.specs.Answers.{Answers};
ghost use Rattle.reader.specs.Tabled.{Translates, Tables};

use crate::design::{check, design};
use emission::clear;
use ledger::{PROCESSES, SIGNALS, fresh};
use refusal::{Reason, Refusal};

// The table of an accepted text.
fn tabulate(text: &[u8], table: &mut [u64])
    requires answers { Answers text.now (Ok tt) }
    requires table_size_in_bounds { table_size ≤ length table.old }
    ensures { Translates text.now table.old table.new }
{
    clear(table);
    let mut ledger = fresh();
    let q = design(text, &mut ledger, table).unwrap();
    table[0] = ledger[SIGNALS];
    table[1] = ledger[PROCESSES];
    table[2] = q.next as u64;
}

// The table of a text. A refused call leaves the words as they were: the text is read twice, the first time over one scratch word.
pub fn read(text: &[u8], table: &mut [u64]) -> Result<(), Refusal>
    ensures { Tables text.now table.old result table.new }
{
    if table.len() < 8387 {
        return Err(Reason::Buffer.into());
    }
    check(text)?;
    tabulate(text, table);
    Ok(())
}
