// The dump's header of a text, written to a lent buffer.
#![tactic(auto)]

ghost use Rattle.std.specs.Prelude.{◌+◌, ◌≤◌, ◌<◌, length};
ghost use Rattle.words.specs.Vocabulary.{lower};
ghost use Rattle.rules.specs.Sizes.{buffer_bytes};
ghost use Rattle.rules.specs.Dump.{variables};
ghost use Rattle.reader.specs.Inside.Designs.{Survey};
ghost use Rattle.ledger.specs.Inside.Standing.{Shelf, names_from};
ghost use Rattle.writing.specs.Inside.Written.{Writes};
ghost use Rattle.heading.specs.Headed.{Shows, Heads};
ghost use Rattle.heading.specs.Inside.Lines.{variable};

use ledger::{SIGNAL_NAMES, SIGNALS, fresh};
use look::peek;
use reader::design::survey;
use refusal::{Reason, Refusal};
use words::vocabulary::lower;
use writing::copy;

// A name, in lower case. Byte by byte: a copy of the whole name would call `memmove`, which the archive for C calls nowhere.
// Kept: a buffer and a place in these functions too, for the reason that `writing::copy` has.
fn copy_name(out: &mut [u8], at: usize, name: &[u8]) -> usize
    requires { at + length name.now ≤ length out.old }
    ensures { Writes out.old at (lower name.now) result out.new }
{
    for i in 0..name.len() {
        out[at + i] = lower(name[i]);
    }
    at + name.len()
}

// The line of signal k.
fn line(out: &mut [u8], at: usize, k: u8, name: &[u8]) -> usize
    requires k_bound { k < 64 }
    requires end_in_bounds { at + length (variable k (lower name.now)) ≤ length out.old }
    ensures { Writes out.old at (variable k (lower name.now)) result out.new }
{
    let a = copy(out, at, b"$var wire 1 ");
    let b = copy(out, a, &[33 + k, b' ']);
    let c = copy_name(out, b, name);
    copy(out, c, b" $end\n")
}

// The lines of all signals.
fn lines(out: &mut [u8], at: usize, text: &[u8], ledger: &[u64; 328], count: usize) -> usize
    requires shelf { Shelf text.now ledger.now 6 count × (count ≤ 64) }
    requires count_in_bounds { at + length (variables 0 (names_from text.now ledger.now 6 count)) ≤ length out.old }
    ensures { Writes out.old at (variables 0 (names_from text.now ledger.now 6 count)) result out.new }
{
    let mut place = at;
    for k in 0..count {
        let from = ledger[SIGNAL_NAMES + 2 * k] as usize;
        let to = ledger[SIGNAL_NAMES + 2 * k + 1] as usize;
        place = line(out, place, k as u8, &text[from..to]);
    }
    place
}

// The header of an accepted text.
fn show(out: &mut [u8], text: &[u8], ledger: &[u64; 328]) -> usize
    requires { Survey text.now ledger.now × (buffer_bytes ≤ length out.old) }
    ensures { Shows text.now out.old result out.new }
{
    let entity = peek(text, 0);
    let own = peek(text, entity.end);
    let count = ledger[SIGNALS] as usize;
    let b = copy(out, 0, b"$timescale 1 fs $end\n$scope module ");
    let c = copy_name(out, b, &text[own.start..own.end]);
    let d = copy(out, c, b" $end\n");
    let e = lines(out, d, text, ledger, count);
    copy(out, e, b"$upscope $end\n$enddefinitions $end\n")
}

// How many bytes of the header were written, where the text is accepted; else its refusal. The bytes behind it stay, and in a refusal all of them.
pub fn header(text: &[u8], out: &mut [u8]) -> Result<usize, Refusal>
    ensures { Heads text.now out.old result out.new }
{
    if out.len() < 4096 {
        return Err(Reason::Buffer.into());
    }
    let mut ledger = fresh();
    let mut scratch = [0u64; 1];
    survey(text, &mut ledger, &mut scratch)?;
    Ok(show(out, text, &ledger))
}
