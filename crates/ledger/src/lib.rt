// Refusals 5 to 10, judged token by token in one lent array of words: each function judges one token in its role. The first refusal stays.
#![tactic(auto)]

pub mod shelf;

ghost use Rattle.std.specs.Prelude.{◌≡◌, List, ℕ, ◌<◌, ◌≤◌, get_or};
ghost use Rattle.laws.specs.Pick.{within, same_list};
ghost use Rattle.words.specs.Integer.{value_of};
ghost use Rattle.look.specs.Inside.Looks.{part, name_at};
ghost use Rattle.names.specs.Roles.{declares, labels, listens, reads, assigns, belongs, closes, opens, delays, counts};
ghost use Rattle.names.specs.Judge.{nothing_yet, fine};
ghost use Rattle.ledger.specs.Inside.Standing.{Span, Shelf, Keeps, Sound, Held, Judges, Numbers, Drives, Lasts, used_in, SpanIfAny, name_if_any};

use crate::shelf::{add, find, refuse};
use look::Look;
use refusal::Reason;
use words::integer::time_of;
use words::unit::TimeUnit;
use words::vocabulary::same_word;

// The words of a ledger: the number of the first refusal (0: none yet) and its place; how many signals, labels, processes and instructions there are;
// where each signal's name starts and ends, and so each label; for each signal, one more than the number of its process, counted from 1 (0: none yet).
pub const NUMBER: usize = 0;

pub const PLACE: usize = 1;

pub const SIGNALS: usize = 2;

const LABELS: usize = 3;

pub const PROCESSES: usize = 4;

pub const INSTRUCTIONS: usize = 5;

pub const SIGNAL_NAMES: usize = 6;

const LABEL_NAMES: usize = 134;

const DRIVERS: usize = 264;

// The ledger before the first token.
pub fn fresh() -> [u64; 328]
    ensures { (text : List ℕ) → Keeps 0 text result (fine nothing_yet) }
{
    [0u64; 328]
}

// The name is that of a signal or a label.
fn is_used(text: &[u8], ledger: &[u64; 328], name: Look) -> bool
    requires signals { Shelf text.now ledger.now 6 (get_or ledger.now 2 0) }
    requires labels { Shelf text.now ledger.now 134 (get_or ledger.now 3 0) }
    requires span { Span text.now name.start name.end }
    ensures { result ≡ used_in text.now ledger.now (name_at text.now name.start name.end) }
{
    let signals = ledger[SIGNALS] as usize;
    let labels = ledger[LABELS] as usize;
    find(text, ledger, SIGNAL_NAMES, signals, name).is_some()
        || find(text, ledger, LABEL_NAMES, labels, name).is_some()
}

// A name in a declaration of signals.
pub fn declare(text: &[u8], ledger: &mut [u64; 328], name: Look)
    requires sound { Sound 0 text.now ledger.old }
    requires span { Span text.now name.start name.end }
    ensures { Judges 0 0 text.now (declares (name_at text.now name.start name.end)) name.start ledger.old ledger.new }
{
    if ledger[NUMBER] != 0 {
        return;
    }
    if is_used(text, ledger, name) {
        refuse(ledger, Reason::Taken, name.start);
        return;
    }
    if ledger[SIGNALS] == 64 {
        refuse(ledger, Reason::Size, name.start);
        return;
    }
    add(ledger, SIGNALS, SIGNAL_NAMES, name);
}

// The label of a process, which is not yet opened.
pub fn label(text: &[u8], ledger: &mut [u64; 328], name: Look)
    requires sound { Sound 0 text.now ledger.old }
    requires span { Span text.now name.start name.end }
    ensures { Judges 0 1 text.now (labels (name_at text.now name.start name.end)) name.start ledger.old ledger.new }
{
    if ledger[NUMBER] != 0 {
        return;
    }
    if is_used(text, ledger, name) {
        refuse(ledger, Reason::Taken, name.start);
        return;
    }
    add(ledger, LABELS, LABEL_NAMES, name);
}

// The word `process` that opens one.
pub fn open_process(ledger: &mut [u64; 328], start: usize)
    requires { Held 1 ledger.old }
    ensures { (text : List ℕ) → Judges 1 0 text opens start ledger.old ledger.new }
{
    if ledger[NUMBER] != 0 {
        return;
    }
    if ledger[PROCESSES] == 64 {
        refuse(ledger, Reason::Size, start);
        return;
    }
    ledger[PROCESSES] += 1;
}

// A token that stands for so many instructions.
pub fn count(ledger: &mut [u64; 328], instructions: u64, start: usize)
    requires held { Held 0 ledger.old }
    requires instructions_bound { instructions ≤ 2 }
    ensures { (text : List ℕ) → Judges 0 0 text (counts instructions) start ledger.old ledger.new }
{
    if ledger[NUMBER] != 0 {
        return;
    }
    let all = ledger[INSTRUCTIONS] + instructions;
    if all > 4096 {
        refuse(ledger, Reason::Size, start);
        return;
    }
    ledger[INSTRUCTIONS] = all;
}

// A name in a sensitivity list. The answer is the signal's number.
pub fn listen(text: &[u8], ledger: &mut [u64; 328], name: Look) -> usize
    requires sound { Sound 0 text.now ledger.old }
    requires span { Span text.now name.start name.end }
    ensures judges { Judges 0 0 text.now (listens (name_at text.now name.start name.end)) name.start ledger.old ledger.new }
    ensures numbers { Numbers text.now ledger.old (name_at text.now name.start name.end) result }
    ensures below { get_or ledger.new 0 0 ≡ 0 → result < 64 }
{
    if ledger[NUMBER] != 0 {
        return 0;
    }
    let signals = ledger[SIGNALS] as usize;
    match find(text, ledger, SIGNAL_NAMES, signals, name) {
        Some(number) => number,
        None => {
            refuse(ledger, Reason::Unknown, name.start);
            signals
        }
    }
}

// A name in an expression. The answer is the signal's number.
pub fn read_signal(text: &[u8], ledger: &mut [u64; 328], name: Look) -> usize
    requires sound { Sound 0 text.now ledger.old }
    requires span { Span text.now name.start name.end }
    ensures judges { Judges 0 0 text.now (reads (name_at text.now name.start name.end)) name.start ledger.old ledger.new }
    ensures numbers { Numbers text.now ledger.old (name_at text.now name.start name.end) result }
{
    let number = listen(text, ledger, name);
    count(ledger, 1, name.start);
    number
}

// A signal's word says that a process before the last assigns it.
fn is_earlier(driver: u64, processes: u64) -> bool
    ensures { result ≡ within 1 processes driver }
{
    1 <= driver && driver <= processes
}

// The last process assigns a signal.
fn drive(ledger: &mut [u64; 328], signal: usize, start: usize)
    requires held { Held 0 ledger.old }
    requires signal_bound { get_or ledger.old 0 0 ≡ 0 → signal < 64 }
    ensures { (text : List ℕ) → Drives text signal start ledger.old ledger.new }
{
    if ledger[NUMBER] != 0 {
        return;
    }
    let processes = ledger[PROCESSES];
    if is_earlier(ledger[DRIVERS + signal], processes) {
        refuse(ledger, Reason::Driver, start);
        return;
    }
    ledger[DRIVERS + signal] = processes + 1;
}

// A name left of `<=`. The answer is the signal's number.
pub fn assign(text: &[u8], ledger: &mut [u64; 328], name: Look) -> usize
    requires sound { Sound 0 text.now ledger.old }
    requires span { Span text.now name.start name.end }
    ensures judges { Judges 0 0 text.now (assigns (name_at text.now name.start name.end)) name.start ledger.old ledger.new }
    ensures numbers { Numbers text.now ledger.old (name_at text.now name.start name.end) result }
{
    let number = listen(text, ledger, name);
    drive(ledger, number, name.start);
    count(ledger, 1, name.start);
    number
}

// Two names of the text are the same.
fn same_name(text: &[u8], one: Look, other: Look) -> bool
    requires { Span text.now one.start one.end × Span text.now other.start other.end }
    ensures { result ≡ same_list (name_at text.now one.start one.end) (name_at text.now other.start other.end) }
{
    same_word(&text[one.start..one.end], &text[other.start..other.end])
}

// The name after `of`, and the entity's own.
pub fn belong(text: &[u8], ledger: &mut [u64; 328], own: Look, name: Look)
    requires sound { Sound 0 text.now ledger.old }
    requires span { Span text.now own.start own.end × Span text.now name.start name.end }
    ensures { Judges 0 0 text.now (belongs (name_at text.now own.start own.end) (name_at text.now name.start name.end)) name.start ledger.old ledger.new }
{
    if ledger[NUMBER] != 0 {
        return;
    }
    if same_name(text, own, name) {
        return;
    }
    refuse(ledger, Reason::Unknown, name.start);
}

// A closing name, and the name of what it closes, where that has one.
pub fn close(text: &[u8], ledger: &mut [u64; 328], own: Option<Look>, name: Look)
    requires sound { Sound 0 text.now ledger.old }
    requires span { SpanIfAny text.now own × Span text.now name.start name.end }
    ensures { Judges 0 0 text.now (closes (name_if_any text.now own) (name_at text.now name.start name.end)) name.start ledger.old ledger.new }
{
    if ledger[NUMBER] != 0 {
        return;
    }
    if let Some(own) = own {
        if same_name(text, own, name) {
            return;
        }
    }
    refuse(ledger, Reason::Closing, name.start);
}

// The integer of a delay in a unit. The answer is the delay in femtoseconds.
pub fn delay(text: &[u8], ledger: &mut [u64; 328], integer: Look, unit: TimeUnit) -> u64
    requires sound { Sound 0 text.now ledger.old }
    requires span { Span text.now integer.start integer.end }
    ensures judges { Judges 0 0 text.now (delays (value_of (part text.now integer.start integer.end)) unit) integer.start ledger.old ledger.new }
    ensures lasts { Lasts ledger.old (value_of (part text.now integer.start integer.end)) unit result }
{
    if ledger[NUMBER] != 0 {
        return 0;
    }
    match time_of(&text[integer.start..integer.end], unit) {
        Some(time) => {
            return time;
        }
        None => {
            refuse(ledger, Reason::Delay, integer.start);
            return 0;
        }
    }
}
