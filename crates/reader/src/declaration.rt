// Declarations of signals.
ghost use Rattle.std.specs.Prelude.{◌≡◌, List, ℕ, ◌≤◌, length, get_or};
ghost use Rattle.syntax.proofs.Rows.{a_name, initial_value, more_signals, signals};
ghost use Rattle.emission.specs.Inside.Draft.{with_name, declarations_draft};
ghost use Rattle.reading.specs.Inside.Spots.{at_spot, reached};
ghost use Rattle.reading.specs.Inside.Reading.{Ready, Reads, whole, declares_roles, initial_roles, more_signals_roles, signals_roles, initial_draft, more_signals_draft};

use emission::start_values;
use ledger::{SIGNALS, declare};
use look::peek;
use look::token::Token;
use reading::{Spot, Unfit, token, word};

// A name in a declaration.
fn declared(text: &[u8], ledger: &mut [u64; 328], p: Spot) -> Result<Spot, Unfit>
    requires { Ready 0 text.now (at_spot p) ledger.old }
    ensures { (v : List ℕ) → Reads (whole a_name declares_roles with_name) text.now 32 (at_spot p) (reached result) ledger.old ledger.new v v }
{
    let t = token(text, p.at, Token::Name)?;
    declare(text, ledger, t);
    Ok(p.past(t))
}

// [`:=` literal] `;`, for the signals from the first on; upto is how many there are.
fn initial(
    text: &[u8],
    table: &mut [u64],
    p: Spot,
    first: usize,
    upto: usize,
) -> Result<Spot, Unfit>
    requires { p.at ≤ length text.now }
    ensures { (l : List ℕ) → upto ≡ get_or l 2 0 → Reads (whole initial_value initial_roles (initial_draft first)) text.now 32 (at_spot p) (reached result) l l table.old table.new }
{
    let t = peek(text, p.at);
    if t.token != Token::Becomes {
        return word(text, p, Token::Semicolon);
    }
    let u = peek(text, t.end);
    if !u.token.is_literal() {
        return Err(Unfit::NoSentence(u.start));
    }
    start_values(table, first, upto, u.token);
    word(text, p.past(u), Token::Semicolon)
}

// {`,` name} `:` `boolean` [`:=` literal] `;`
fn more_signals(
    text: &[u8],
    ledger: &mut [u64; 328],
    table: &mut [u64],
    first: Spot,
    from: usize,
) -> Result<Spot, Unfit>
    requires { Ready 0 text.now (at_spot first) ledger.old }
    ensures { Reads (whole more_signals more_signals_roles (more_signals_draft from)) text.now 32 (at_spot first) (reached result) ledger.old ledger.new table.old table.new }
{
    let mut p = first;
    loop {
        let t = peek(text, p.at);
        if t.token != Token::Comma {
            let a = word(text, p, Token::Colon)?;
            let b = word(text, a, Token::Boolean)?;
            let upto = ledger[SIGNALS] as usize;
            return initial(text, table, b, from, upto);
        }
        p = declared(text, ledger, p.past(t))?;
    }
}

// {signal} `begin`
pub fn declarations(
    text: &[u8],
    ledger: &mut [u64; 328],
    table: &mut [u64],
    first: Spot,
) -> Result<Spot, Unfit>
    requires { Ready 0 text.now (at_spot first) ledger.old }
    ensures { Reads (whole signals signals_roles declarations_draft) text.now 32 (at_spot first) (reached result) ledger.old ledger.new table.old table.new }
{
    let mut p = first;
    loop {
        let t = peek(text, p.at);
        if t.token != Token::Signal {
            return word(text, p, Token::Begin);
        }
        let from = ledger[SIGNALS] as usize;
        let a = declared(text, ledger, p.past(t))?;
        p = more_signals(text, ledger, table, a, from)?;
    }
}
