// Expressions. Expression, factor and primary call each other in a cycle; the nesting room falls with each bracket.
#![tactic(auto)]

ghost use Rattle.std.specs.Prelude.{ℕ, ◌≤◌, ◌<◌, ◌≡◌, List, length};
ghost use Rattle.syntax.proofs.Rows.{a_primary, a_factor};
ghost use Rattle.names.specs.Roles.{primary_roles, factor_roles};
ghost use Rattle.emission.specs.Inside.Draft.{primary_draft, factor_draft};
ghost use Rattle.table.specs.Instructions.{Instruction};
ghost use Rattle.layout.specs.TableWords.{operation_word};
ghost use Rattle.look.specs.Inside.Looks.{kind_seen, look_of, chain_of, literal_of};
ghost use Rattle.look.specs.Inside.Tokens.{number_of};
ghost use Rattle.ledger.specs.Inside.Standing.{Held};
ghost use Rattle.reading.specs.Inside.Spots.{at_spot, reached};
ghost use Rattle.reading.specs.Inside.Reading.{Ready, Reads, whole, an_expression, a_tail, a_more};

use emission::{binary, emit};
use ledger::{count, read_signal};
use look::token::Token;
use look::{Look, peek};
use reading::{Spot, Unfit, word};

// A name, which is the next token.
fn signal(text: &[u8], ledger: &mut [u64; 328], table: &mut [u64], p: Spot, t: Look) -> Spot
    requires { Ready 0 text.now (at_spot p) ledger.old × (t ≡ look_of text.now p.at) × (kind_seen t ≡ 108) }
    ensures { (room : ℕ) → Reads (whole a_primary primary_roles primary_draft) text.now room (at_spot p) (at_spot result) ledger.old ledger.new table.old table.new }
{
    let k = read_signal(text, ledger, t);
    let next = emit(table, p.next, (16 * k) as u64, 0);
    Spot { at: t.end, next }
}

// A literal, which is the next token, by its operation.
fn literal(ledger: &mut [u64; 328], table: &mut [u64], p: Spot, t: Look, operation: u64) -> Spot
    requires { Held 0 ledger.old × (22 ≤ kind_seen t) × (kind_seen t < 24) × (operation ≡ operation_word (Instruction.literal (literal_of (kind_seen t)))) }
    ensures { (text : List ℕ) (room : ℕ) → p.at ≤ length text → t ≡ look_of text p.at → Reads (whole a_primary primary_roles primary_draft) text room (at_spot p) (at_spot result) ledger.old ledger.new table.old table.new }
{
    count(ledger, 1, t.start);
    let next = emit(table, p.next, operation, 0);
    Spot { at: t.end, next }
}

// A name, a literal, or an expression in brackets.
#[cycle(chain_expression_factor_primary_tail)]
pub fn primary(
    text: &[u8],
    ledger: &mut [u64; 328],
    table: &mut [u64],
    p: Spot,
    room: usize,
) -> Result<Spot, Unfit>
    requires { Ready 0 text.now (at_spot p) ledger.old }
    ensures { Reads (whole a_primary primary_roles primary_draft) text.now room (at_spot p) (reached result) ledger.old ledger.new table.old table.new }
{
    let t = peek(text, p.at);
    match t.token {
        Token::Name => Ok(signal(text, ledger, table, p, t)),
        Token::True => Ok(literal(ledger, table, p, t, 17)),
        Token::False => Ok(literal(ledger, table, p, t, 1)),
        Token::Open => {
            if room == 0 {
                return Err(Unfit::TooDeep(t.start));
            }
            let q = expression(text, ledger, table, p.past(t), room - 1)?;
            word(text, q, Token::Close)
        }
        _ => Err(Unfit::NoSentence(t.start)),
    }
}

#[cycle(chain_expression_factor_primary_tail)]
pub fn factor(
    text: &[u8],
    ledger: &mut [u64; 328],
    table: &mut [u64],
    p: Spot,
    room: usize,
) -> Result<Spot, Unfit>
    requires { Ready 0 text.now (at_spot p) ledger.old }
    ensures { Reads (whole a_factor factor_roles factor_draft) text.now room (at_spot p) (reached result) ledger.old ledger.new table.old table.new }
{
    let t = peek(text, p.at);
    if t.token != Token::Not {
        return primary(text, ledger, table, p, room);
    }
    count(ledger, 1, t.start);
    let q = primary(text, ledger, table, p.past(t), room)?;
    let next = emit(table, q.next, 2, 0);
    Ok(Spot { at: q.at, next })
}

#[cycle(chain_expression_factor_primary_tail)]
pub fn expression(
    text: &[u8],
    ledger: &mut [u64; 328],
    table: &mut [u64],
    p: Spot,
    room: usize,
) -> Result<Spot, Unfit>
    requires { Ready 0 text.now (at_spot p) ledger.old }
    ensures { Reads an_expression text.now room (at_spot p) (reached result) ledger.old ledger.new table.old table.new }
{
    let q = factor(text, ledger, table, p, room)?;
    tail(text, ledger, table, q, room)
}

// What follows the first factor.
#[cycle(chain_expression_factor_primary_tail)]
pub fn tail(
    text: &[u8],
    ledger: &mut [u64; 328],
    table: &mut [u64],
    p: Spot,
    room: usize,
) -> Result<Spot, Unfit>
    requires { Ready 0 text.now (at_spot p) ledger.old }
    ensures { Reads a_tail text.now room (at_spot p) (reached result) ledger.old ledger.new table.old table.new }
{
    let t = peek(text, p.at);
    if !t.token.joins() {
        return Ok(p);
    }
    count(ledger, 1, t.start);
    let q = factor(text, ledger, table, p.past(t), room)?;
    let next = emit(table, q.next, binary(t.token), 0);
    let joined = Spot { at: q.at, next };
    if !t.token.chains() {
        return Ok(joined);
    }
    chain(text, ledger, table, joined, room, t.token)
}

// More factors, joined by the same word.
#[cycle(chain_expression_factor_primary_tail)]
pub fn chain(
    text: &[u8],
    ledger: &mut [u64; 328],
    table: &mut [u64],
    first: Spot,
    room: usize,
    joint: Token,
) -> Result<Spot, Unfit>
    requires { Ready 0 text.now (at_spot first) ledger.old × (18 ≤ number_of joint) × (number_of joint < 22) }
    ensures { Reads (a_more (chain_of (number_of joint))) text.now room (at_spot first) (reached result) ledger.old ledger.new table.old table.new }
{
    let mut p = first;
    loop {
        let t = peek(text, p.at);
        if t.token != joint {
            return Ok(p);
        }
        count(ledger, 1, t.start);
        let q = factor(text, ledger, table, p.past(t), room)?;
        let next = emit(table, q.next, binary(joint), 0);
        p = Spot { at: q.at, next };
    }
}
