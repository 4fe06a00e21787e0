// Statements. The nesting room falls with each `if`.
#![tactic(auto)]

ghost use Rattle.std.specs.Prelude.{◌≡◌, true, List, ℕ, ◌≤◌, length};
ghost use Rattle.syntax.proofs.Rows.{in_then};
ghost use Rattle.emission.specs.Inside.Draft.{otherwise_draft};
ghost use Rattle.look.specs.Inside.Looks.{kind_seen, look_of};
ghost use Rattle.look.specs.Inside.Tokens.{number_of};
ghost use Rattle.reading.specs.Inside.Spots.{at_spot, reached, Forward, end_if_of, starter, Stops};
ghost use Rattle.reading.specs.Inside.Reading.{Ready, Reads, a_statement, some_statements, closes, finish_roles};
ghost use Rattle.statements.specs.Inside.Ending.{ending_reached, ending_delay, Ends};

use emission::{aim, emit};
use expressions::expression;
use kind::Kind;
use ledger::{assign, count};
use look::token::Token;
use look::{Look, peek};
use reading::{Spot, Unfit, token, word};

// Where reading stands behind an assignment, and its delay.
#[derive(Clone, Copy, Debug, PartialEq, Eq)]
pub struct Ending {
    pub spot: Spot,
    pub delay: u64,
}

// unit `;`, behind `after`, which stands at p, and the integer i.
fn unit_end(text: &[u8], ledger: &mut [u64; 328], p: Spot, i: Look) -> Result<Ending, Unfit>
    requires ready { Ready 0 text.now (at_spot p) ledger.old × (kind_seen (look_of text.now p.at) ≡ 10) }
    requires i_value { (i ≡ look_of text.now (look_of text.now p.at).end) × (kind_seen i ≡ 109) }
    ensures { (room : ℕ) (words : List ℕ) → Ends text.now room (at_spot p) (ending_reached result) (ending_delay result) ledger.old ledger.new words }
{
    let u = peek(text, i.end);
    let Some(unit) = u.token.unit() else {
        return Err(Unfit::NoSentence(u.start));
    };
    let delay = ledger::delay(text, ledger, i, unit);
    let spot = word(text, p.past(u), Token::Semicolon)?;
    Ok(Ending { spot, delay })
}

// [`after` integer unit] `;`
fn delay_end(text: &[u8], ledger: &mut [u64; 328], p: Spot) -> Result<Ending, Unfit>
    requires { Ready 0 text.now (at_spot p) ledger.old }
    ensures { (room : ℕ) (words : List ℕ) → Ends text.now room (at_spot p) (ending_reached result) (ending_delay result) ledger.old ledger.new words }
{
    let t = peek(text, p.at);
    if t.token != Token::After {
        let spot = word(text, p, Token::Semicolon)?;
        return Ok(Ending { spot, delay: 0 });
    }
    let i = token(text, t.end, Token::Integer)?;
    unit_end(text, ledger, p, i)
}

// An assignment, whose target is the next token.
fn assignment(
    text: &[u8],
    ledger: &mut [u64; 328],
    table: &mut [u64],
    p: Spot,
    t: Look,
    room: usize,
) -> Result<Spot, Unfit>
    requires ready { Ready 0 text.now (at_spot p) ledger.old }
    requires target { (t ≡ look_of text.now p.at) × (kind_seen t ≡ 108) }
    ensures { Reads a_statement text.now room (at_spot p) (reached result) ledger.old ledger.new table.old table.new × Forward (at_spot p) (reached result) }
{
    let k = assign(text, ledger, t);
    let a = word(text, p.past(t), Token::Arrow)?;
    let b = word(text, a, Token::Transport)?;
    let e = expression(text, ledger, table, b, room)?;
    let d = delay_end(text, ledger, e)?;
    let next = emit(table, d.spot.next, (9 + 16 * k) as u64, d.delay);
    Ok(Spot {
        at: d.spot.at,
        next,
    })
}

// `end` `if` `;`
fn end_if(text: &[u8], p: Spot) -> Result<Spot, Unfit>
    requires { p.at ≤ length text.now }
    ensures { reached result ≡ end_if_of text.now (at_spot p) }
{
    let a = word(text, p, Token::End)?;
    let b = word(text, a, Token::If)?;
    word(text, b, Token::Semicolon)
}

// A statement begins with a name, `if` or `null`.
fn starts(token: Token) -> bool
    ensures { result ≡ starter (number_of token) }
{
    matches!(token, Token::Name | Token::If | Token::Null)
}

// [`else` {statement}] `end` `if` `;`
#[cycle(conditional_finish_statement_statements)]
fn finish(
    text: &[u8],
    ledger: &mut [u64; 328],
    table: &mut [u64],
    p: Spot,
    room: usize,
) -> Result<Spot, Unfit>
    requires { Ready 0 text.now (at_spot p) ledger.old × Stops text.now (at_spot p) }
    ensures { Reads (closes in_then finish_roles otherwise_draft) text.now room (at_spot p) (reached result) ledger.old ledger.new table.old table.new }
{
    let t = peek(text, p.at);
    if t.token != Token::Else {
        return end_if(text, p);
    }
    let q = statements(text, ledger, table, p.past(t), room)?;
    end_if(text, q)
}

// An `if`, whose word is the next token: two instructions, whose targets are known behind the arms.
#[cycle(conditional_finish_statement_statements)]
fn conditional(
    text: &[u8],
    ledger: &mut [u64; 328],
    table: &mut [u64],
    p: Spot,
    t: Look,
    room: usize,
) -> Result<Spot, Unfit>
    requires { Ready 0 text.now (at_spot p) ledger.old × (t ≡ look_of text.now p.at) × (kind_seen t ≡ 11) }
    ensures { Reads a_statement text.now room (at_spot p) (reached result) ledger.old ledger.new table.old table.new × Forward (at_spot p) (reached result) }
{
    if room == 0 {
        return Err(Unfit::TooDeep(t.start));
    }
    count(ledger, 2, t.start);
    let e = expression(text, ledger, table, p.past(t), room - 1)?;
    let a = word(text, e, Token::Then)?;
    let first = emit(table, a.next, 10, 0);
    let inside = Spot {
        at: a.at,
        next: first,
    };
    let b = statements(text, ledger, table, inside, room - 1)?;
    let second = emit(table, b.next, 11, 0);
    let between = Spot {
        at: b.at,
        next: second,
    };
    let q = finish(text, ledger, table, between, room - 1)?;
    aim(table, a.next, Kind::Test, second);
    aim(table, b.next, Kind::Skip, q.next);
    Ok(q)
}

// One statement, which begins with the next token.
#[cycle(conditional_finish_statement_statements)]
fn statement(
    text: &[u8],
    ledger: &mut [u64; 328],
    table: &mut [u64],
    p: Spot,
    t: Look,
    room: usize,
) -> Result<Spot, Unfit>
    requires { Ready 0 text.now (at_spot p) ledger.old × (t ≡ look_of text.now p.at) × (starter (kind_seen t) ≡ true) }
    ensures { Reads a_statement text.now room (at_spot p) (reached result) ledger.old ledger.new table.old table.new × Forward (at_spot p) (reached result) }
{
    match t.token {
        Token::Name => assignment(text, ledger, table, p, t, room),
        Token::If => conditional(text, ledger, table, p, t, room),
        _ => word(text, p.past(t), Token::Semicolon),
    }
}

// {statement}, up to a token that begins none.
#[cycle(conditional_finish_statement_statements)]
pub fn statements(
    text: &[u8],
    ledger: &mut [u64; 328],
    table: &mut [u64],
    first: Spot,
    room: usize,
) -> Result<Spot, Unfit>
    requires { Ready 0 text.now (at_spot first) ledger.old }
    ensures { Reads some_statements text.now room (at_spot first) (reached result) ledger.old ledger.new table.old table.new × Stops text.now (reached result) }
{
    let mut p = first;
    loop {
        let t = peek(text, p.at);
        if !starts(t.token) {
            return Ok(p);
        }
        p = statement(text, ledger, table, p, t, room)?;
    }
}
