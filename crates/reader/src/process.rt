// Processes.
ghost use Rattle.std.specs.Prelude.{◌≡◌, List, ℕ, ◌≤◌, length};
ghost use Rattle.syntax.proofs.Rows.{a_name, more_listed, closing_name, process_body, processes, beginning as beginning_symbol};
ghost use Rattle.look.specs.Inside.Looks.{kind_seen, look_of};
ghost use Rattle.ledger.specs.Inside.Standing.{SpanIfAny, name_if_any};
ghost use Rattle.emission.specs.Inside.Draft.{with_listener, processes_draft};
ghost use Rattle.reading.specs.Inside.Spots.{at_spot, reached, Forward};
ghost use Rattle.reading.specs.Inside.Reading.{Ready, Reads, Opens, whole, a_list, a_process, listens_roles, more_listed_roles, beginning_roles, closing_name_roles, body_roles, processes_end_roles, silent, more_listed_draft, body_draft};

use emission::{end_process, wake};
use ledger::{PROCESSES, close, label, listen, open_process};
use look::token::Token;
use look::{Look, peek};
use reading::{Spot, Unfit, token, word};
use statements::statements;

// A name in a sensitivity list.
fn listened(text: &[u8], ledger: &mut [u64; 328], table: &mut [u64], p: Spot) -> Result<Spot, Unfit>
    requires { Ready 0 text.now (at_spot p) ledger.old }
    ensures { Reads (whole a_name listens_roles with_listener) text.now 32 (at_spot p) (reached result) ledger.old ledger.new table.old table.new }
{
    let t = token(text, p.at, Token::Name)?;
    let k = listen(text, ledger, t);
    wake(table, k, ledger[PROCESSES]);
    Ok(p.past(t))
}

// {`,` name} `)`
fn more_listed(
    text: &[u8],
    ledger: &mut [u64; 328],
    table: &mut [u64],
    first: Spot,
) -> Result<Spot, Unfit>
    requires { Ready 0 text.now (at_spot first) ledger.old }
    ensures { Reads (whole more_listed more_listed_roles more_listed_draft) text.now 32 (at_spot first) (reached result) ledger.old ledger.new table.old table.new }
{
    let mut p = first;
    loop {
        let t = peek(text, p.at);
        if t.token != Token::Comma {
            return word(text, p, Token::Close);
        }
        p = listened(text, ledger, table, p.past(t))?;
    }
}

// [`(` name {`,` name} `)`]
fn list(text: &[u8], ledger: &mut [u64; 328], table: &mut [u64], p: Spot) -> Result<Spot, Unfit>
    requires { Ready 0 text.now (at_spot p) ledger.old }
    ensures { Reads a_list text.now 32 (at_spot p) (reached result) ledger.old ledger.new table.old table.new }
{
    let t = peek(text, p.at);
    if t.token != Token::Open {
        return Ok(p);
    }
    let a = listened(text, ledger, table, p.past(t))?;
    more_listed(text, ledger, table, a)
}

// [`is`] `begin`
fn beginning(text: &[u8], p: Spot) -> Result<Spot, Unfit>
    requires { p.at ≤ length text.now }
    ensures { (l v : List ℕ) → Reads (whole beginning_symbol beginning_roles silent) text.now 32 (at_spot p) (reached result) l l v v }
{
    let t = peek(text, p.at);
    if t.token != Token::Is {
        return word(text, p, Token::Begin);
    }
    word(text, p.past(t), Token::Begin)
}

// [name] `;`, and the name of what is closed, where that has one.
pub fn closing_name(
    text: &[u8],
    ledger: &mut [u64; 328],
    p: Spot,
    own: Option<Look>,
) -> Result<Spot, Unfit>
    requires { Ready 0 text.now (at_spot p) ledger.old × SpanIfAny text.now own }
    ensures { (v : List ℕ) → Reads (whole closing_name (closing_name_roles (name_if_any text.now own)) silent) text.now 32 (at_spot p) (reached result) ledger.old ledger.new v v }
{
    let t = peek(text, p.at);
    if t.token != Token::Name {
        return word(text, p, Token::Semicolon);
    }
    close(text, ledger, own, t);
    word(text, p.past(t), Token::Semicolon)
}

// What follows the word `process`.
fn body(
    text: &[u8],
    ledger: &mut [u64; 328],
    table: &mut [u64],
    p: Spot,
    own: Option<Look>,
) -> Result<Spot, Unfit>
    requires { Ready 0 text.now (at_spot p) ledger.old × SpanIfAny text.now own }
    ensures { Reads (whole process_body (body_roles (name_if_any text.now own)) body_draft) text.now 32 (at_spot p) (reached result) ledger.old ledger.new table.old table.new }
{
    let a = list(text, ledger, table, p)?;
    let b = beginning(text, a)?;
    let c = statements(text, ledger, table, b, 32)?;
    end_process(table, ledger[PROCESSES], c.next);
    let d = word(text, c, Token::End)?;
    let e = word(text, d, Token::Process)?;
    closing_name(text, ledger, e, own)
}

// The word `process` that opens one.
fn opening(text: &[u8], ledger: &mut [u64; 328], p: Spot) -> Result<Spot, Unfit>
    requires { Ready 1 text.now (at_spot p) ledger.old }
    ensures { (v : List ℕ) → Opens text.now (at_spot p) (reached result) ledger.old ledger.new v }
{
    let t = token(text, p.at, Token::Process)?;
    open_process(ledger, t.start);
    Ok(p.past(t))
}

// [name `:`] `process` and what follows; the next token is not `end`.
fn process(
    text: &[u8],
    ledger: &mut [u64; 328],
    table: &mut [u64],
    p: Spot,
    t: Look,
) -> Result<Spot, Unfit>
    requires ready { Ready 0 text.now (at_spot p) ledger.old }
    requires first { (t ≡ look_of text.now p.at) × (kind_seen t ≡ 2 → ⊥) }
    ensures { Reads a_process text.now 32 (at_spot p) (reached result) ledger.old ledger.new table.old table.new × Forward (at_spot p) (reached result) }
{
    if t.token == Token::Name {
        label(text, ledger, t);
        let a = word(text, p.past(t), Token::Colon)?;
        let b = opening(text, ledger, a)?;
        return body(text, ledger, table, b, Some(t));
    }
    let b = opening(text, ledger, p)?;
    body(text, ledger, table, b, None)
}

// {process} `end`
pub fn process_list(
    text: &[u8],
    ledger: &mut [u64; 328],
    table: &mut [u64],
    first: Spot,
) -> Result<Spot, Unfit>
    requires { Ready 0 text.now (at_spot first) ledger.old }
    ensures { Reads (whole processes processes_end_roles processes_draft) text.now 32 (at_spot first) (reached result) ledger.old ledger.new table.old table.new }
{
    let mut p = first;
    loop {
        let t = peek(text, p.at);
        if t.token == Token::End {
            return Ok(p.past(t));
        }
        p = process(text, ledger, table, p, t)?;
    }
}
