// The whole text: refusals 1 to 10.
ghost use Rattle.std.specs.Prelude.{◌≡◌, List, ℕ, ◌≤◌, ◌<◌, length};
ghost use Rattle.syntax.proofs.Rows.{Part, a_name, part_word, closing as closing_part};
ghost use Rattle.look.specs.Inside.Looks.{name_at};
ghost use Rattle.look.specs.Inside.Tokens.{number_of};
ghost use Rattle.look.proofs.Numbers.{fixed_kind};
ghost use Rattle.ledger.specs.Inside.Standing.{Sound, Keeps, Span};
ghost use Rattle.std.proofs.Math.Option.{some};
ghost use Rattle.names.specs.Judge.{fine, nothing_yet};
ghost use Rattle.names.specs.Text.{Scanned};
ghost use Rattle.reader.specs.Answers.{Answers};
ghost use Rattle.reading.specs.Inside.Spots.{at_spot, reached};
ghost use Rattle.reading.specs.Inside.Reading.{Ready, Reads, whole, belongs_roles, closing_part_roles, silent};
ghost use Rattle.reader.specs.Inside.Designs.{Finished, Behind, Designed, Surveyed};

use crate::declaration::declarations;
use crate::process::{closing_name, process_list};
use ledger::{NUMBER, PLACE, belong, fresh};
use lexis::token::first_refused;
use look::token::Token;
use look::{Look, peek};
use reading::{Spot, Unfit, token, word};
use refusal::{Reason, Refusal};

// The name after `of`, which is to be the entity's.
fn of_name(text: &[u8], ledger: &mut [u64; 328], p: Spot, entity: Look) -> Result<Spot, Unfit>
    requires { Ready 0 text.now (at_spot p) ledger.old × Span text.now entity.start entity.end }
    ensures { (v : List ℕ) → Reads (whole a_name (belongs_roles (name_at text.now entity.start entity.end)) silent) text.now 32 (at_spot p) (reached result) ledger.old ledger.new v v }
{
    let t = token(text, p.at, Token::Name)?;
    belong(text, ledger, entity, t);
    Ok(p.past(t))
}

// [`entity` or `architecture`] [name] `;`
fn closing(
    text: &[u8],
    ledger: &mut [u64; 328],
    p: Spot,
    part: Token,
    own: Look,
) -> Result<Spot, Unfit>
    requires { Ready 0 text.now (at_spot p) ledger.old × Span text.now own.start own.end × (number_of part < 117) }
    ensures { (u : Part) → number_of part ≡ fixed_kind (part_word u) → (v : List ℕ) → Reads (whole (closing_part u) (closing_part_roles (some (name_at text.now own.start own.end))) silent) text.now 32 (at_spot p) (reached result) ledger.old ledger.new v v }
{
    let t = peek(text, p.at);
    if t.token != part {
        return closing_name(text, ledger, p, Some(own));
    }
    closing_name(text, ledger, p.past(t), Some(own))
}

// The end of the text.
fn finished(text: &[u8], p: Spot) -> Result<Spot, Unfit>
    requires { p.at ≤ length text.now }
    ensures { Finished text.now (at_spot p) (reached result) }
{
    token(text, p.at, Token::Finish)?;
    Ok(p)
}

// From the word `architecture` to the end of the text.
fn architecture(
    text: &[u8],
    ledger: &mut [u64; 328],
    table: &mut [u64],
    p: Spot,
    entity: Look,
) -> Result<Spot, Unfit>
    requires { Ready 0 text.now (at_spot p) ledger.old × Span text.now entity.start entity.end }
    ensures { Behind text.now (name_at text.now entity.start entity.end) (at_spot p) (reached result) ledger.old ledger.new table.old table.new }
{
    let a = word(text, p, Token::Architecture)?;
    let own = token(text, a.at, Token::Name)?;
    let c = word(text, a.past(own), Token::Of)?;
    let d = of_name(text, ledger, c, entity)?;
    let e = word(text, d, Token::Is)?;
    let f = declarations(text, ledger, table, e)?;
    let g = process_list(text, ledger, table, f)?;
    let h = closing(text, ledger, g, Token::Architecture, own)?;
    finished(text, h)
}

// The whole text.
pub fn design(text: &[u8], ledger: &mut [u64; 328], table: &mut [u64]) -> Result<Spot, Unfit>
    requires { Sound 0 text.now ledger.old }
    ensures { Designed text.now (reached result) ledger.old ledger.new table.old table.new }
{
    let p = Spot { at: 0, next: 0 };
    let a = word(text, p, Token::Entity)?;
    let own = token(text, a.at, Token::Name)?;
    let c = word(text, a.past(own), Token::Is)?;
    let d = word(text, c, Token::End)?;
    let e = closing(text, ledger, d, Token::Entity, own)?;
    architecture(text, ledger, table, e, own)
}

// A text that neither 1 nor 2 refuses, over a fresh ledger.
fn judged(text: &[u8], ledger: &mut [u64; 328], table: &mut [u64]) -> Result<(), Refusal>
    requires { Scanned text.now × Keeps 0 text.now ledger.old (fine nothing_yet) }
    ensures { Surveyed text.now result ledger.new }
{
    design(text, ledger, table)?;
    match Reason::try_from(ledger[NUMBER]) {
        Ok(reason) => Err(Refusal {
            reason,
            place: ledger[PLACE] as usize,
        }),
        Err(_) => Ok(()),
    }
}

// Refusals 1 to 10 of any bytes, over a fresh ledger, which has the names of the signals where none applies.
pub fn survey(text: &[u8], ledger: &mut [u64; 328], table: &mut [u64]) -> Result<(), Refusal>
    requires { Keeps 0 text.now ledger.old (fine nothing_yet) }
    ensures { Surveyed text.now result ledger.new }
{
    if 60000 < text.len() {
        return Err(Reason::LongText.into());
    }
    match first_refused(text) {
        Some(place) => Err(Refusal {
            reason: Reason::Token,
            place,
        }),
        None => judged(text, ledger, table),
    }
}

// Refusals 1 to 10, of any bytes.
pub fn check(text: &[u8]) -> Result<(), Refusal>
    ensures { Answers text.now result }
{
    let mut ledger = fresh();
    let mut scratch = [0u64; 1];
    survey(text, &mut ledger, &mut scratch)
}
