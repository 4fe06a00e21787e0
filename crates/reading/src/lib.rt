// Where reading stands in a text, and a word or mark read there.
// Kept: a text, its ledger and its table are three parameters of the readers, no plainer as one struct: each reader would promise besides that
// its two borrowed fields are still the same ones, how long the ledger is, and that the text stays.
#![tactic(auto)]

ghost use Rattle.std.specs.Prelude.{◌≡◌, ◌≤◌, length};
ghost use Rattle.look.specs.Inside.Tokens.{number_of};
ghost use Rattle.reading.specs.Inside.Spots.{at_spot, reached, refusal_of, word_of, TokenAt};

use look::token::Token;
use look::{Look, peek};
use refusal::{Reason, Refusal};

// Where reading stands: a place of the text and the address of the next instruction.
#[derive(Clone, Copy, Debug, PartialEq, Eq)]
pub struct Spot {
    pub at: usize,
    pub next: usize,
}

impl Spot {
    // Past a token for which nothing is written.
    pub fn past(self, t: Look) -> Spot
        ensures { result ≡ record { at = t.end; next = self.next } }
    {
        Spot {
            at: t.end,
            next: self.next,
        }
    }
}

// Why a token is not read, with the place where it starts: no sentence goes on with it, or it is the 33rd open bracket or `if`.
#[derive(Clone, Copy, Debug, PartialEq, Eq)]
pub enum Unfit {
    NoSentence(usize),
    TooDeep(usize),
}

// Refusals 3 and 4.
impl From<Unfit> for Refusal {
    ghost from_gives = { λ unfit refusal. refusal ≡ refusal_of unfit };

    fn from(unfit: Unfit) -> Refusal {
        match unfit {
            Unfit::NoSentence(place) => Refusal {
                reason: Reason::Sentence,
                place,
            },
            Unfit::TooDeep(place) => Refusal {
                reason: Reason::Nesting,
                place,
            },
        }
    }
}

// The next token, which is to be the one wanted.
pub fn token(text: &[u8], at: usize, wanted: Token) -> Result<Look, Unfit>
    requires { at ≤ length text.now }
    ensures { TokenAt text.now at (number_of wanted) result }
{
    let t = peek(text, at);
    if t.token == wanted {
        Ok(t)
    } else {
        Err(Unfit::NoSentence(t.start))
    }
}

// A word or mark.
pub fn word(text: &[u8], p: Spot, wanted: Token) -> Result<Spot, Unfit>
    requires { p.at ≤ length text.now }
    ensures { reached result ≡ word_of text.now (at_spot p) (number_of wanted) }
{
    let t = token(text, p.at, wanted)?;
    Ok(p.past(t))
}
