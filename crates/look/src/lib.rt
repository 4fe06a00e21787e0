// The token at a place of the text, with the place where it starts and the place where it ends.
#![tactic(auto)]

pub mod token;

ghost use Rattle.std.specs.Prelude.{◌≡◌, ◌≤◌, length};
ghost use Rattle.look.specs.Inside.Looks.{kind_of, finish, look_of};

use crate::token::Token;
use lexis::token::{Kind, next};
use words::vocabulary::row_of;

#[derive(Clone, Copy, Debug, PartialEq, Eq)]
pub struct Look {
    pub token: Token,
    pub start: usize,
    pub end: usize,
}

// What the lexical rules found, told apart further by the vocabulary.
fn kind_of(kind: Kind, run: &[u8]) -> Token
    ensures { result ≡ kind_of kind run.now }
{
    match kind {
        Kind::Word => match row_of(run) {
            Some(row) => Token::in_row(row),
            None => Token::Name,
        },
        Kind::Integer => Token::Integer,
        Kind::Open => Token::Open,
        Kind::Close => Token::Close,
        Kind::Comma => Token::Comma,
        Kind::Colon => Token::Colon,
        Kind::Semicolon => Token::Semicolon,
        Kind::Arrow => Token::Arrow,
        Kind::Becomes => Token::Becomes,
    }
}

// The end of the text.
fn finish(text: &[u8]) -> Look
    ensures { result ≡ finish text.now }
{
    Look {
        token: Token::Finish,
        start: text.len(),
        end: text.len(),
    }
}

// The token from place at on. A byte or token that the lexical rules refuse counts as the end: they are tried on the whole text before.
pub fn peek(text: &[u8], at: usize) -> Look
    requires { at ≤ length text.now }
    ensures { result ≡ look_of text.now at }
{
    match next(&text[at..]) {
        Ok(Some(scanned)) => {
            let from = at + scanned.start;
            let to = from + scanned.length;
            let token = kind_of(scanned.kind, &text[from..to]);
            Look {
                token,
                start: from,
                end: to,
            }
        }
        Ok(None) => finish(text),
        Err(_) => finish(text),
    }
}
