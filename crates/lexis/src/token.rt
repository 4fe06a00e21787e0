// The next token of a text, and the first place of a text that the lexical rules refuse.
ghost use Rattle.std.specs.Prelude.{◌≡◌, ◌<◌, length};
ghost use Rattle.lexis.specs.Token.{mark_of, run_token, start_of, lexeme_of, placed_at, scan_of, Within, first_refused};

use crate::NoToken;
use crate::blank::skip;
use crate::byte::{Class, byte_at, class_of};
use crate::run::{run_length, shape_of};

#[derive(Clone, Copy, Debug, PartialEq, Eq, Hash)]
pub enum Kind {
    Word,
    Integer,
    Open,
    Close,
    Comma,
    Colon,
    Semicolon,
    Arrow,
    Becomes,
}

// A token that stands at the start of a text, with its length.
#[derive(Clone, Copy, Debug, PartialEq, Eq, Hash)]
pub struct Lexeme {
    pub kind: Kind,
    pub length: usize,
}

// A token of a text, with its place and length.
#[derive(Clone, Copy, Debug, PartialEq, Eq, Hash)]
pub struct Token {
    pub kind: Kind,
    pub start: usize,
    pub length: usize,
}

// The mark that the byte first begins, with second after it.
#[tactic(auto, unfolding(crate::specs::Token::mark_of))]
pub fn mark_of(first: u8, second: u8) -> Option<Lexeme>
    ensures { result ≡ mark_of first second }
{
    let (kind, length) = match (first, second) {
        (b'(', _) => (Kind::Open, 1),
        (b')', _) => (Kind::Close, 1),
        (b',', _) => (Kind::Comma, 1),
        (b';', _) => (Kind::Semicolon, 1),
        (b':', b'=') => (Kind::Becomes, 2),
        (b':', _) => (Kind::Colon, 1),
        (b'<', b'=') => (Kind::Arrow, 2),
        _ => return None,
    };
    Some(Lexeme { kind, length })
}

// The token of a run of so many bytes.
pub fn run_token(shape: Option<Kind>, length: usize) -> Option<Lexeme>
    ensures { result ≡ run_token shape length }
{
    let kind = shape?;
    Some(Lexeme { kind, length })
}

// The token at the start of a text, if the lexical rules have it.
fn start_of(text: &[u8]) -> Option<Lexeme>
    requires { 0 < length text.now }
    ensures { result ≡ start_of text.now }
{
    match class_of(text[0]) {
        Class::Letter | Class::Digit | Class::Underscore => {
            let n = run_length(text);
            run_token(shape_of(&text[..n]), n)
        }
        Class::Mark => mark_of(text[0], byte_at(text, 1)),
        _ => None,
    }
}

// What stands at the start of a text that no blank and no comment starts: a token, or nothing where the text is empty.
pub fn lexeme_of(text: &[u8]) -> Result<Option<Lexeme>, NoToken>
    ensures { result ≡ lexeme_of text.now }
{
    if text.is_empty() {
        return Ok(None);
    }
    match start_of(text) {
        Some(found) => Ok(Some(found)),
        None => Err(NoToken { place: 0 }),
    }
}

// The same, of a text that starts at a place.
pub fn placed(
    start: usize,
    lexeme: Result<Option<Lexeme>, NoToken>,
) -> Result<Option<Token>, NoToken>
    ensures { result ≡ placed_at start lexeme }
{
    match lexeme {
        Ok(Some(Lexeme { kind, length })) => Ok(Some(Token {
            kind,
            start,
            length,
        })),
        Ok(None) => Ok(None),
        Err(_) => Err(NoToken { place: start }),
    }
}

// The first token of a text, if it has any.
pub fn next(text: &[u8]) -> Result<Option<Token>, NoToken>
    ensures scanned { result ≡ scan_of text.now }
    ensures within { Within (length text.now) result }
{
    let start = skip(text)?;
    placed(start, lexeme_of(&text[start..]))
}

// The first place of the text that the lexical rules refuse, if any. Each scan is handed the text from the byte after the last token on.
pub fn first_refused(text: &[u8]) -> Option<usize>
    ensures { result ≡ first_refused text.now }
{
    let mut n = 0;
    loop {
        match next(&text[n..]) {
            Ok(Some(token)) => {
                n = n + token.start + token.length;
            }
            Ok(None) => {
                return None;
            }
            Err(refused) => {
                return Some(n + refused.place);
            }
        }
    }
}
