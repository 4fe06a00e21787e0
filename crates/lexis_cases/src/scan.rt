// The tokens of a text, each with its place, length and kind; and the end, or the first place that is refused.
use lexis::token::{Kind, first_refused, next};
use std::io;
use words::integer::amount_of;
use words::vocabulary::row_of;

// A name has the number after the last row's.
fn word(rt: &impl Print, run: &[u8]) -> io::Result<()> {
    let number = row_of(run).unwrap_or(108);
    print!(rt; "word {number}")
}

fn integer(rt: &impl Print, run: &[u8]) -> io::Result<()> {
    match amount_of(run) {
        Some(n) => print!(rt; "integer {n}"),
        None => print!(rt; "integer large"),
    }
}

fn kind_of(rt: &impl Print, kind: Kind, run: &[u8]) -> io::Result<()> {
    match kind {
        Kind::Word => word(rt, run),
        Kind::Integer => integer(rt, run),
        Kind::Open => print!(rt; "open"),
        Kind::Close => print!(rt; "close"),
        Kind::Comma => print!(rt; "comma"),
        Kind::Colon => print!(rt; "colon"),
        Kind::Semicolon => print!(rt; "semicolon"),
        Kind::Arrow => print!(rt; "arrow"),
        Kind::Becomes => print!(rt; "becomes"),
    }
}

fn token(rt: &impl Print, kind: Kind, start: usize, run: &[u8]) -> io::Result<()> {
    let length = run.len();
    print!(rt; "{start}+{length} ")?;
    kind_of(rt, kind, run)?;
    print!(rt; "; ")
}

// The tokens before the first place that is refused.
pub fn tokens(rt: &impl Print, text: &[u8]) -> io::Result<()> {
    let mut n = 0;
    while let Ok(Some(found)) = next(&text[n..]) {
        let from = n + found.start;
        let to = from + found.length;
        token(rt, found.kind, from, &text[from..to])?;
        n = to;
    }
    Ok(())
}

pub fn verdict(rt: &impl Print, text: &[u8]) -> io::Result<()> {
    match first_refused(text) {
        Some(place) => print!(rt; "refused {place}"),
        None => print!(rt; "end"),
    }
}
