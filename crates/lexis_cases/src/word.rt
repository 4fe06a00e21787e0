// Cases of two parts with a space between: an amount and a unit, or two words.
use std::io;
use words::integer::time_of;
use words::unit::TimeUnit;
use words::vocabulary::{row_of, same_word};

// The two parts, if there is a space.
fn parts(text: &[u8]) -> Option<(&[u8], &[u8])> {
    let space = text.iter().position(|byte| *byte == b' ')?;
    Some((&text[..space], &text[space + 1..]))
}

// The units stand in rows 24 to 31 of the vocabulary, in their order.
fn unit_of(word: &[u8]) -> Option<TimeUnit> {
    let row = row_of(word)?;
    TimeUnit::ALL.get(row.checked_sub(24)?).copied()
}

pub fn delay(rt: &impl Print, text: &[u8]) -> io::Result<()> {
    match parts(text) {
        None => Ok(()),
        Some((amount, word)) => match unit_of(word) {
            None => print!(rt; "no unit"),
            Some(unit) => match time_of(amount, unit) {
                None => print!(rt; "too long"),
                Some(time) => print!(rt; "{time}"),
            },
        },
    }
}

pub fn same(rt: &impl Print, text: &[u8]) -> io::Result<()> {
    match parts(text) {
        None => Ok(()),
        Some((one, other)) => {
            if same_word(one, other) {
                print!(rt; "same")
            } else {
                print!(rt; "different")
            }
        }
    }
}
