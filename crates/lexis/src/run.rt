// An unbroken run of letters, digits and underscores: a word, an integer, or neither.
ghost use Rattle.std.specs.Prelude.{◌≡◌, false};
ghost use Rattle.lexis.specs.Byte.{class_of, in_run, is_digit, is_underscore};
ghost use Rattle.lexis.specs.Run.{run_length, all_digits, singles, shape_of};

use crate::byte::{Class, byte_at, class_of};
use crate::token::Kind;

// Words and integers are made of such bytes.
fn in_run(byte: u8) -> bool
    ensures { result ≡ in_run (class_of byte) }
{
    matches!(
        class_of(byte),
        Class::Letter | Class::Digit | Class::Underscore
    )
}

fn is_digit(byte: u8) -> bool
    ensures { result ≡ is_digit (class_of byte) }
{
    matches!(class_of(byte), Class::Digit)
}

fn is_underscore(byte: u8) -> bool
    ensures { result ≡ is_underscore (class_of byte) }
{
    matches!(class_of(byte), Class::Underscore)
}

// How many bytes at the start of the text are letters, digits or underscores.
pub fn run_length(text: &[u8]) -> usize
    ensures { result ≡ run_length 0 text.now }
{
    text.iter().take_while(|byte| in_run(**byte)).count()
}

// Every byte of the run is a digit.
pub fn all_digits(run: &[u8]) -> bool
    ensures { result ≡ all_digits run.now }
{
    run.iter().all(|byte| is_digit(*byte))
}

// No two underscores stand side by side, and none is last.
pub fn single_underscores(run: &[u8]) -> bool
    ensures { result ≡ singles false run.now }
{
    let mut after = false;
    for byte in run {
        let here = is_underscore(*byte);
        if after && here {
            return false;
        }
        after = here;
    }
    !after
}

// What a run is: a word, an integer, or no token.
pub fn shape_of(run: &[u8]) -> Option<Kind>
    ensures { result ≡ shape_of run.now }
{
    if all_digits(run) {
        return Some(Kind::Integer);
    }
    if run.len() > 32 {
        return None;
    }
    if !single_underscores(run) {
        return None;
    }
    match class_of(byte_at(run, 0)) {
        Class::Letter => Some(Kind::Word),
        _ => None,
    }
}
