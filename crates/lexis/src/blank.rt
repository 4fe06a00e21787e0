// Blanks and comments, up to the next token.
ghost use Rattle.std.specs.Prelude.{◌≡◌, false};
ghost use Rattle.lexis.specs.Blank.{dashes_of, step_of, skip_from};

use crate::NoToken;
use crate::byte::{Class, class_of};

// What a byte does while blanks and comments are skipped.
#[derive(Clone, Copy, Debug, PartialEq, Eq, Hash)]
pub enum Step {
    // It is passed; the bool says whether the next byte is in a comment.
    Pass(bool),
    Stop,
    Refuse,
}

// Two dashes stand at the start of the text.
pub fn dashes(text: &[u8]) -> bool
    ensures { result ≡ dashes_of text.now }
{
    matches!(text, [b'-', b'-', ..])
}

// inside says that a comment has begun; dashes, that two dashes stand here.
pub fn step_of(inside: bool, class: Class, dashes: bool) -> Step
    ensures { result ≡ step_of inside class dashes }
{
    if inside {
        match class {
            Class::LineEnd => Step::Pass(false),
            Class::High => Step::Refuse,
            _ => Step::Pass(true),
        }
    } else {
        match class {
            Class::Space | Class::LineEnd => Step::Pass(false),
            Class::Mark => { if dashes { Step::Pass(true) } else { Step::Stop } }
            _ => Step::Stop,
        }
    }
}

// Where blanks and comments end; or a byte in a comment is refused.
pub fn skip(text: &[u8]) -> Result<usize, NoToken>
    ensures { result ≡ skip_from false 0 text.now }
{
    let mut inside = false;
    for (i, byte) in text.iter().enumerate() {
        let class = class_of(*byte);
        let begins = dashes(&text[i..]);
        match step_of(inside, class, begins) {
            Step::Pass(comment) => {
                inside = comment;
            }
            Step::Stop => {
                return Ok(i);
            }
            Step::Refuse => {
                return Err(NoToken { place: i });
            }
        }
    }
    Ok(text.len())
}
