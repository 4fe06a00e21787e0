// Bytes to tokens: where each token of a text starts and ends, and which byte or token the lexical rules refuse.
#![tactic(auto)]

pub mod blank;
pub mod byte;
pub mod run;
pub mod token;

// No token stands at a place: the lexical rules do not have the byte or the token that starts there.
#[derive(Clone, Copy, Debug, PartialEq, Eq, Hash)]
pub struct NoToken {
    pub place: usize,
}
