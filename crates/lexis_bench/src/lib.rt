// What the benchmark of the scan calls from C.
#![tactic(auto)]

ghost use Rattle.std.specs.Prelude.{◌≤◌};

use lexis::token::{Kind, first_refused, next};
use words::vocabulary::row_of;

// Whether the lexical rules allow the whole text.
#[unsafe(no_mangle)]
pub extern "C" fn lexis_bench_allowed(text: &[u8]) -> bool {
    first_refused(text).is_none()
}

// 1 for a name, 0 for any other token.
fn name_of(kind: Kind, run: &[u8]) -> usize
    ensures { result ≤ 1 }
{
    usize::from(kind == Kind::Word && row_of(run).is_none())
}

// How many names the text has, up to a place that is refused: each word is looked up.
#[unsafe(no_mangle)]
pub extern "C" fn lexis_bench_names(text: &[u8]) -> usize {
    let mut names = 0;
    let mut n = 0;
    while let Ok(Some(token)) = next(&text[n..]) {
        let from = n + token.start;
        let to = from + token.length;
        names += name_of(token.kind, &text[from..to]);
        n = to;
    }
    names
}
