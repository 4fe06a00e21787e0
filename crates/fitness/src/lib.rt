// Whether words hold a fit table.
#![tactic(auto)]

pub mod drivers;
pub mod heights;
pub mod kinds;
pub mod parts;

ghost use Rattle.laws.specs.Decides.{Decides};
ghost use Rattle.layout.specs.TableWords.{FitTableWords};
ghost use Rattle.fitness.specs.Inside.Tested.{Tested};

use crate::drivers::alone;
use crate::heights::sounds;
use crate::kinds::legals;
use crate::parts::{ends, few, unused, used};

// Whether each part passes its test. A later test relies on the earlier ones.
fn parts_fit(words: &[u64]) -> bool
    ensures { Decides result (Tested words.now) }
{
    few(words)
        && unused(words)
        && used(words)
        && ends(words)
        && legals(words)
        && sounds(words)
        && alone(words)
}

// Whether the first 8,387 words hold a fit table.
pub fn fit_table(words: &[u64]) -> bool
    ensures { Decides result (FitTableWords words.now) }
{
    parts_fit(words)
}
