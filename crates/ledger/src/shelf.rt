// Names kept in a ledger by their places in the text: each is two words, where it starts and where it ends.
ghost use Rattle.std.specs.Prelude.{◌≡◌, ◌+◌, ◌<◌, ◌≤◌, length, get_or, set};
ghost use Rattle.words.specs.Vocabulary.{same_word};
ghost use Rattle.look.specs.Inside.Looks.{part, name_at};
ghost use Rattle.refusal.specs.Numbers.{number_of};
ghost use Rattle.ledger.specs.Inside.Standing.{Span, Shelf, Finds, added};

use look::Look;
use refusal::Reason;
use words::vocabulary::same_word;

// The name kept at a place of the ledger is the one asked for.
fn is_same(text: &[u8], ledger: &[u64; 328], at: usize, name: Look) -> bool
    requires ledger_len { (length ledger.now ≡ 328) × (at + 1 < 328) }
    requires kept { Span text.now (get_or ledger.now at 0) (get_or ledger.now (at + 1) 0) }
    requires asked { Span text.now name.start name.end }
    ensures { result ≡ same_word (part text.now (get_or ledger.now at 0) (get_or ledger.now (at + 1) 0)) (part text.now name.start name.end) }
{
    let from = ledger[at] as usize;
    let to = ledger[at + 1] as usize;
    same_word(&text[from..to], &text[name.start..name.end])
}

// The number of the first of the names from base on that is the one asked for.
pub fn find(
    text: &[u8],
    ledger: &[u64; 328],
    base: usize,
    count: usize,
    name: Look,
) -> Option<usize>
    requires shelf { Shelf text.now ledger.now base count }
    requires span { Span text.now name.start name.end }
    ensures { Finds text.now ledger.now base count (name_at text.now name.start name.end) result }
{
    for i in 0..count {
        if is_same(text, ledger, base + 2 * i, name) {
            return Some(i);
        }
    }
    None
}

// One more name behind those from base on, of which the word at counter says how many there are.
pub fn add(ledger: &mut [u64; 328], counter: usize, base: usize, name: Look)
    requires ledger_len { length ledger.old ≡ 328 }
    requires counter_bound { (counter < 6) × (base ≤ 134) × (get_or ledger.old counter 0 ≤ 64) }
    ensures { ledger.new ≡ added ledger.old counter base name.start name.end }
{
    let count = ledger[counter] as usize;
    let at = base + 2 * count;
    ledger[at] = name.start as u64;
    ledger[at + 1] = name.end as u64;
    ledger[counter] = (count + 1) as u64;
}

// The first refusal, with its place.
pub fn refuse(ledger: &mut [u64; 328], reason: Reason, place: usize)
    requires { length ledger.old ≡ 328 }
    ensures { ledger.new ≡ set (set ledger.old 0 (number_of reason)) 1 place }
{
    ledger[0] = reason.number();
    ledger[1] = place as u64;
}
