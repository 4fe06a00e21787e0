// The lines of a trace, which are gathered.
use itoa::Buffer;
use player::Gathered;
use program::print_refusal;
use refusal::Refusal;
use session::Moved;
use std::io;

// Puts a text behind what is gathered. Where there is no room nothing is put, but a line is short, and there is room for one after
// `make_room`.
pub fn put(lines: &mut Gathered, text: &[u8]) {
    let end = lines.count + text.len();
    if lines.bytes.len() < end {
        return;
    }
    lines.bytes[lines.count..end].copy_from_slice(text);
    lines.count = end;
}

// A name, and a number in decimal.
fn number(lines: &mut Gathered, name: &[u8], n: u64) {
    let mut digits = Buffer::new();
    put(lines, name);
    put(lines, digits.format(n).as_bytes());
}

pub fn header(lines: &mut Gathered, count: usize) {
    number(lines, b"header written bytes ", count as u64);
    put(lines, b"\n");
}

pub fn moved(lines: &mut Gathered, call: &[u8], moved: Moved) {
    put(lines, call);
    number(lines, b" moved bytes ", moved.bytes as u64);
    number(lines, b" time ", moved.time);
    number(lines, b" cycles ", moved.cycles);
    number(lines, b" steps ", moved.steps);
    put(lines, b"\n");
}

// The line of a refusal, which is the last.
pub fn refused(rt: &impl Print, call: &[u8], refusal: Refusal) -> io::Result<()> {
    rt.write_all(call)?;
    rt.write_all(b" ")?;
    print_refusal(rt, refusal)
}
