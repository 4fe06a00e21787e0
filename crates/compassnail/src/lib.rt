// The C library: plain functions on bytes, 64-bit words and numbers, thin over the proved ones. include/compassnail.h says the same for C.
#![tactic(auto)]

ghost use Rattle.std.specs.Prelude.{◌≡◌, ◌+◌, ◌*◌, ◌≤◌, length};
ghost use Rattle.refusal.specs.Numbers.{number_of};
ghost use Rattle.compassnail.specs.Codes.{ReadsInC, HeadsInC, code_of, report_after, Small, StartsInC, AdvancesInC};

use refusal::{Reason, Refusal};
use session::Answer;

// A refusal of a text as one number.
fn refused_at(refusal: Refusal) -> u64
    requires { refusal.place ≤ 60000 }
    ensures { result ≡ number_of refusal.reason + 256 * refusal.place }
{
    refusal.reason.number() + 256 * refusal.place as u64
}

// The table of a text.
#[unsafe(no_mangle)]
pub extern "C" fn compassnail_read(text: &[u8], table: &mut [u64]) -> u64
    ensures { ReadsInC text.now table.old result table.new }
{
    match reader::read(text, table) {
        Ok(()) => 0,
        Err(unread) => refused_at(unread),
    }
}

// The dump's header of a text.
#[unsafe(no_mangle)]
pub extern "C" fn compassnail_header(text: &[u8], out: &mut [u8]) -> u64
    ensures { HeadsInC text.now out.old result out.new }
{
    match heading::header(text, out) {
        Ok(bytes) => 256 * bytes as u64,
        Err(refusal) => refused_at(refusal),
    }
}

// The answer as one number, and time, cycles and steps in the report where the call moved.
fn told(answer: Result<Answer, Reason>, report: &mut [u64]) -> u64
    requires small { Small answer }
    requires in_bounds { 3 ≤ length report.old }
    ensures value { result ≡ code_of answer }
    ensures report_after { report.new ≡ report_after answer report.old }
{
    match answer {
        Err(reason) => reason.number(),
        Ok(Answer::Quiet) => 254,
        Ok(Answer::StopReached) => 255,
        Ok(Answer::Moved(moved)) => {
            report[0] = moved.time;
            report[1] = moved.cycles;
            report[2] = moved.steps;
            256 * moved.bytes as u64
        }
    }
}

// The start of a run: the session's words are not read.
#[unsafe(no_mangle)]
pub extern "C" fn compassnail_start(
    table: &[u64],
    session: &mut [u64],
    out: &mut [u8],
    report: &mut [u64],
) -> u64
    ensures { StartsInC table.now session.old out.old report.old result session.new out.new report.new }
{
    if report.len() < 3 {
        return Reason::Buffer.number();
    }
    let answer = run::start(table, session, out).map(Answer::Moved);
    told(answer, report)
}

// An advance of a run, up to a stop.
#[unsafe(no_mangle)]
pub extern "C" fn compassnail_advance(
    table: &[u64],
    session: &mut [u64],
    stop: u64,
    out: &mut [u8],
    report: &mut [u64],
) -> u64
    ensures { AdvancesInC table.now session.old stop out.old report.old result session.new out.new report.new }
{
    if report.len() < 3 {
        return Reason::Buffer.number();
    }
    let answer = run::advance(table, session, stop, out);
    told(answer, report)
}
