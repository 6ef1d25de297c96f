// The lines of a transcript, written into a lent buffer from a place on. Each function gives the place after its line.
ghost use Rattle.std.specs.Prelude.{◌+◌, ◌≤◌, length};
ghost use Rattle.amount.specs.Digits.{decimal};
ghost use Rattle.journal.specs.Journal.{Ending};
ghost use Rattle.printed.specs.Transcript.{first_line, numeral, record_line, last_line};
ghost use Rattle.transcripts.specs.Written.{Wrote};

use amount::write_decimal;
use rules::Answer;

// Bytes from a place on.
fn put_bytes(out: &mut [u8], at: usize, s: &[u8]) -> usize
    requires { at + length s.now ≤ length out.old }
    ensures { Wrote at s.now out.old result out.new }
{
    let end = at + s.len();
    out[at..end].copy_from_slice(s);
    end
}

// The digits of a number from a place on.
fn put_decimal(out: &mut [u8], at: usize, n: u64) -> usize
    requires { at + length (decimal n) ≤ length out.old }
    ensures { Wrote at (decimal n) out.old result out.new }
{
    at + write_decimal(n, &mut out[at..])
}

// A number, and the byte after it.
#[tactic(auto, unfolding(printed::specs::Transcript::numeral))]
fn put_numeral(out: &mut [u8], at: usize, n: u64, mark: u8) -> usize
    requires { at + length (numeral n mark) ≤ length out.old }
    ensures { Wrote at (numeral n mark) out.old result out.new }
{
    let end = put_decimal(out, at, n);
    out[end] = mark;
    end + 1
}

// The line that every transcript begins with.
pub(crate) fn put_first_line(out: &mut [u8], at: usize) -> usize
    requires { at + length first_line ≤ length out.old }
    ensures { Wrote at first_line out.old result out.new }
{
    put_bytes(out, at, b"desk 1\n")
}

// The line of a record.
#[tactic(auto, unfolding(printed::specs::Transcript::record_line))]
pub(crate) fn put_record_line(out: &mut [u8], at: usize, place: u64, a: Answer) -> usize
    requires { at + length (record_line place a) ≤ length out.old }
    ensures { Wrote at (record_line place a) out.old result out.new }
{
    let p = put_numeral(out, at, place, b' ');
    let q = put_numeral(out, p, a.number as u64, b' ');
    put_numeral(out, q, a.value, b'\n')
}

// The last line, at a fault.
#[tactic(auto, unfolding(printed::specs::Transcript::last_line))]
pub(crate) fn put_stop_line(out: &mut [u8], at: usize, read: u64, number: u32) -> usize
    requires { at + length (last_line read (Ending.stop number)) ≤ length out.old }
    ensures { Wrote at (last_line read (Ending.stop number)) out.old result out.new }
{
    let a = put_bytes(out, at, b"stop ");
    let b = put_numeral(out, a, read, b' ');
    put_numeral(out, b, number as u64, b'\n')
}

// The last line, where every record was read.
#[tactic(auto, unfolding(printed::specs::Transcript::last_line))]
pub(crate) fn put_end_line(out: &mut [u8], at: usize, read: u64) -> usize
    requires { at + length (last_line read Ending.end) ≤ length out.old }
    ensures { Wrote at (last_line read Ending.end) out.old result out.new }
{
    let a = put_bytes(out, at, b"end ");
    put_numeral(out, a, read, b'\n')
}
