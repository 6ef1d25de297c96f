// The functions that C and Rust programs call. Each is written into the static library under its own name; bindings/pailorchard.h
// declares them. A byte slice is a pointer and a length. A refusal answers its number and leaves all that was lent as it was.
#![tactic(auto)]

ghost use Rattle.std.specs.Prelude.{◌≡◌, cond, length};
ghost use Rattle.amount.specs.Amount.{amount_of, read_number};
ghost use Rattle.amount.specs.Writing.{written_of, written_number, buffer_after};
ghost use Rattle.text.specs.Text.{is_path, is_prefix, is_name};
ghost use Rattle.rules.specs.Sound.{sound};
ghost use Rattle.transcripts.specs.Replay.{answer_of, answer_number, buffer_of, replayed_of};
ghost use Rattle.printed.specs.Room.{room_for};
ghost use Rattle.desk_bytes.specs.Layout.{desk_length};
ghost use Rattle.pailorchard.specs.DeskAfter.{desk_number, transcript_left, desk_left, length_left, desk_where};
ghost use Rattle.pailorchard.specs.Results.{cap_of, limited_after, bytes_after, length_after, written_after, tests_passed};

use amount::Cap;
use rules::Desk;
use rules::numbers::ROOM;
use soundness::is_sound;
use transcripts::ReplayError;

// Whether a text is a path of 01 and W1.
#[unsafe(no_mangle)]
pub extern "C" fn pailorchard_is_path(text: &[u8]) -> bool
    ensures { result ≡ is_path text.now }
{
    text::path::is_path(text)
}

// Whether a text is a prefix of 01 and W1.
#[unsafe(no_mangle)]
pub extern "C" fn pailorchard_is_prefix(text: &[u8]) -> bool
    ensures { result ≡ is_prefix text.now }
{
    text::path::is_prefix(text)
}

// Whether a text is a volume's name of 01.
#[unsafe(no_mangle)]
pub extern "C" fn pailorchard_is_name(text: &[u8]) -> bool
    ensures { result ≡ is_name text.now }
{
    text::name::is_name(text)
}

// Reads a typed amount: 0, with whether it is a count of bytes and the count; or 22, 23 or 24.
#[tactic(auto, unfolding(crate::specs::Results::limited_after, crate::specs::Results::bytes_after))]
#[unsafe(no_mangle)]
pub extern "C" fn pailorchard_read_amount(text: &[u8], limited: &mut bool, bytes: &mut u64) -> u32
    ensures value { result ≡ read_number (amount_of text.now) }
    ensures limited_after { limited.new ≡ limited_after (amount_of text.now) limited.old }
    ensures bytes_after { bytes.new ≡ bytes_after (amount_of text.now) bytes.old }
{
    match amount::read_amount(text) {
        Ok(Cap::Unlimited) => {
            *limited = false;
            *bytes = 0;
            0
        }
        Ok(Cap::Bytes(n)) => {
            *limited = true;
            *bytes = n;
            0
        }
        Err(error) => error.number(),
    }
}

#[tactic(auto, unfolding(crate::specs::Results::cap_of))]
fn cap_of(limited: bool, bytes: u64) -> Cap
    ensures { result ≡ cap_of limited bytes }
{
    if limited {
        Cap::Bytes(bytes)
    } else {
        Cap::Unlimited
    }
}

// Writes an amount as text: 0, with its length; or 24 or 12. Where there is no limit, `bytes` is not looked at.
#[tactic(auto, unfolding(crate::specs::Results::length_after))]
#[unsafe(no_mangle)]
pub extern "C" fn pailorchard_write_amount(
    limited: bool,
    bytes: u64,
    out: &mut [u8],
    written: &mut usize,
) -> u32
    ensures value { result ≡ written_number (written_of (cap_of limited bytes) (length out.old)) }
    ensures out_after { out.new ≡ buffer_after (cap_of limited bytes) out.old }
    ensures written_after { written.new ≡ length_after (written_of (cap_of limited bytes) (length out.old)) written.old }
{
    match amount::write_amount(cap_of(limited, bytes), out) {
        Ok(n) => {
            *written = n;
            0
        }
        Err(error) => error.number(),
    }
}

// How many bytes are enough for the transcript of a journal of so many bytes.
#[unsafe(no_mangle)]
pub extern "C" fn pailorchard_replay_room(journal: usize) -> usize
    ensures { result ≡ room_for journal }
{
    printed::room_for(journal)
}

// Replays a journal on a fresh desk: 0, with its transcript at the start of the buffer and the transcript's length; or 12.
#[unsafe(no_mangle)]
pub extern "C" fn pailorchard_replay(journal: &[u8], out: &mut [u8], written: &mut usize) -> u32
    ensures value { result ≡ answer_number (answer_of journal.now out.old) }
    ensures out_after { out.new ≡ buffer_of journal.now out.old }
    ensures written_after { written.new ≡ written_after (answer_of journal.now out.old) written.old }
{
    match transcripts::replay_into(journal, out) {
        Ok(len) => {
            *written = len;
            0
        }
        Err(error) => error.number(),
    }
}

// How many bytes the desk has.
#[unsafe(no_mangle)]
pub extern "C" fn pailorchard_desk_room() -> usize
    ensures { result ≡ desk_length }
{
    desk_bytes::desk_room()
}

// Replays a journal, and writes the desk after it where there is a transcript.
fn replay_with_desk(
    journal: &[u8],
    transcript: &mut [u8],
    desk: &mut [u8],
) -> Result<usize, ReplayError>
    ensures value { result ≡ answer_of journal.now transcript.old }
    ensures transcript_after { transcript.new ≡ buffer_of journal.now transcript.old }
    ensures desk_after { desk.new ≡ desk_where (answer_of journal.now transcript.old) journal.now desk.old }
{
    let r = transcripts::replay(journal, transcript);
    let done = r.written.is_ok();
    if done {
        desk_bytes::write_desk(r.desk, desk);
    }
    r.written
}

// Replays a journal on a fresh desk: 0, with its transcript, the transcript's length, and the desk after the journal as bytes; or 12,
// where one of the buffers is too short.
#[unsafe(no_mangle)]
pub extern "C" fn pailorchard_desk_after(
    journal: &[u8],
    transcript: &mut [u8],
    desk: &mut [u8],
    written: &mut usize,
) -> u32
    ensures value { result ≡ desk_number journal.now transcript.old desk.old }
    ensures transcript_after { transcript.new ≡ transcript_left journal.now transcript.old desk.old }
    ensures desk_after { desk.new ≡ desk_left journal.now transcript.old desk.old }
    ensures written_after { written.new ≡ length_left journal.now transcript.old desk.old written.old }
{
    if desk.len() < desk_bytes::desk_room() {
        return ROOM;
    }
    match replay_with_desk(journal, transcript, desk) {
        Ok(len) => {
            *written = len;
            0
        }
        Err(error) => error.number(),
    }
}

// Tests a desk so many times, and gives how many of the tests it passed. Its slots are stored again between them, so that each test is
// made.
fn passed(d: Desk, times: u64) -> u64
    ensures { result ≡ cond (sound d) times 0 }
{
    let slots = d.sessions;
    let mut desk = d;
    let mut n: u64 = 0;
    while n < times {
        if !is_sound(desk) {
            return n;
        }
        desk.sessions = slots;
        n += 1;
    }
    n
}

// For the benchmark: tests the desk after a journal so many times, and gives how many of the tests it passed; 0 where the buffer for the
// transcript is too short.
#[unsafe(no_mangle)]
pub extern "C" fn pailorchard_test_desk(journal: &[u8], transcript: &mut [u8], times: u64) -> u64
    ensures value { result ≡ tests_passed (replayed_of journal.now transcript.old) times }
    ensures transcript_after { transcript.new ≡ buffer_of journal.now transcript.old }
{
    let r = transcripts::replay(journal, transcript);
    if r.written.is_err() {
        return 0;
    }
    passed(r.desk, times)
}
