// A journal replayed from a fresh desk on, its transcript written into a lent buffer.
ghost use Rattle.std.specs.Prelude.{◌≡◌};
ghost use Rattle.transcripts.specs.Replay.{answer_of, buffer_of, replayed_of};

use super::lines::{put_first_line, put_stop_line};
use super::records::{RATE, replay_records};
use super::{ReplayError, Replayed};
use journal::start_of;
use printed::room_for;

// Makes the calls of a journal on a fresh desk, and writes its transcript at the start of a buffer: gives the transcript's length
// and the desk after the calls. Or refuses a buffer that is too short, makes no call, and leaves the buffer as it was.
pub fn replay(journal: &[u8], out: &mut [u8]) -> Replayed
    ensures answer { result ≡ replayed_of journal.now out.old }
    ensures buffer { out.new ≡ buffer_of journal.now out.old }
{
    if out.len() < room_for(journal.len()) {
        return Replayed {
            written: Err(ReplayError::Room),
            desk: rules::fresh(RATE),
        };
    }
    let at = put_first_line(out, 0);
    match start_of(journal) {
        Ok(v) => replay_records(v, &journal[1..], out, at),
        Err(error) => Replayed {
            written: Ok(put_stop_line(out, at, 0, error.number())),
            desk: rules::fresh(RATE),
        },
    }
}

// Writes the transcript of a journal at the start of a buffer, and gives its length; or refuses a buffer that is too short, and
// leaves it as it was.
pub fn replay_into(journal: &[u8], out: &mut [u8]) -> Result<usize, ReplayError>
    ensures answer { result ≡ answer_of journal.now out.old }
    ensures buffer { out.new ≡ buffer_of journal.now out.old }
{
    replay(journal, out).written
}
