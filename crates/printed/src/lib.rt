// What the program prints for a journal: specs/Transcript says it. Here is how much room that takes; the crate transcripts writes it.
#![tactic(auto)]

ghost use Rattle.std.specs.Prelude.{◌≡◌};
ghost use Rattle.printed.specs.Room.{room_for};

// The most bytes of a journal whose records are read.
const JOURNAL_MOST: usize = 65536;

// How many bytes are always enough for the transcript of a journal of so many bytes; 655,381 are for any.
#[tactic(auto, unfolding(crate::specs::Room::room_for))]
pub fn room_for(journal: usize) -> usize
    ensures { result ≡ room_for journal }
{
    21 + 10 * journal.min(JOURNAL_MOST)
}
