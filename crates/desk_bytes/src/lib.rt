// The desk as bytes, written into a lent buffer.
//
// specs/Layout.antt has the layout, and specs/Writing.antt what the writer answers and leaves.
#![tactic(auto)]

ghost use Rattle.std.specs.Prelude.{◌≡◌};
ghost use Rattle.desk_bytes.specs.Layout.{desk_length};
ghost use Rattle.desk_bytes.specs.Writing.{answer_of, buffer_of};

mod desk;
mod parts;
mod rows;
mod tables;

use desk::put_desk;
use rules::Desk;
use rules::numbers::ROOM;
use text::{NAME_LIMIT, PATH_LIMIT};

// How many bytes a desk has: its 128 paths and prefixes, its 8 names, and all else.
pub const DESK_BYTES: usize = 128 * PATH_LIMIT + 8 * NAME_LIMIT + 14_998;

// The same, for a caller that lends the buffer.
pub fn desk_room() -> usize
    ensures { result ≡ desk_length }
{
    DESK_BYTES
}

// The desk's bytes at the front of the buffer; the bytes after them stay, and a refusal writes nothing.
pub fn write_desk(d: Desk, out: &mut [u8]) -> u32
    ensures { (result ≡ answer_of out.old) × (out.new ≡ buffer_of d out.old) }
{
    if out.len() < DESK_BYTES {
        return ROOM;
    }
    put_desk(out, 0, d);
    0
}
