// The records of a journal carried out one after another from a fresh desk on, their lines written into a lent buffer.
ghost use Rattle.std.specs.Prelude.{◌≡◌, true, ◌+◌, ◌<◌, ◌≤◌, length};
ghost use Rattle.std.proofs.Math.Pow.{are_bytes};
ghost use Rattle.rules.specs.Fresh.{fresh_desk};
ghost use Rattle.journal.specs.Journal.{records};
ghost use Rattle.kept.specs.Kept.{slots_in};
ghost use Rattle.replay_calls.specs.Held.{held_tables};
ghost use Rattle.transcripts.specs.Parts.{desk_of};
ghost use Rattle.transcripts.specs.Replay.{Replays};
ghost use Rattle.printed.specs.Transcript.{program_rate};
ghost use Rattle.printed.specs.TranscriptLaws.{printed_from};

use super::Replayed;
use super::lines::{put_end_line, put_record_line, put_stop_line};
use journal::Version;
use journal_calls::{Group, item_at, relay_call};
use kept::{KeptSession, entries_in, fresh_kept_session, slots_in, tokens_in};
use replay_calls::{
    Held, collect_call, commit_call, delete_call, fresh_held, look_call, pass_call, remove_call,
    slot_call, token_call, volume_call,
};
use rules::numbers::BAD;
use rules::{Desk, Relay, Tables};

// The price of storage on the program's desk.
pub(crate) const RATE: u16 = 100;

// The tables that the kept rows and the relays stand for.
fn tables_in(journal: &[u8], t: Tables, h: Held, relays: [Relay; 32]) -> Tables
    ensures { result ≡ held_tables journal.now t h relays }
{
    let rows = h.tokens;
    let kept = h.entries;
    let tokens = tokens_in(journal, rows);
    let entries = entries_in(journal, kept);
    let mut next = t;
    next.tokens = tokens;
    next.entries = entries;
    next.relays = relays;
    next
}

// The transcript has so many bytes, and these are the tables and the slots after the calls.
fn done(
    journal: &[u8],
    len: usize,
    t: Tables,
    h: Held,
    slots: [KeptSession; 4],
    relays: [Relay; 32],
) -> Replayed
    ensures { result ≡ record { written = Ok len; desk = desk_of (held_tables journal.now t h relays) (slots_in journal.now slots) } }
{
    let tables = tables_in(journal, t, h, relays);
    let sessions = slots_in(journal, slots);
    let desk = Desk { tables, sessions };
    Replayed {
        written: Ok(len),
        desk,
    }
}

// The records of a journal one after another, and the last line. The parts that a call gives back are stored in place. `n` is how many
// records stand before `p`. The tokens, the entries and the slots are kept rows, whose texts are places in the journal; `t` has all but these and the
// relays, which are a table by itself, since registers and heartbeats store one row of it and are many.
pub(crate) fn replay_records(v: Version, journal: &[u8], out: &mut [u8], start: usize) -> Replayed
    requires { (are_bytes journal.now ≡ true) × (length journal.now < 65536) × (start + length (printed_from 0 (fresh_desk program_rate) (records v journal.now)) ≤ length out.old) }
    ensures { Replays start (records v journal.now) out.old result out.new }
{
    let mut t = rules::fresh_tables(RATE);
    let session = fresh_kept_session();
    let mut slots = [session; 4];
    let mut n: u64 = 0;
    let mut p: usize = 0;
    let mut at = start;
    let mut relays = t.relays;
    let mut h = fresh_held();
    loop {
        let item = item_at(v, journal, p);
        let group = item.group;
        let from = p;
        p = item.after;
        n += 1;
        match group {
            Group::End => {
                return done(journal, put_end_line(out, at, n - 1), t, h, slots, relays);
            }
            Group::Stop(error) => {
                return done(
                    journal,
                    put_stop_line(out, at, n - 1, error.number()),
                    t,
                    h,
                    slots,
                    relays,
                );
            }
            Group::Relays(which) => {
                let o = relay_call(t.clock, relays, t.last_relay, which, item);
                at = put_record_line(out, at, n, o.answer);
                if o.changed {
                    let i = o.at;
                    let row = o.row;
                    relays[i] = row;
                    t.last_relay = o.last;
                }
            }
            Group::Volumes(which) => {
                let o = volume_call(journal, from, t, which, item);
                at = put_record_line(out, at, n, o.answer);
                let volumes = o.volumes;
                t.volumes = volumes;
                t.last_volume = o.last;
                t.deposits = o.deposits;
            }
            Group::Tokens(which) => {
                let o = token_call(journal, from, t, h, which, item);
                at = put_record_line(out, at, n, o.answer);
                let tokens = o.tokens;
                h.tokens = tokens;
                t.last_token = o.last;
            }
            Group::Slot(which) => {
                let o = slot_call(journal, from, t, h, slots, which, item);
                at = put_record_line(out, at, n, o.answer);
                let i = item.fields.slot as usize;
                let after = o.session;
                slots[i] = after;
            }
            Group::NoSlot => at = put_record_line(out, at, n, rules::numbered_refusal(BAD)),
            Group::Look => {
                at = put_record_line(out, at, n, look_call(journal, from, t, h, item));
            }
            Group::Advance => {
                let o = pass_call(t, h, relays, item.fields.amount);
                at = put_record_line(out, at, n, o.answer);
                t.clock = o.clock;
                let volumes = o.volumes;
                t.volumes = volumes;
                relays = o.relays;
                let due = o.due;
                if due {
                    let c = collect_call(t, h, relays, item.fields.amount);
                    let volumes = c.volumes;
                    t.volumes = volumes;
                    let entries = c.entries;
                    h.entries = entries;
                    let tokens = c.tokens;
                    h.tokens = tokens;
                    relays = c.relays;
                }
            }
            Group::Delete => {
                let o = delete_call(journal, from, t, h, item);
                at = put_record_line(out, at, n, o.answer);
                let volumes = o.volumes;
                t.volumes = volumes;
                let tokens = o.tokens;
                h.tokens = tokens;
            }
            Group::Commit => {
                let o = commit_call(journal, t, h, slots, relays, item);
                at = put_record_line(out, at, n, o.answer);
                let i = item.fields.slot as usize;
                let left = o.session;
                slots[i] = left;
                let volumes = o.volumes;
                t.volumes = volumes;
                let entries = o.entries;
                h.entries = entries;
                let tokens = o.tokens;
                h.tokens = tokens;
                relays = o.relays;
            }
            Group::Remove => {
                let o = remove_call(journal, from, t, h, relays, item);
                at = put_record_line(out, at, n, o.answer);
                let volumes = o.volumes;
                t.volumes = volumes;
                let entries = o.entries;
                h.entries = entries;
                relays = o.relays;
            }
        }
    }
}
