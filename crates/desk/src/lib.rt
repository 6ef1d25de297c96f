// The calls on the desk. Each takes the desk by value and gives it back with the answer. Each tests the desk first, then its
// input, in the order of document 01; a refusal gives the desk back as it came. The work of each call stands in the crate of
// its subject and gives back the part that it changes; the crate `parts` puts that back into the desk.
#![tactic(auto)]

mod sound_work;

ghost use Rattle.std.specs.Prelude.{◌≡◌};
ghost use Rattle.scopes.specs.Arguments.{scope_arg};
ghost use Rattle.rules.specs.Calls.{Ask, Work, Call, step};

use amount::Cap;
use parts::{
    answered, refuse, slot_of, with_advance, with_commit, with_delete, with_relays, with_remove,
    with_session, with_tokens, with_volumes,
};
use rules::{Account, Desk, Hash, Mode, Outcome, Refusal, RelayNo, TokenNo, VolumeNo};
use sound_work::{advance_when_sound, commit_when_sound};
use soundness::is_sound;

// The clock goes on to a block: relays leave, rents are paid where an epoch ends, and volumes are collected.
pub fn advance(d: Desk, block: u64) -> Outcome
    ensures { result ≡ step (Call.ask (Ask.advance block)) d }
{
    if !is_sound(d) {
        return refuse(d, Refusal::Bad);
    }
    let t = d.tables;
    with_advance(d, advance_when_sound(t, block))
}

// An account makes a volume of k data shards and m parity shards for each object.
pub fn create(d: Desk, account: Account, name: &[u8], k: u8, m: u8, cap: Cap) -> Outcome
    ensures { result ≡ step (Call.ask (Ask.create account name.now k m cap)) d }
{
    if !is_sound(d) {
        return refuse(d, Refusal::Bad);
    }
    let t = d.tables;
    with_volumes(d, volumes::create_on(t, account, name, k, m, cap))
}

// Coins for a volume.
pub fn deposit(d: Desk, volume: VolumeNo, coins: u64) -> Outcome
    ensures { result ≡ step (Call.ask (Ask.deposit volume coins)) d }
{
    if !is_sound(d) {
        return refuse(d, Refusal::Bad);
    }
    let t = d.tables;
    with_volumes(d, volumes::deposit_on(t, volume, coins))
}

// An account deletes its volume, whose tokens go for good.
pub fn delete(d: Desk, account: Account, volume: VolumeNo) -> Outcome
    ensures { result ≡ step (Call.ask (Ask.delete account volume)) d }
{
    if !is_sound(d) {
        return refuse(d, Refusal::Bad);
    }
    let t = d.tables;
    with_delete(d, volumes::delete_on(t, account, volume))
}

// A deleted volume that is not collected yet comes back.
pub fn undelete(d: Desk, account: Account, volume: VolumeNo) -> Outcome
    ensures { result ≡ step (Call.ask (Ask.undelete account volume)) d }
{
    if !is_sound(d) {
        return refuse(d, Refusal::Bad);
    }
    let t = d.tables;
    with_volumes(d, volumes::undelete_on(t, account, volume))
}

// A token for a volume, from its owner.
pub fn grant(
    d: Desk,
    account: Account,
    volume: VolumeNo,
    prefix: &[u8],
    mode: Mode,
    cap: Cap,
    from: u64,
    until: u64,
) -> Outcome
    ensures { result ≡ step (Call.ask (Ask.grant account volume (scope_arg prefix.now mode cap from until))) d }
{
    if !is_sound(d) {
        return refuse(d, Refusal::Bad);
    }
    let t = d.tables;
    with_tokens(
        d,
        tokens::grant_on(t, account, volume, prefix, mode, cap, from, until),
    )
}

// A narrower token under another.
pub fn attenuate(
    d: Desk,
    token: TokenNo,
    prefix: &[u8],
    mode: Mode,
    cap: Cap,
    from: u64,
    until: u64,
) -> Outcome
    ensures { result ≡ step (Call.ask (Ask.attenuate token (scope_arg prefix.now mode cap from until))) d }
{
    if !is_sound(d) {
        return refuse(d, Refusal::Bad);
    }
    let t = d.tables;
    with_tokens(
        d,
        tokens::attenuate_on(t, token, prefix, mode, cap, from, until),
    )
}

// A token and all below it go.
pub fn revoke(d: Desk, account: Account, token: TokenNo) -> Outcome
    ensures { result ≡ step (Call.ask (Ask.revoke account token)) d }
{
    if !is_sound(d) {
        return refuse(d, Refusal::Bad);
    }
    let t = d.tables;
    with_tokens(d, tokens::revoke_on(t, account, token))
}

// A session begins in a slot, under a token.
pub fn open(d: Desk, slot: u8, token: TokenNo) -> Outcome
    ensures { result ≡ step (Call.on_slot slot (Work.opens token)) d }
{
    if !is_sound(d) {
        return refuse(d, Refusal::Bad);
    }
    if 4 <= slot {
        return refuse(d, Refusal::Bad);
    }
    let i = slot as usize;
    let t = d.tables;
    let s = slot_of(d, i);
    with_session(d, i, sessions::open_on(t, s, token))
}

// A session stages an object; nothing is stored yet.
pub fn stage(d: Desk, slot: u8, path: &[u8], size: u64, hash: Hash) -> Outcome
    ensures { result ≡ step (Call.on_slot slot (Work.stages path.now size hash)) d }
{
    if !is_sound(d) {
        return refuse(d, Refusal::Bad);
    }
    if 4 <= slot {
        return refuse(d, Refusal::Bad);
    }
    let i = slot as usize;
    let t = d.tables;
    let s = slot_of(d, i);
    with_session(d, i, sessions::stage_on(t, s, path, size, hash))
}

// A session ends with its staged objects stored.
pub fn commit(d: Desk, slot: u8) -> Outcome
    ensures { result ≡ step (Call.on_slot slot Work.commits) d }
{
    if !is_sound(d) {
        return refuse(d, Refusal::Bad);
    }
    if 4 <= slot {
        return refuse(d, Refusal::Bad);
    }
    let i = slot as usize;
    let t = d.tables;
    let s = slot_of(d, i);
    with_commit(d, i, commit_when_sound(t, s))
}

// A session ends with nothing stored.
pub fn abandon(d: Desk, slot: u8) -> Outcome
    ensures { result ≡ step (Call.on_slot slot Work.abandons) d }
{
    if !is_sound(d) {
        return refuse(d, Refusal::Bad);
    }
    if 4 <= slot {
        return refuse(d, Refusal::Bad);
    }
    let i = slot as usize;
    let t = d.tables;
    let s = slot_of(d, i);
    with_session(d, i, sessions::abandon_on(t, s))
}

// An owner takes an object out of its volume.
pub fn remove(d: Desk, account: Account, volume: VolumeNo, path: &[u8]) -> Outcome
    ensures { result ≡ step (Call.ask (Ask.remove account volume path.now)) d }
{
    if !is_sound(d) {
        return refuse(d, Refusal::Bad);
    }
    let t = d.tables;
    with_remove(d, removes::remove_on(t, account, volume, path))
}

// The size of an object, and its hash handed back.
pub fn look(d: Desk, token: TokenNo, path: &[u8]) -> Outcome
    ensures { result ≡ step (Call.ask (Ask.look token path.now)) d }
{
    if !is_sound(d) {
        return refuse(d, Refusal::Bad);
    }
    let t = d.tables;
    answered(d, tokens::look_on(t, token, path))
}

// A relay of so many bytes joins.
pub fn register(d: Desk, capacity: u64) -> Outcome
    ensures { result ≡ step (Call.ask (Ask.register capacity)) d }
{
    if !is_sound(d) {
        return refuse(d, Refusal::Bad);
    }
    let t = d.tables;
    with_relays(d, relays::register_on(t, capacity))
}

// A relay says that it is there.
pub fn heartbeat(d: Desk, relay: RelayNo) -> Outcome
    ensures { result ≡ step (Call.ask (Ask.heartbeat relay)) d }
{
    if !is_sound(d) {
        return refuse(d, Refusal::Bad);
    }
    let t = d.tables;
    with_relays(d, relays::heartbeat_on(t, relay))
}
