// The rows that kept rows stand for. Each function answers for every place, in the journal or past its end.
ghost use Rattle.std.specs.Prelude.{◌≡◌, map, get_or};
ghost use Rattle.text.specs.Text.{text_bytes};
ghost use Rattle.kept.specs.Kept.{bytes_in, text_in, token_in, entry_in, put_in, session_in, slots_in, fresh_kept_session};

use super::fresh::fresh_kept_session;
use super::{KeptEntry, KeptPut, KeptSession, KeptToken};
use rules::{Entry, Put, Scope, Session, Token};
use text::Text;

// The bytes from a place on, as far as the journal has them.
pub fn bytes_in(journal: &[u8], at: usize, len: usize) -> &[u8]
    ensures { result.now ≡ bytes_in journal.now at len }
{
    if journal.len() < at {
        let end = journal.len();
        return &journal[end..];
    }
    if journal.len() - at < len {
        return &journal[at..];
    }
    let end = at + len;
    &journal[at..end]
}

// The text there.
pub fn text_in(journal: &[u8], at: usize, len: usize) -> Text
    ensures { result ≡ text_in journal.now at len }
{
    Text::truncated(bytes_in(journal, at, len))
}

// The bytes of that text, in the journal.
pub fn text_bytes_in(journal: &[u8], at: usize, len: usize) -> &[u8]
    ensures { result.now ≡ text_bytes (text_in journal.now at len) }
{
    if 512 < len {
        return bytes_in(journal, at, 512);
    }
    bytes_in(journal, at, len)
}

pub fn token_in(journal: &[u8], k: KeptToken) -> Token
    ensures { result ≡ token_in journal.now k }
{
    let prefix = text_in(journal, k.at, k.len);
    let mode = k.mode;
    let cap = k.cap;
    let scope = Scope {
        prefix,
        mode,
        cap,
        from: k.from,
        until: k.until,
    };
    let no = k.no;
    let volume = k.volume;
    let parent = k.parent;
    Token {
        no,
        volume,
        parent,
        scope,
        used: k.used,
    }
}

pub fn entry_in(journal: &[u8], e: KeptEntry) -> Entry
    ensures { result ≡ entry_in journal.now e }
{
    let volume = e.volume;
    let path = text_in(journal, e.at, e.len);
    let hash = e.hash;
    let placement = e.placement;
    Entry {
        volume,
        path,
        size: e.size,
        hash,
        placement,
    }
}

pub fn put_in(journal: &[u8], p: KeptPut) -> Put
    ensures { result ≡ put_in journal.now p }
{
    let path = text_in(journal, p.at, p.len);
    let hash = p.hash;
    Put {
        path,
        size: p.size,
        hash,
    }
}

pub fn session_in(journal: &[u8], s: KeptSession) -> Session
    ensures { result ≡ session_in journal.now s }
{
    let kept = s.puts;
    let none = rules::fresh_put();
    let mut puts = [none; 8];
    for i in 0..8 {
        let p = kept[i];
        puts[i] = put_in(journal, p);
    }
    let token = s.token;
    let volume = s.volume;
    Session {
        token,
        volume,
        version: s.version,
        count: s.count,
        puts,
    }
}

// The session of a slot: an idle one where there is no such slot.
pub fn kept_slot(slots: [KeptSession; 4], i: usize) -> KeptSession
    ensures { result ≡ get_or slots i fresh_kept_session }
{
    if 4 <= i {
        return fresh_kept_session();
    }
    slots[i]
}

pub fn slots_in(journal: &[u8], slots: [KeptSession; 4]) -> [Session; 4]
    ensures { result ≡ slots_in journal.now slots }
{
    let none = rules::fresh_session();
    let mut sessions = [none; 4];
    for i in 0..4 {
        let s = slots[i];
        sessions[i] = session_in(journal, s);
    }
    sessions
}

pub fn tokens_in(journal: &[u8], rows: [KeptToken; 32]) -> [Token; 32]
    ensures { result ≡ map (token_in journal.now) rows }
{
    let none = rules::fresh_token();
    let mut tokens = [none; 32];
    for i in 0..32 {
        let k = rows[i];
        tokens[i] = token_in(journal, k);
    }
    tokens
}

pub fn entries_in(journal: &[u8], rows: [KeptEntry; 64]) -> [Entry; 64]
    ensures { result ≡ map (entry_in journal.now) rows }
{
    let none = rules::fresh_entry();
    let mut entries = [none; 64];
    for i in 0..64 {
        let k = rows[i];
        entries[i] = entry_in(journal, k);
    }
    entries
}
