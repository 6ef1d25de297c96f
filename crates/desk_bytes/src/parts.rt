// The parts that rows are made of, each written from a place on. Each function gives the place after its part.
ghost use Rattle.std.specs.Prelude.{◌≡◌, ◌++◌, ◌+◌, ◌≤◌, length};
ghost use Rattle.text.specs.Text.{path_limit, name_limit};
ghost use Rattle.rules.specs.Scope.{mode_number};
ghost use Rattle.journal.specs.Numbers.{bytes_of};
ghost use Rattle.desk_bytes.specs.Layout.{hash_length, text_bytes_all, text_length, name_bytes_all, name_length, cap_bytes, cap_length, status_number, placement_bytes, placement_length};
ghost use Rattle.desk_bytes.specs.Written.{Wrote};

use super::tables::put_relay_numbers;
use amount::Cap;
use rules::{Account, Hash, Mode, Placement, Status};
use text::name::Name;
use text::{NAME_LIMIT, PATH_LIMIT, Text};

// A number in `w` bytes, the last byte first.
fn put_number(out: &mut [u8], at: usize, w: usize, n: u64) -> usize
    requires { at + w ≤ length out.old }
    ensures { (result ≡ at + w) × Wrote at (bytes_of w n) out.old result out.new }
{
    let mut rest = n;
    let mut i = w;
    while 0 < i {
        i -= 1;
        let p = at + i;
        out[p] = (rest % 256) as u8;
        rest = rest / 256;
    }
    at + w
}

// A number of each type, in as many bytes as the type has.
pub(crate) fn put_u8(out: &mut [u8], at: usize, n: u8) -> usize
    requires { at + 1 ≤ length out.old }
    ensures { (result ≡ at + 1) × Wrote at (bytes_of 1 n) out.old result out.new }
{
    put_number(out, at, 1, n as u64)
}

pub(crate) fn put_u16(out: &mut [u8], at: usize, n: u16) -> usize
    requires { at + 2 ≤ length out.old }
    ensures { (result ≡ at + 2) × Wrote at (bytes_of 2 n) out.old result out.new }
{
    put_number(out, at, 2, n as u64)
}

pub(crate) fn put_u32(out: &mut [u8], at: usize, n: u32) -> usize
    requires { at + 4 ≤ length out.old }
    ensures { (result ≡ at + 4) × Wrote at (bytes_of 4 n) out.old result out.new }
{
    put_number(out, at, 4, n as u64)
}

pub(crate) fn put_u64(out: &mut [u8], at: usize, n: u64) -> usize
    requires { at + 8 ≤ length out.old }
    ensures { (result ≡ at + 8) × Wrote at (bytes_of 8 n) out.old result out.new }
{
    put_number(out, at, 8, n)
}

pub(crate) fn put_usize(out: &mut [u8], at: usize, n: usize) -> usize
    requires { at + 8 ≤ length out.old }
    ensures { (result ≡ at + 8) × Wrote at (bytes_of 8 n) out.old result out.new }
{
    put_number(out, at, 8, n as u64)
}

// Three numbers of 4 bytes each.
pub(crate) fn put_three(out: &mut [u8], at: usize, x: u32, y: u32, z: u32) -> usize
    requires { at + (4 + 4 + 4) ≤ length out.old }
    ensures { (result ≡ at + (4 + 4 + 4)) × Wrote at (bytes_of 4 x ++ bytes_of 4 y ++ bytes_of 4 z) out.old result out.new }
{
    let a = put_u32(out, at, x);
    let b = put_u32(out, a, y);
    put_u32(out, b, z)
}

// Bytes.
#[tactic(auto, unfolding(crate::specs::Written::Wrote))]
pub(crate) fn put_bytes(out: &mut [u8], at: usize, s: &[u8]) -> usize
    requires { at + length s.now ≤ length out.old }
    ensures { (result ≡ at + length s.now) × Wrote at s.now out.old result out.new }
{
    let end = at + s.len();
    out[at..end].copy_from_slice(s);
    end
}

// All bytes of a text's array.
fn put_text_bytes(out: &mut [u8], at: usize, b: &[u8; PATH_LIMIT]) -> usize
    requires { at + path_limit ≤ length out.old }
    ensures { (result ≡ at + path_limit) × Wrote at b.now out.old result out.new }
{
    put_bytes(out, at, b)
}

pub(crate) fn put_text(out: &mut [u8], at: usize, t: Text) -> usize
    requires { at + text_length ≤ length out.old }
    ensures { (result ≡ at + text_length) × Wrote at (text_bytes_all t) out.old result out.new }
{
    let bytes = t.bytes;
    let p = put_text_bytes(out, at, &bytes);
    put_usize(out, p, t.len)
}

// All bytes of a name's array.
fn put_name_bytes(out: &mut [u8], at: usize, b: &[u8; NAME_LIMIT]) -> usize
    requires { at + name_limit ≤ length out.old }
    ensures { (result ≡ at + name_limit) × Wrote at b.now out.old result out.new }
{
    put_bytes(out, at, b)
}

pub(crate) fn put_name(out: &mut [u8], at: usize, t: Name) -> usize
    requires { at + name_length ≤ length out.old }
    ensures { (result ≡ at + name_length) × Wrote at (name_bytes_all t) out.old result out.new }
{
    let bytes = t.bytes;
    let p = put_name_bytes(out, at, &bytes);
    put_usize(out, p, t.len)
}

// The 32 bytes of an account or a hash.
fn put_hash_bytes(out: &mut [u8], at: usize, b: &[u8; 32]) -> usize
    requires { at + hash_length ≤ length out.old }
    ensures { (result ≡ at + hash_length) × Wrote at b.now out.old result out.new }
{
    put_bytes(out, at, b)
}

pub(crate) fn put_account(out: &mut [u8], at: usize, a: Account) -> usize
    requires { at + hash_length ≤ length out.old }
    ensures { (result ≡ at + hash_length) × Wrote at a.0 out.old result out.new }
{
    let bytes = a.0;
    put_hash_bytes(out, at, &bytes)
}

pub(crate) fn put_hash(out: &mut [u8], at: usize, h: Hash) -> usize
    requires { at + hash_length ≤ length out.old }
    ensures { (result ≡ at + hash_length) × Wrote at h.0 out.old result out.new }
{
    let bytes = h.0;
    put_hash_bytes(out, at, &bytes)
}

pub(crate) fn put_cap(out: &mut [u8], at: usize, cap: Cap) -> usize
    requires { at + cap_length ≤ length out.old }
    ensures { (result ≡ at + cap_length) × Wrote at (cap_bytes cap) out.old result out.new }
{
    match cap {
        Cap::Unlimited => {
            let p = put_u8(out, at, 0);
            put_u64(out, p, 0)
        }
        Cap::Bytes(n) => {
            let p = put_u8(out, at, 1);
            put_u64(out, p, n)
        }
    }
}

fn mode_number(mode: Mode) -> u8
    ensures { result ≡ mode_number mode }
{
    match mode {
        Mode::Read => 0,
        Mode::Write => 1,
        Mode::Both => 2,
    }
}

pub(crate) fn put_mode(out: &mut [u8], at: usize, mode: Mode) -> usize
    requires { at + 1 ≤ length out.old }
    ensures { (result ≡ at + 1) × Wrote at (bytes_of 1 (mode_number mode)) out.old result out.new }
{
    put_u8(out, at, mode_number(mode))
}

fn status_number(status: Status) -> u8
    ensures { result ≡ status_number status }
{
    match status {
        Status::Active => 0,
        Status::Grace => 1,
        Status::Deleted => 2,
    }
}

pub(crate) fn put_status(out: &mut [u8], at: usize, status: Status) -> usize
    requires { at + 1 ≤ length out.old }
    ensures { (result ≡ at + 1) × Wrote at (bytes_of 1 (status_number status)) out.old result out.new }
{
    put_u8(out, at, status_number(status))
}

pub(crate) fn put_placement(out: &mut [u8], at: usize, p: Placement) -> usize
    requires { at + placement_length ≤ length out.old }
    ensures { (result ≡ at + placement_length) × Wrote at (placement_bytes p) out.old result out.new }
{
    let relays = p.relays;
    let a = put_relay_numbers(out, at, relays);
    put_usize(out, a, p.len)
}
