// Numbers and bytes put at a place of a lent buffer.
ghost use Rattle.std.specs.Prelude.{◌≡◌, ◌+◌, ◌≤◌, length};
ghost use Rattle.lists.specs.Bytes.{over};
ghost use Rattle.journal.specs.Numbers.{bytes_of};

// A number in the `w` bytes at a place, the last byte first.
pub(crate) fn put_number(out: &mut [u8], at: usize, w: usize, n: u64)
    requires { at + w ≤ length out.old }
    ensures { out.new ≡ over at (bytes_of w n) out.old }
{
    let mut rest = n;
    for i in 0..w {
        let p = at + (w - 1 - i);
        out[p] = (rest % 256) as u8;
        rest = rest / 256;
    }
}

// Bytes at a place.
pub(crate) fn put_bytes(out: &mut [u8], at: usize, s: &[u8])
    requires { at + length s.now ≤ length out.old }
    ensures { out.new ≡ over at s.now out.old }
{
    let end = at + s.len();
    out[at..end].copy_from_slice(s);
}
