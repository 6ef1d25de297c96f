// Records of document 01's journal, whole and damaged in every field, and what the reader, the frame and the writer answer.
// Each line of the stored output was made from the paper, not from this program.
#![tactic(auto)]

use amount::Cap;
use journal::{Fields, Record, Version};
use rules::Mode;
use std::io;
use std::io::{BufWriter, Write};

fn word(out: &mut impl Write, s: &[u8]) -> io::Result<()> {
    out.write_all(s)
}

fn field(out: &mut impl Write, name: &[u8], n: u64) -> io::Result<()> {
    word(out, name)?;
    write!(out, "{n}")
}

fn mode_number(m: Mode) -> u64 {
    match m {
        Mode::Read => 0,
        Mode::Write => 1,
        Mode::Both => 2,
    }
}

fn show_cap(out: &mut impl Write, cap: Cap) -> io::Result<()> {
    match cap {
        Cap::Unlimited => word(out, b" cap unlimited"),
        Cap::Bytes(n) => field(out, b" cap ", n),
    }
}

// The first and the last of 32 bytes.
fn ends(out: &mut impl Write, name: &[u8], b: [u8; 32]) -> io::Result<()> {
    word(out, name)?;
    write!(out, "{:02x}..{:02x}", b[0], b[31])
}

fn show_record(out: &mut impl Write, body: &[u8], r: Record) -> io::Result<()> {
    let mode = r.mode;
    let cap = r.cap;
    field(out, b"no ", r.no as u64)?;
    field(out, b" slot ", r.slot as u64)?;
    field(out, b" k ", r.k as u64)?;
    field(out, b" m ", r.m as u64)?;
    field(out, b" amount ", r.amount)?;
    field(out, b" from ", r.from)?;
    field(out, b" until ", r.until)?;
    field(out, b" mode ", mode_number(mode))?;
    show_cap(out, cap)?;
    word(out, b" text \"")?;
    word(out, journal::text_of(body, r))?;
    word(out, b"\"")?;
    if 0 < r.account {
        let a = journal::account_of(body, r);
        let b = a.0;
        ends(out, b" account ", b)?;
    }
    if 0 < r.hash {
        let h = journal::hash_of(body, r);
        let b = h.0;
        ends(out, b" hash ", b)?;
    }
    word(out, b"\n")
}

// One record's bytes, in a version.
fn show_in(out: &mut impl Write, v: Version, body: &[u8]) -> io::Result<()> {
    match journal::read_record(v, body) {
        Ok(r) => show_record(out, body, r),
        Err(error) => {
            let n = error.number();
            writeln!(out, "{n}")
        }
    }
}

fn show(out: &mut impl Write, body: &[u8]) -> io::Result<()> {
    show_in(out, Version::V01, body)
}

fn show_02(out: &mut impl Write, body: &[u8]) -> io::Result<()> {
    show_in(out, Version::V02, body)
}

// How many bytes the text of a record has.
fn show_length(out: &mut impl Write, v: Version, body: &[u8]) -> io::Result<()> {
    match journal::read_record(v, body) {
        Ok(r) => {
            let text = journal::text_of(body, r);
            field(out, b"text of ", text.len() as u64)?;
        }
        Err(error) => field(out, b"", u64::from(error.number()))?,
    }
    word(out, b"\n")
}

fn show_front(out: &mut impl Write, v: Version, s: &[u8], end: usize) -> io::Result<()> {
    if s.len() < end {
        return Ok(());
    }
    show_length(out, v, &s[0..end])
}

// A look with a text of n bytes, after the bytes of its length: one in version 01, two in 02. The record is long enough for it.
fn look_01(out: &mut impl Write, n: usize, length: u8) -> io::Result<()> {
    if 1024 < n {
        return Ok(());
    }
    let mut s = [0x61u8; 1040];
    s[0] = 0x0e;
    s[5] = length;
    show_front(out, Version::V01, &s, 6 + n)
}

fn look_02(out: &mut impl Write, n: usize, high: u8, low: u8) -> io::Result<()> {
    if 1025 < n {
        return Ok(());
    }
    let mut s = [0x61u8; 1040];
    s[0] = 0x0e;
    s[5] = high;
    s[6] = low;
    show_front(out, Version::V02, &s, 7 + n)
}

// A record with one byte more after it: whole, cut by a byte, and with the byte left over.
fn thrice(out: &mut impl Write, s: &[u8]) -> io::Result<()> {
    let n = s.len();
    if n < 2 {
        return Ok(());
    }
    let whole = n - 1;
    let cut = n - 2;
    show(out, &s[0..whole])?;
    show(out, &s[0..cut])?;
    show(out, s)
}

fn next(out: &mut impl Write, rest: &[u8]) -> io::Result<()> {
    match journal::next_record(Version::V01, rest) {
        Ok(None) => word(out, b"end\n"),
        Ok(Some((_, n))) => writeln!(out, "whole {n}"),
        Err(error) => {
            let n = error.number();
            writeln!(out, "stop {n}")
        }
    }
}

// The number of a fault at the start, or 0.
fn start(out: &mut impl Write, journal: &[u8]) -> io::Result<()> {
    let n = match journal::start_of(journal) {
        Ok(_) => 0,
        Err(error) => error.number(),
    };
    field(out, b"start ", u64::from(n))?;
    word(out, b"\n")
}

const ACCOUNT: [u8; 32] = [
    0xa0, 0xa1, 0xa2, 0xa3, 0xa4, 0xa5, 0xa6, 0xa7, 0xa8, 0xa9, 0xaa, 0xab, 0xac, 0xad, 0xae, 0xaf,
    0xb0, 0xb1, 0xb2, 0xb3, 0xb4, 0xb5, 0xb6, 0xb7, 0xb8, 0xb9, 0xba, 0xbb, 0xbc, 0xbd, 0xbe, 0xbf,
];

const HASH: [u8; 32] = [
    0x40, 0x41, 0x42, 0x43, 0x44, 0x45, 0x46, 0x47, 0x48, 0x49, 0x4a, 0x4b, 0x4c, 0x4d, 0x4e, 0x4f,
    0x50, 0x51, 0x52, 0x53, 0x54, 0x55, 0x56, 0x57, 0x58, 0x59, 0x5a, 0x5b, 0x5c, 0x5d, 0x5e, 0x5f,
];

// The first 24 bytes of a buffer.
fn show_bytes(out: &mut impl Write, s: &[u8]) -> io::Result<()> {
    for b in s.iter().take(24) {
        write!(out, "{b:02x}")?;
    }
    Ok(())
}

// A record written into a buffer.
fn written_in(
    out: &mut impl Write,
    version: u8,
    kind: u8,
    text: &[u8],
    mode: u8,
    buf: &mut [u8],
) -> io::Result<()> {
    let account = ACCOUNT;
    let hash = HASH;
    let d = Fields {
        kind,
        account,
        no: 7,
        slot: 9,
        k: 4,
        m: 2,
        amount: 3600,
        hash,
        mode,
        cap: Cap::Bytes(1024),
        from: 10,
        until: 20,
    };
    let (refused, len) = match journal_writer::write_record(version, d, text, buf) {
        Ok(len) => (0, len),
        Err(error) => (error.number(), 0),
    };
    field(out, b"write ", u64::from(refused))?;
    field(out, b" ", len as u64)?;
    word(out, b" ")?;
    show_bytes(out, buf)?;
    word(out, b"\n")
}

fn in_part(
    out: &mut impl Write,
    version: u8,
    kind: u8,
    text: &[u8],
    text_len: usize,
    mode: u8,
    buf: &mut [u8],
    room: usize,
) -> io::Result<()> {
    if text.len() < text_len {
        return Ok(());
    }
    if buf.len() < room {
        return Ok(());
    }
    written_in(
        out,
        version,
        kind,
        &text[0..text_len],
        mode,
        &mut buf[0..room],
    )
}

// A record with a text of so many bytes, written into so many bytes of 0xee.
fn written(
    out: &mut impl Write,
    kind: u8,
    text_len: usize,
    mode: u8,
    room: usize,
) -> io::Result<()> {
    let text = [0x61u8; 256];
    let mut buf = [0xeeu8; 300];
    in_part(out, 1, kind, &text, text_len, mode, &mut buf, room)
}

// The same in any version.
fn written_as(
    out: &mut impl Write,
    version: u8,
    kind: u8,
    text_len: usize,
    room: usize,
) -> io::Result<()> {
    let text = [0x61u8; 1025];
    let mut buf = [0xeeu8; 1100];
    in_part(out, version, kind, &text, text_len, 1, &mut buf, room)
}

fn kinds_1(out: &mut impl Write) -> io::Result<()> {
    thrice(out, b"\x01\x00\x00\x00\x00\x00\x00\x0e\x10\x00")?;
    thrice(
        out,
        b"\x02\xa0\xa1\xa2\xa3\xa4\xa5\xa6\xa7\xa8\xa9\xaa\xab\xac\xad\xae\xaf\xb0\xb1\xb2\xb3\xb4\xb5\xb6\xb7\xb8\xb9\xba\xbb\xbc\xbd\xbe\xbf\x05\x76\x6f\x6c\x2d\x31\x04\x02\x01\x00\x00\x00\x00\x00\x00\x04\x00\x00",
    )?;
    thrice(
        out,
        b"\x03\x00\x00\x00\x07\x00\x00\x00\x00\x00\x00\x01\xf4\x00",
    )?;
    thrice(
        out,
        b"\x04\xa0\xa1\xa2\xa3\xa4\xa5\xa6\xa7\xa8\xa9\xaa\xab\xac\xad\xae\xaf\xb0\xb1\xb2\xb3\xb4\xb5\xb6\xb7\xb8\xb9\xba\xbb\xbc\xbd\xbe\xbf\x00\x00\x00\x07\x00",
    )
}

fn kinds_2(out: &mut impl Write) -> io::Result<()> {
    thrice(
        out,
        b"\x05\xa0\xa1\xa2\xa3\xa4\xa5\xa6\xa7\xa8\xa9\xaa\xab\xac\xad\xae\xaf\xb0\xb1\xb2\xb3\xb4\xb5\xb6\xb7\xb8\xb9\xba\xbb\xbc\xbd\xbe\xbf\x00\x00\xff\xff\x00",
    )?;
    thrice(
        out,
        b"\x06\xa0\xa1\xa2\xa3\xa4\xa5\xa6\xa7\xa8\xa9\xaa\xab\xac\xad\xae\xaf\xb0\xb1\xb2\xb3\xb4\xb5\xb6\xb7\xb8\xb9\xba\xbb\xbc\xbd\xbe\xbf\x00\x00\x00\x07\x04\x6a\x6f\x62\x2f\x02\x00\x00\x00\x00\x00\x00\x00\x00\x0a\x00\x00\x00\x00\x00\x00\x00\x14\x00",
    )?;
    thrice(
        out,
        b"\x07\x00\x00\x00\x03\x00\x00\x01\x00\x00\x00\x00\x00\x00\x00\x00\x00\x00\x00\x00\x00\x00\x00\x00\xff\xff\xff\xff\xff\xff\xff\xff\x00",
    )?;
    thrice(
        out,
        b"\x08\xa0\xa1\xa2\xa3\xa4\xa5\xa6\xa7\xa8\xa9\xaa\xab\xac\xad\xae\xaf\xb0\xb1\xb2\xb3\xb4\xb5\xb6\xb7\xb8\xb9\xba\xbb\xbc\xbd\xbe\xbf\xff\xff\xff\xff\x00",
    )
}

fn kinds_3(out: &mut impl Write) -> io::Result<()> {
    thrice(out, b"\x09\x09\x00\x00\x00\x01\x00")?;
    thrice(
        out,
        b"\x0a\x03\x05\x6a\x6f\x62\x2f\x61\x00\x00\x00\x00\x00\x00\x00\x0a\x40\x41\x42\x43\x44\x45\x46\x47\x48\x49\x4a\x4b\x4c\x4d\x4e\x4f\x50\x51\x52\x53\x54\x55\x56\x57\x58\x59\x5a\x5b\x5c\x5d\x5e\x5f\x00",
    )?;
    thrice(out, b"\x0b\x00\x00")?;
    thrice(out, b"\x0c\xff\x00")
}

fn kinds_4(out: &mut impl Write) -> io::Result<()> {
    thrice(
        out,
        b"\x0d\xa0\xa1\xa2\xa3\xa4\xa5\xa6\xa7\xa8\xa9\xaa\xab\xac\xad\xae\xaf\xb0\xb1\xb2\xb3\xb4\xb5\xb6\xb7\xb8\xb9\xba\xbb\xbc\xbd\xbe\xbf\x00\x00\x00\x01\x01\x78\x00",
    )?;
    thrice(out, b"\x0e\x00\x00\x00\x02\x05\x6a\x6f\x62\x2f\x61\x00")?;
    thrice(out, b"\x0f\x00\x00\x04\x00\x00\x00\x00\x00\x00")?;
    thrice(out, b"\x10\x00\x00\x00\x20\x00")
}

fn damaged_1(out: &mut impl Write) -> io::Result<()> {
    show(out, b"")?;
    show(out, b"\x00")?;
    show(out, b"\x11\x00\x00\x00\x00\x00\x00\x00\x01")?;
    show(out, b"\xff")?;
    show(
        out,
        b"\x02\xa0\xa1\xa2\xa3\xa4\xa5\xa6\xa7\xa8\xa9\xaa\xab\xac\xad\xae\xaf\xb0\xb1\xb2\xb3\xb4\xb5\xb6\xb7\xb8\xb9\xba\xbb\xbc\xbd\xbe",
    )?;
    show(
        out,
        b"\x02\xa0\xa1\xa2\xa3\xa4\xa5\xa6\xa7\xa8\xa9\xaa\xab\xac\xad\xae\xaf\xb0\xb1\xb2\xb3\xb4\xb5\xb6\xb7\xb8\xb9\xba\xbb\xbc\xbd\xbe\xbf\x01\x76\x04\x02\x02\x00\x00\x00\x00\x00\x00\x00\x01",
    )
}

fn damaged_2(out: &mut impl Write) -> io::Result<()> {
    show(
        out,
        b"\x02\xa0\xa1\xa2\xa3\xa4\xa5\xa6\xa7\xa8\xa9\xaa\xab\xac\xad\xae\xaf\xb0\xb1\xb2\xb3\xb4\xb5\xb6\xb7\xb8\xb9\xba\xbb\xbc\xbd\xbe\xbf\x05\x76\x6f\x6c",
    )?;
    show(
        out,
        b"\x02\xa0\xa1\xa2\xa3\xa4\xa5\xa6\xa7\xa8\xa9\xaa\xab\xac\xad\xae\xaf\xb0\xb1\xb2\xb3\xb4\xb5\xb6\xb7\xb8\xb9\xba\xbb\xbc\xbd\xbe\xbf\x01\x76\x04\x02\x01\x00\x00\x00\x00\x00\x00\x00",
    )?;
    show(
        out,
        b"\x02\xa0\xa1\xa2\xa3\xa4\xa5\xa6\xa7\xa8\xa9\xaa\xab\xac\xad\xae\xaf\xb0\xb1\xb2\xb3\xb4\xb5\xb6\xb7\xb8\xb9\xba\xbb\xbc\xbd\xbe\xbf\x01\x76\x04\x02\x00",
    )?;
    show(
        out,
        b"\x07\x00\x00\x00\x03\x00\x03\x00\x00\x00\x00\x00\x00\x00\x00\x00\x00\x00\x00\x00\x00\x00\x00\x01",
    )?;
    show(
        out,
        b"\x07\x00\x00\x00\x03\x02\x70\x2f\x01\x00\x00\x00\x00\x00\x00\x00\x00\x00\x00\x00\x00\x00\x00\x00\x00\x01",
    )?;
    show(
        out,
        b"\x07\x00\x00\x00\x03\x02\x70\x2f\x01\x03\x00\x00\x00\x00\x00\x00\x00\x00\x00\x00\x00\x00\x00\x00\x00\x01",
    )
}

fn damaged_3(out: &mut impl Write) -> io::Result<()> {
    show(out, b"\x07\x00\x00\x00\x03\x02\x70\x2f")?;
    show(out, b"\x07\x00\x00\x00")?;
    show(
        out,
        b"\x0a\x00\x01\x61\x00\x00\x00\x00\x00\x00\x00\x01\x40\x41\x42\x43\x44\x45\x46\x47\x48\x49\x4a\x4b\x4c\x4d\x4e\x4f\x50\x51\x52\x53\x54\x55\x56\x57\x58\x59\x5a\x5b\x5c\x5d\x5e",
    )?;
    show(out, b"\x0a\x00\x01\x61\x00\x00\x00\x00\x00\x00\x00")?;
    show(out, b"\x0a\x00\xff\x61")?;
    show(out, b"\x0e\x00\x00\x00\x01")
}

fn frames_1(out: &mut impl Write) -> io::Result<()> {
    next(out, b"")?;
    next(out, b"\x00")?;
    next(out, b"\x00\x00")?;
    next(out, b"\x00\x02\x0b\x01")?;
    next(out, b"\x00\x02\x0b\x01\x00")?;
    next(out, b"\x00\x03\x0b\x01")?;
    next(out, b"\x02\x00\x0b\x01")?;
    next(out, b"\x00\x09\x01\x00\x00\x00\x00\x00\x00\x0e\x10")
}

fn starts_1(out: &mut impl Write) -> io::Result<()> {
    start(out, b"")?;
    start(out, b"\x00")?;
    start(out, b"\x01")?;
    start(out, b"\x02\x00")?;
    start(out, b"\x03\x00")?;
    start(out, b"\xff")?;
    start(out, b"\x01\x00\x09\x01\x00\x00\x00\x00\x00\x00\x0e\x10")
}

fn sizes(out: &mut impl Write) -> io::Result<()> {
    let s = [1u8; 65537];
    start(out, &s[..65536])?;
    start(out, &s)
}

fn writes_1(out: &mut impl Write) -> io::Result<()> {
    written(out, 1, 3, 1, 100)?;
    written(out, 2, 3, 1, 100)?;
    written(out, 3, 3, 1, 100)?;
    written(out, 4, 3, 1, 100)?;
    written(out, 5, 3, 1, 100)?;
    written(out, 6, 3, 1, 100)?;
    written(out, 7, 3, 1, 100)?;
    written(out, 8, 3, 1, 100)
}

fn writes_2(out: &mut impl Write) -> io::Result<()> {
    written(out, 9, 3, 1, 100)?;
    written(out, 10, 3, 1, 100)?;
    written(out, 11, 3, 1, 100)?;
    written(out, 12, 3, 1, 100)?;
    written(out, 13, 3, 1, 100)?;
    written(out, 14, 3, 1, 100)?;
    written(out, 15, 3, 1, 100)?;
    written(out, 16, 3, 1, 100)
}

fn writes_3(out: &mut impl Write) -> io::Result<()> {
    written(out, 0, 3, 1, 100)?;
    written(out, 17, 3, 1, 100)?;
    written(out, 7, 3, 3, 100)?;
    written(out, 1, 3, 3, 100)?;
    written(out, 7, 0, 2, 100)?;
    written(out, 14, 255, 0, 300)?;
    written(out, 14, 256, 0, 300)?;
    written(out, 1, 256, 0, 100)
}

fn writes_4(out: &mut impl Write) -> io::Result<()> {
    written(out, 1, 0, 0, 11)?;
    written(out, 1, 0, 0, 10)?;
    written(out, 7, 3, 3, 0)?;
    written(out, 17, 3, 0, 0)?;
    written(out, 14, 256, 0, 0)
}

// Texts of version 01 have a length of one byte, those of 02 one of two bytes, and at most 1,024.
fn texts(out: &mut impl Write) -> io::Result<()> {
    look_01(out, 255, 0xff)?;
    look_01(out, 256, 0xff)?;
    look_02(out, 0, 0x00, 0x00)?;
    look_02(out, 255, 0x00, 0xff)?;
    look_02(out, 256, 0x01, 0x00)?;
    look_02(out, 512, 0x02, 0x00)?;
    look_02(out, 1024, 0x04, 0x00)?;
    look_02(out, 1025, 0x04, 0x01)
}

// A record of one version is unfit in the other, and the records of one call give the same.
fn versions(out: &mut impl Write) -> io::Result<()> {
    show(out, b"\x0e\x00\x00\x00\x02\x05\x6a\x6f\x62\x2f\x61")?;
    show_02(out, b"\x0e\x00\x00\x00\x02\x00\x05\x6a\x6f\x62\x2f\x61")?;
    show_02(out, b"\x0e\x00\x00\x00\x02\x05\x6a\x6f\x62\x2f\x61")?;
    show(out, b"\x0e\x00\x00\x00\x02\x00\x05\x6a\x6f\x62\x2f\x61")?;
    show_02(out, b"\x0e\x00\x00\x00\x02\x00")?;
    show_02(out, b"\x0b\x02")?;
    show_02(out, b"\x11\x02")
}

fn writes_5(out: &mut impl Write) -> io::Result<()> {
    written_as(out, 2, 2, 3, 100)?;
    written_as(out, 2, 6, 3, 100)?;
    written_as(out, 2, 7, 3, 100)?;
    written_as(out, 2, 10, 3, 100)?;
    written_as(out, 2, 13, 3, 100)?;
    written_as(out, 2, 14, 3, 100)?;
    written_as(out, 2, 1, 3, 100)
}

fn writes_6(out: &mut impl Write) -> io::Result<()> {
    written_as(out, 2, 14, 0, 1100)?;
    written_as(out, 2, 14, 255, 1100)?;
    written_as(out, 2, 14, 256, 1100)?;
    written_as(out, 2, 14, 512, 1100)?;
    written_as(out, 2, 14, 1024, 1100)?;
    written_as(out, 2, 14, 1025, 1100)?;
    written_as(out, 2, 14, 1024, 1032)
}

fn writes_7(out: &mut impl Write) -> io::Result<()> {
    written_as(out, 0, 14, 3, 100)?;
    written_as(out, 3, 14, 3, 100)?;
    written_as(out, 255, 14, 3, 100)?;
    written_as(out, 3, 14, 3, 0)
}

fn main(rt: HostRuntime) -> io::Result<()> {
    let mut writer = BufWriter::new(rt.alloc(), io::writer(&rt))?;
    let out = &mut writer;
    kinds_1(out)?;
    kinds_2(out)?;
    kinds_3(out)?;
    kinds_4(out)?;
    damaged_1(out)?;
    damaged_2(out)?;
    damaged_3(out)?;
    frames_1(out)?;
    starts_1(out)?;
    sizes(out)?;
    writes_1(out)?;
    writes_2(out)?;
    writes_3(out)?;
    writes_4(out)?;
    texts(out)?;
    versions(out)?;
    writes_5(out)?;
    writes_6(out)?;
    writes_7(out)?;
    out.flush()
}
