// Journals whole, damaged and full, and what the replay writes for them. Each line of the stored output was worked out from the
// paper.
#![tactic(auto)]

ghost use Rattle.std.specs.Prelude.{◌≡◌, length};

use std::io;
use std::io::{BufWriter, Write};

fn word(output: &mut impl Write, s: &[u8]) -> io::Result<()> {
    output.write_all(s)
}

fn number(output: &mut impl Write, n: u64) -> io::Result<()> {
    write!(output, "{n}")
}

// The bytes from `from` up to `to`, or none.
fn part(output: &mut impl Write, s: &[u8], from: usize, to: usize) -> io::Result<()> {
    if s.len() < to {
        return Ok(());
    }
    if to < from {
        return Ok(());
    }
    word(output, &s[from..to])
}

// A name, and the transcript of a journal.
fn show_in(output: &mut impl Write, name: &[u8], journal: &[u8], out: &mut [u8]) -> io::Result<()> {
    let len = transcripts::replay_into(journal, out).unwrap_or(0);
    word(output, name)?;
    word(output, b"\n")?;
    part(output, out, 0, len)
}

fn show(output: &mut impl Write, name: &[u8], journal: &[u8]) -> io::Result<()> {
    let mut out = [0u8; 4096];
    show_in(output, name, journal, &mut out)
}

fn wide(b: u8) -> u64 {
    b as u64
}

// What a replay answers, and the first byte of the buffer after it.
fn show_answer(
    output: &mut impl Write,
    name: &[u8],
    journal: &[u8],
    out: &mut [u8],
) -> io::Result<()> {
    if out.len() == 0 {
        return Ok(());
    }
    let (refused, len) = match transcripts::replay_into(journal, out) {
        Ok(len) => (0, len),
        Err(error) => (error.number(), 0),
    };
    word(output, name)?;
    number(output, u64::from(refused))?;
    word(output, b" ")?;
    number(output, len as u64)?;
    word(output, b", first byte ")?;
    number(output, wide(out[0]))?;
    word(output, b"\n")
}

// A record again and again from a place to the end of the buffer.
fn fill(buf: &mut [u8], from: usize, bytes: &[u8]) {
    if bytes.len() == 0 {
        return;
    }
    let mut k: usize = 0;
    for i in from..buf.len() {
        buf[i] = bytes[k];
        k += 1;
        if k == bytes.len() {
            k = 0;
        }
    }
}

// Two relays register, and then heartbeats of relay 1 fill the buffer: 2 + 9,359 records in 65,536 bytes.
fn full(buf: &mut [u8]) {
    fill(buf, 0, b"\x01");
    fill(buf, 1, b"\x00\x09\x0f\x00\x00\x00\x00\x00\x00\x00\x00");
    fill(buf, 23, b"\x00\x05\x10\x00\x00\x00\x01");
}

// The number of bytes written, and the last 14 of them.
fn show_end(
    output: &mut impl Write,
    name: &[u8],
    journal: &[u8],
    out: &mut [u8],
) -> io::Result<()> {
    let len = transcripts::replay_into(journal, out).unwrap_or(0);
    word(output, name)?;
    word(output, b": ")?;
    number(output, len as u64)?;
    word(output, b" bytes, of which the last are\n")?;
    if len < 14 {
        return part(output, out, 0, len);
    }
    part(output, out, len - 14, len)
}

// The same of the first n bytes.
fn show_first(
    output: &mut impl Write,
    name: &[u8],
    journal: &[u8],
    n: usize,
    out: &mut [u8],
) -> io::Result<()> {
    if journal.len() < n {
        return Ok(());
    }
    show_end(output, name, &journal[..n], out)
}

fn show_full(output: &mut impl Write, journal: &[u8], out: &mut [u8]) -> io::Result<()> {
    show_first(output, b"a journal of 65,536 bytes", journal, 65536, out)?;
    show_first(
        output,
        b"one byte less, so that the last record is cut",
        journal,
        65535,
        out,
    )?;
    show_first(output, b"one byte more", journal, 65537, out)
}

fn journal_buffer() -> [u8; 65537]
    ensures { 65537 ≡ length result }
{
    [0; 65537]
}

fn transcript_buffer() -> [u8; 655381]
    ensures { 655381 ≡ length result }
{
    [0; 655381]
}

// Each fault of the frame.
fn faults(output: &mut impl Write) -> io::Result<()> {
    show(output, b"no byte", b"")?;
    show(output, b"version 00", b"\x00")?;
    show(output, b"version 03", b"\x03\x00\x05\x10\x00\x00\x00\x01")?;
    show(output, b"version 02", b"\x02\x00\x05\x10\x00\x00\x00\x01")?;
    show(output, b"version 02 alone", b"\x02")?;
    show(
        output,
        b"a look of version 01 in a journal of version 02",
        b"\x02\x00\x08\x0e\x00\x00\x00\x01\x02\x61\x62",
    )?;
    show(
        output,
        b"and of version 02",
        b"\x02\x00\x09\x0e\x00\x00\x00\x01\x00\x02\x61\x62",
    )?;
    show(output, b"the version alone", b"\x01")?;
    show(output, b"a lone byte after it", b"\x01\x00")?;
    show(output, b"a record of length 0", b"\x01\x00\x00")?;
    show(
        output,
        b"a record that is cut",
        b"\x01\x00\x05\x10\x00\x00\x00",
    )?;
    show(
        output,
        b"an unknown kind",
        b"\x01\x00\x05\x11\x00\x00\x00\x01",
    )?;
    show(output, b"kind 00", b"\x01\x00\x05\x00\x00\x00\x00\x01")?;
    show(
        output,
        b"a length one too long",
        b"\x01\x00\x06\x10\x00\x00\x00\x01\x00",
    )?;
    show(
        output,
        b"a length one too short",
        b"\x01\x00\x04\x10\x00\x00\x00",
    )?;
    show(
        output,
        b"two records, and a lone byte",
        b"\x01\x00\x05\x10\x00\x00\x00\x01\x00\x09\x0f\x00\x00\x00\x00\x00\x00\x00\x07\xff",
    )
}

// A journal of 12 bytes wants a buffer of 141.
fn rooms(output: &mut impl Write) -> io::Result<()> {
    let mut short = [0u8; 140];
    let mut enough = [0u8; 141];
    show_answer(
        output,
        b"a buffer of one byte too few: ",
        b"\x01\x00\x09\x01\x00\x00\x00\x00\x00\x00\x0e\x10",
        &mut short,
    )?;
    show_answer(
        output,
        b"and of just enough: ",
        b"\x01\x00\x09\x01\x00\x00\x00\x00\x00\x00\x0e\x10",
        &mut enough,
    )
}

fn main(rt: HostRuntime) -> io::Result<()> {
    let mut writer = BufWriter::new(rt.alloc(), io::writer(&rt))?;
    let output = &mut writer;
    show(
        output,
        b"the whole case of the paper",
        b"\x01\x00\x09\x01\x00\x00\x00\x00\x00\x00\x0e\x10",
    )?;
    faults(output)?;
    rooms(output)?;
    let mut journal = journal_buffer();
    let mut out = transcript_buffer();
    full(&mut journal);
    show_full(output, &journal, &mut out)?;
    output.flush()
}
