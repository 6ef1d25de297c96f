// Runs the reader and the writer of amounts. The texts that are read are the lines of standard input,
// then a few that no line can hold; the caps that are written stand in the tables below. It prints
// a line for each case: the text or the buffer in brackets, with a '?' for each byte that is not
// printable, then the answer (0 or the refusal's number) and the value.
#![tactic(auto)]

use amount::Cap;
use std::io;
use std::io::{BufWriter, Read, Write};

// The counts that are written, each with the bytes that are lent for it.
const WRITTEN: [(u64, usize); 23] = [
    (0, 20),
    (1, 20),
    (1_023, 20),
    (1_024, 20),
    (1_025, 20),
    (1_536, 20),
    (1_048_576, 20),
    (1_049_600, 20),
    (1_073_741_824, 20),
    (3_221_225_472, 20),
    (67_646_783_488, 20),
    (68_719_476_735, 20),
    (68_719_476_735, 13),
    (68_719_476_735, 12),
    (68_719_476_736, 20),
    (68_719_476_736, 6),
    (68_719_476_736, 5),
    (68_719_476_737, 20),
    (68_719_476_737, 0),
    (18_446_744_073_709_551_615, 20),
    (0, 3),
    (0, 2),
    (0, 0),
];

// A byte as it is shown.
fn shown(b: u8) -> u8 {
    if b == b' ' || b.is_ascii_graphic() {
        b
    } else {
        b'?'
    }
}

// Prints the bytes of a text in brackets.
fn show(out: &mut impl Write, text: &[u8]) -> io::Result<()> {
    out.write_all(b"[")?;
    for b in text {
        out.write_all(&[shown(*b)])?;
    }
    out.write_all(b"] ")
}

// Prints an answer and its value.
fn answer(out: &mut impl Write, number: u32, value: u64) -> io::Result<()> {
    writeln!(out, "{number} {value}")
}

// Reads a text and prints what that gives.
fn reading(out: &mut impl Write, text: &[u8]) -> io::Result<()> {
    show(out, text)?;
    match amount::read_amount(text) {
        Ok(Cap::Unlimited) => out.write_all(b"0 unlimited\n"),
        Ok(Cap::Bytes(n)) => answer(out, 0, n),
        Err(error) => answer(out, error.number(), 0),
    }
}

// Reads each line of a text, without its newline.
fn lines(out: &mut impl Write, text: &[u8]) -> io::Result<()> {
    for line in text.split_inclusive(|b| *b == b'\n') {
        if let Some(line) = line.strip_suffix(b"\n") {
            reading(out, line)?;
        }
    }
    Ok(())
}

// Writes a cap at the start of 20 points, of which so many are lent, and prints what that gives.
fn writing(out: &mut impl Write, cap: Cap, size: usize) -> io::Result<()> {
    if 20 < size {
        return Ok(());
    }
    let mut buf = [46u8; 20];
    let written = amount::write_amount(cap, &mut buf[..size]);
    show(out, &buf)?;
    match written {
        Ok(n) => answer(out, 0, n as u64),
        Err(error) => answer(out, error.number(), 0),
    }
}

// Writes each count of the table.
fn counts(out: &mut impl Write) -> io::Result<()> {
    for (count, size) in WRITTEN {
        writing(out, Cap::Bytes(count), size)?;
    }
    Ok(())
}

fn main(rt: HostRuntime) -> io::Result<()> {
    let mut space = Vec::new(rt.alloc());
    rt.reader().take(4096).read_to_end(&mut space)?;
    let mut out = BufWriter::new(rt.alloc(), io::writer(&rt))?;
    lines(&mut out, &space)?;
    reading(&mut out, b"unlimited\n")?;
    reading(&mut out, b"1 B\n")?;
    reading(&mut out, &[57u8; 1000])?;
    reading(&mut out, &[48u8; 1000])?;
    counts(&mut out)?;
    writing(&mut out, Cap::Unlimited, 20)?;
    writing(&mut out, Cap::Unlimited, 9)?;
    writing(&mut out, Cap::Unlimited, 8)?;
    writing(&mut out, Cap::Unlimited, 0)?;
    out.flush()
}
