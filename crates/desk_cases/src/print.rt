// What is printed: words, numbers and texts of a line, and the answer at its end.
use amount::Cap;
use rules::{Answer, Mode};
use std::io;
use std::io::Write;

// Where the lines go. It keeps the first failure of a write, and nothing is written after it: a call prints its lines and hands
// the desk on, whatever becomes of the lines.
#[derive(Drop)]
pub(crate) struct Output<W> {
    writer: W,
    written: io::Result<()>,
}

impl<W: Write + Drop> Output<W> {
    pub(crate) fn new(writer: W) -> Self {
        Output {
            writer,
            written: Ok(()),
        }
    }

    // The first failure, if there was one.
    pub(crate) fn finish(mut self) -> io::Result<()> {
        self.written?;
        self.writer.flush()
    }
}

pub(crate) fn word(out: &mut Output<impl Write>, s: &[u8]) {
    if out.written.is_ok() {
        out.written = out.writer.write_all(s);
    }
}

pub(crate) fn number(out: &mut Output<impl Write>, n: u64) {
    if out.written.is_ok() {
        out.written = write!(out.writer, " {n}");
    }
}

pub(crate) fn text(out: &mut Output<impl Write>, s: &[u8]) {
    word(out, b" [");
    word(out, s);
    word(out, b"]");
}

pub(crate) fn cap_word(out: &mut Output<impl Write>, cap: Cap) {
    match cap {
        Cap::Unlimited => word(out, b" unlimited"),
        Cap::Bytes(n) => number(out, n),
    }
}

fn mode_word(out: &mut Output<impl Write>, mode: Mode) {
    match mode {
        Mode::Read => word(out, b" read"),
        Mode::Write => word(out, b" write"),
        Mode::Both => word(out, b" both"),
    }
}

pub(crate) fn scope(
    out: &mut Output<impl Write>,
    prefix: &[u8],
    mode: Mode,
    cap: Cap,
    from: u64,
    until: u64,
) {
    text(out, prefix);
    mode_word(out, mode);
    cap_word(out, cap);
    number(out, from);
    number(out, until);
}

fn first_byte(a: Answer) -> u8 {
    let hash = a.hash;
    let bytes = hash.0;
    bytes[0]
}

// The answer and its value; of an object that was found, the first byte of its hash too.
pub(crate) fn answer(out: &mut Output<impl Write>, a: Answer) {
    word(out, b":");
    number(out, a.number as u64);
    number(out, a.value);
    let b = first_byte(a);
    if b != 0 {
        word(out, b" hash");
        number(out, b as u64);
    }
    word(out, b"\n");
}

// What the calls below it are about.
pub(crate) fn title(out: &mut Output<impl Write>, s: &[u8]) {
    word(out, b"-- ");
    word(out, s);
    word(out, b"\n");
}

// The call below breaks both checks, which are neighbours in its row of document 01.
pub(crate) fn before(out: &mut Output<impl Write>, first: u64, second: u64) {
    word(out, b"--");
    number(out, first);
    word(out, b" before");
    number(out, second);
    word(out, b"\n");
}
