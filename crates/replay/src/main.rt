// Replays a journal on a fresh desk and prints its transcript, and nothing else, on standard output. The journal is read from
// standard input, or from the file that the one argument names. What is printed is what `transcripts::replay_into` writes; this
// program reads the bytes and writes them out. What fails is said in one line on standard error.
#![tactic(auto)]

ghost use Rattle.std.specs.Prelude.{◌≡◌, ◌≤◌, length, IfOk};

use std::io::Read;
use std::{env, fs, io};

// One read: how many bytes it gave, none at the end of the input.
fn read_some(input: &mut impl Read, buf: &mut [u8]) -> io::Result<usize>
    ensures { IfOk result (λ n. n ≤ length buf.old) }
{
    input.read(buf)
}

// Reads until the buffer is full or the input ends: how many bytes were read.
fn read_all(input: &mut impl Read, buf: &mut [u8]) -> io::Result<usize>
    ensures { IfOk result (λ n. n ≤ length buf.old) }
{
    let mut n: usize = 0;
    while n < buf.len() {
        let got = read_some(input, &mut buf[n..])?;
        if got == 0 {
            return Ok(n);
        }
        n += got;
    }
    Ok(n)
}

// Prints the transcript of the journal that an input holds, by way of two buffers. `name` is for the error.
fn replay_by(
    rt: &(impl Print + Eprint),
    input: &mut impl Read,
    name: &str,
    journal: &mut [u8],
    out: &mut [u8],
) -> io::Result<()> {
    let n = match read_all(input, journal) {
        Ok(n) => n,
        Err(error) => return eprintln!(rt; "{name}: {error}"),
    };
    // A buffer that were too short would get no transcript, and nothing would be printed.
    let len = transcripts::replay_into(&journal[..n], out).unwrap_or(0);
    match rt.write_all(&out[..len]) {
        Ok(()) => Ok(()),
        Err(error) => eprintln!(rt; "standard output: {error}"),
    }
}

// One byte more than a journal has at most: a longer one is known as such, and the rest of it is not read.
fn journal_buffer() -> [u8; 65537]
    ensures { 65537 ≡ length result }
{
    [0; 65537]
}

// Enough for the transcript of any journal (printed::room_for).
fn transcript_buffer() -> [u8; 655381]
    ensures { 655381 ≡ length result }
{
    [0; 655381]
}

fn replay(rt: &(impl Print + Eprint), input: &mut impl Read, name: &str) -> io::Result<()> {
    let mut journal = journal_buffer();
    let mut out = transcript_buffer();
    replay_by(rt, input, name, &mut journal, &mut out)
}

fn main(rt: HostRuntime) -> io::Result<()> {
    let mut args = match env::args(&rt) {
        Ok(args) => args,
        Err(error) => return eprintln!(rt; "the file's name: {error}"),
    };
    if 2 < args.len() {
        return eprintln!(rt; "usage: replay [FILE]");
    }
    args.next();
    match args.next() {
        None => replay(&rt, &mut rt.stdin(), "standard input"),
        Some(path) => match fs::open(&rt, &path) {
            Ok(mut file) => replay(&rt, &mut file, path.as_str()),
            Err(error) => eprintln!(rt; "{path}: {error}"),
        },
    }
}
