// Histories on the desk, made by hand from document 01: each refusal of each of the sixteen calls, each pair of neighbouring
// checks broken at once, accepted calls with their values, and 01's cases "Checked by hand" that are about the desk.
//
// It prints a line for each call: its name, its fields (but for texts of hundreds of bytes, whose length is said), the answer and the value; an accepted look has the hash's first byte
// too. Lines that begin with "--" say what the calls below are about or what was set by hand; indented lines are rows of the
// desk. A desk is a value, so that one desk may be called several times: the source says which.
//
// Every line of the file stdout was worked out from document 01, as W1 of 02 amends it, by hand before the program was first run.
#![tactic(auto)]

mod block_cases;
mod calls;
mod commit_cases;
mod epoch_cases;
mod length_cases;
mod limit_cases;
mod made;
mod place_cases;
mod print;
mod relay_cases;
mod session_cases;
mod shown;
mod steps;
mod store_cases;
mod token_cases;
mod volume_cases;

use print::Output;
use std::io;
use std::io::BufWriter;

fn main(rt: HostRuntime) -> io::Result<()> {
    let mut output = Output::new(BufWriter::new(rt.alloc(), io::writer(&rt))?);
    let out = &mut output;
    block_cases::run(out);
    relay_cases::run(out);
    volume_cases::run(out);
    token_cases::run(out);
    session_cases::run(out);
    commit_cases::run(out);
    limit_cases::run(out);
    place_cases::run(out);
    store_cases::run(out);
    epoch_cases::run(out);
    length_cases::run(out);
    output.finish()
}
