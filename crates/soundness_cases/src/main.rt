// A full desk that is sound, and the same desk with one part of the test broken at a time: what each call answers, and
// whether it gives the desk back as it went in.
#![tactic(auto)]

mod calls;
mod cases;
mod compare;
mod full;
mod same_rows;

use std::io;
use std::io::{BufWriter, Write};

fn main(rt: HostRuntime) -> io::Result<()> {
    let mut writer = BufWriter::new(rt.alloc(), io::writer(&rt))?;
    let out = &mut writer;
    let d = full::desk();
    calls::show(out, b"the full desk", d)?;
    cases::counts(out, d)?;
    cases::volumes(out, d)?;
    cases::statuses(out, d)?;
    cases::names(out, d)?;
    cases::entries(out, d)?;
    cases::placements(out, d)?;
    cases::tokens(out, d)?;
    cases::chains(out, d)?;
    cases::relays(out, d)?;
    cases::sessions(out, d)?;
    cases::free_rows(out, 1)?;
    out.flush()
}
