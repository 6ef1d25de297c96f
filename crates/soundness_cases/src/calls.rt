// The calls on a desk, and what is printed of them. The arguments break no rule, so that a call that answers 1 does so for
// the desk; on the full desk, those are accepted that need no free row.
use super::compare::same_desk;
use super::full;
use amount::Cap;
use rules::{Account, Desk, Mode, Outcome, RelayNo, TokenNo, VolumeNo};
use soundness::is_sound;
use std::io;
use std::io::Write;

// How many calls there are.
const CALLS: usize = 16;

// The owner of every volume of the full desk.
fn owner() -> Account {
    let bytes = [7u8; 32];
    Account(bytes)
}

fn create(d: Desk) -> Outcome {
    desk::create(d, owner(), b"new", 2, 1, Cap::Unlimited)
}

fn grant(d: Desk) -> Outcome {
    desk::grant(
        d,
        owner(),
        VolumeNo(1),
        b"",
        Mode::Both,
        Cap::Unlimited,
        0,
        100,
    )
}

fn attenuate(d: Desk) -> Outcome {
    desk::attenuate(d, TokenNo(1), b"", Mode::Read, Cap::Unlimited, 0, 100)
}

fn remove(d: Desk) -> Outcome {
    let path = full::path(b'a', b'0');
    let bytes = path.bytes;
    desk::remove(d, owner(), VolumeNo(1), &bytes)
}

// The path of the full desk's first entry.
fn look(d: Desk) -> Outcome {
    let path = full::path(b'a', b'0');
    let bytes = path.bytes;
    desk::look(d, TokenNo(1), &bytes)
}

// The path of the first put in each slot of the full desk, with another size.
fn stage(d: Desk) -> Outcome {
    let path = full::path(b's', b'a');
    let bytes = path.bytes;
    let hash = rules::fresh_hash();
    desk::stage(d, 0, &bytes, 17, hash)
}

fn later_call(i: usize, d: Desk) -> Outcome {
    match i {
        7 => desk::advance(d, 60),
        8 => desk::deposit(d, VolumeNo(1), 5),
        9 => desk::delete(d, owner(), VolumeNo(1)),
        10 => desk::undelete(d, owner(), VolumeNo(1)),
        11 => grant(d),
        12 => attenuate(d),
        13 => desk::revoke(d, owner(), TokenNo(1)),
        14 => desk::commit(d, 0),
        _ => remove(d),
    }
}

fn call(i: usize, d: Desk) -> Outcome {
    match i {
        0 => desk::register(d, 0),
        1 => desk::heartbeat(d, RelayNo(1)),
        2 => create(d),
        3 => look(d),
        4 => desk::open(d, 0, TokenNo(1)),
        5 => stage(d),
        6 => desk::abandon(d, 0),
        _ => later_call(i, d),
    }
}

fn write_later_name(out: &mut impl Write, i: usize) -> io::Result<()> {
    match i {
        7 => out.write_all(b"advance"),
        8 => out.write_all(b"deposit"),
        9 => out.write_all(b"delete"),
        10 => out.write_all(b"undelete"),
        11 => out.write_all(b"grant"),
        12 => out.write_all(b"attenuate"),
        13 => out.write_all(b"revoke"),
        14 => out.write_all(b"commit"),
        _ => out.write_all(b"remove"),
    }
}

fn write_name(out: &mut impl Write, i: usize) -> io::Result<()> {
    match i {
        0 => out.write_all(b"register"),
        1 => out.write_all(b"heartbeat"),
        2 => out.write_all(b"create"),
        3 => out.write_all(b"look"),
        4 => out.write_all(b"open"),
        5 => out.write_all(b"stage"),
        6 => out.write_all(b"abandon"),
        _ => write_later_name(out, i),
    }
}

// The call's name and answer, a value other than 0, and whether the desk comes back changed.
fn write_call(out: &mut impl Write, i: usize, d: Desk) -> io::Result<()> {
    let o = call(i, d);
    let answer = o.answer;
    let after = o.desk;
    out.write_all(b", ")?;
    write_name(out, i)?;
    write!(out, " {}", answer.number)?;
    if answer.value != 0 {
        write!(out, " value {}", answer.value)?;
    }
    if !same_desk(d, after) {
        out.write_all(b" desk changed")?;
    }
    Ok(())
}

// Whether the call answers 1 with value 0 and gives the desk back as it went in.
fn is_refused(i: usize, d: Desk) -> bool {
    let o = call(i, d);
    let answer = o.answer;
    if answer.number != 1 {
        return false;
    }
    if answer.value != 0 {
        return false;
    }
    let after = o.desk;
    same_desk(d, after)
}

fn write_calls(out: &mut impl Write, d: Desk) -> io::Result<()> {
    for i in 0..CALLS {
        write_call(out, i, d)?;
    }
    Ok(())
}

// Of a desk that is not sound: the calls that do other than refuse it, or that there is none.
fn write_others(out: &mut impl Write, d: Desk) -> io::Result<()> {
    let mut none = true;
    for i in 0..CALLS {
        if !is_refused(i, d) {
            write_call(out, i, d)?;
            none = false;
        }
    }
    if none {
        out.write_all(b", all 16 calls answer 1, desk unchanged")?;
    }
    Ok(())
}

// Prints whether the desk is sound, and what the calls on it answer: 1 before all else where it is not.
pub(crate) fn show(out: &mut impl Write, part: &[u8], d: Desk) -> io::Result<()> {
    out.write_all(part)?;
    if is_sound(d) {
        out.write_all(b": sound")?;
        write_calls(out, d)?;
    } else {
        out.write_all(b": not sound")?;
        write_others(out, d)?;
    }
    out.write_all(b"\n")
}
