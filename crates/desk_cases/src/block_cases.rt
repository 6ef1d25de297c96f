// Advance (01): its one refusal, by each of its three reasons.
use super::calls::advance;
use super::made::with_clock;
use super::print::{Output, title};
use std::io::Write;

fn epoch_ends(out: &mut Output<impl Write>) {
    title(out, b"advance 0 to 7,199 passes, 0 to 7,200 is 16");
    let d = rules::fresh(100);
    advance(out, d, 7200);
    let e = advance(out, d, 7199);
    title(
        out,
        b"advance below the clock, to the clock itself, past one epoch end, past two",
    );
    advance(out, e, 7198);
    advance(out, e, 7199);
    let f = advance(out, e, 7200);
    let g = advance(out, f, 14399);
    advance(out, g, 17999);
    advance(out, g, 18000);
}

fn last_block(out: &mut Output<impl Write>) {
    title(out, b"advance to 2^40 and above it");
    let fresh = rules::fresh(100);
    let d = with_clock(out, fresh, 1099511627775);
    advance(out, d, 1099511627777);
    let e = advance(out, d, 1099511627776);
    advance(out, e, 1099511627776);
    advance(out, e, 1099511627777);
    advance(out, e, 18446744073709551615);
}

pub(crate) fn run(out: &mut Output<impl Write>) {
    epoch_ends(out);
    last_block(out);
}
