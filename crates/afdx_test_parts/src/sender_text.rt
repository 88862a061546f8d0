//! The lines of `conform` that say what a system did wrong as a sender, and the end of the last
//! line.

use afdx_frame::{IpFault, MacFault, Side};
use afdx_lawful::{Flaw, SenderFinding};
use afdx_test_samples::{Break, WeakWriter, all_right};
use afdx_text::{Answer, Conclusion, ConformLine, NoSource, OutLine, Output, SenderTotals, Sink};
use std::alloc::{AllocError, Global};
use std::test::Fail;

/// A line, and its text.
type Row = (ConformLine, &'static str);

/// What a system did on side B at its port 24.
fn did(finding: SenderFinding) -> ConformLine {
    ConformLine::Sender {
        side: Side::B,
        port: 24,
        finding,
    }
}

/// The frame of line 7 has this flaw.
fn unlawful(flaw: Flaw) -> ConformLine {
    did(SenderFinding::Unlawful(7, flaw))
}

/// The frame of line 8 came to port 2 of side A, and is no source's.
fn sourceless(why: NoSource) -> ConformLine {
    ConformLine::Sourceless {
        n: 8,
        side: Side::A,
        port: 2,
        why,
    }
}

/// A last line with one number in all places but those of senders.
fn judged(answer: Answer, n: u64, senders: Option<SenderTotals>) -> ConformLine {
    ConformLine::Judged(Conclusion {
        answer,
        explained: n,
        waiting: n,
        uncertain: n,
        left_out: n,
        unseen: n,
        idle: n,
        senders,
    })
}

const MOST: u64 = u64::MAX;

/// The greatest numbers of senders.
const ALL: SenderTotals = SenderTotals {
    sent: MOST,
    cut: MOST,
    alone: MOST,
};

/// Whether a line is put as this text.
fn is_put(alloc: Global, row: &Row) -> Result<bool, AllocError> {
    let device = WeakWriter {
        written: Vec::new(alloc),
        most: 1_000,
        calls: 9,
        at_end: Break::Fails,
    };
    let mut output = Output::new(alloc, 0, device)?;
    let is_well = output.put(&OutLine::Conform(row.0)).is_ok();
    let written = output.into_device().written;
    Ok(is_well && written.as_slice() == row.1.as_bytes())
}

/// The text of the first line that is put otherwise.
fn wrongly_put(alloc: Global, rows: &[Row]) -> Result<Option<&'static str>, AllocError> {
    for row in rows {
        if !is_put(alloc, row)? {
            return Ok(Some(row.1));
        }
    }
    Ok(None)
}

#[test]
fn flaws_are_words(rt: HostRuntime) -> Result<(), Fail> {
    let rows = [
        (
            unlawful(Flaw::Damaged(MacFault::TooShort)),
            "unlawful 7 B 24 too-short\n",
        ),
        (
            unlawful(Flaw::Damaged(MacFault::BadFcs)),
            "unlawful 7 B 24 bad-fcs\n",
        ),
        (unlawful(Flaw::OverLmax), "unlawful 7 B 24 over-lmax\n"),
        (unlawful(Flaw::UnderLmin), "unlawful 7 B 24 under-lmin\n"),
        (
            unlawful(Flaw::NotItsAddress),
            "unlawful 7 B 24 not-its-address\n",
        ),
        (
            unlawful(Flaw::Unread(IpFault::BadUdpLength)),
            "unlawful 7 B 24 bad-udp-length\n",
        ),
        (
            sourceless(NoSource::UnknownLink),
            "unlawful 8 A 2 unknown-link\n",
        ),
        (
            sourceless(NoSource::NotItsLink),
            "unlawful 8 A 2 not-its-link\n",
        ),
    ];
    all_right(wrongly_put(rt.alloc(), rows.as_slice())?)
}

#[test]
fn findings_are_lines(rt: HostRuntime) -> Result<(), Fail> {
    let rows = [
        (did(SenderFinding::Number(3, 255)), "number 3 B 24 255\n"),
        (
            did(SenderFinding::Soon(MOST, MOST)),
            "soon 18446744073709551615 B 24 18446744073709551615\n",
        ),
        (did(SenderFinding::Differs(4)), "differs 4 B 24\n"),
        (did(SenderFinding::Apart(5, 6)), "apart 5 B 24 6\n"),
        (did(SenderFinding::Single(9)), "single 9 B 24\n"),
    ];
    all_right(wrongly_put(rt.alloc(), rows.as_slice())?)
}

#[test]
fn senders_end_the_last_line(rt: HostRuntime) -> Result<(), Fail> {
    let few = SenderTotals {
        sent: 1,
        cut: 2,
        alone: 3,
    };
    let rows = [
        (
            judged(Answer::Conforms, 0, Some(few)),
            "conforms explained 0 open 0 uncertain 0 left-out 0 unseen 0 idle 0 sent 1 cut 2 \
             alone 3\n",
        ),
        (
            judged(Answer::Undecided, 4, None),
            "undecided explained 4 open 4 uncertain 4 left-out 4 unseen 4 idle 4\n",
        ),
        (
            judged(Answer::Deviates(MOST), MOST, Some(ALL)),
            "deviates 18446744073709551615 explained 18446744073709551615 \
             open 18446744073709551615 uncertain 18446744073709551615 \
             left-out 18446744073709551615 unseen 18446744073709551615 \
             idle 18446744073709551615 sent 18446744073709551615 \
             cut 18446744073709551615 alone 18446744073709551615\n",
        ),
    ];
    all_right(wrongly_put(rt.alloc(), rows.as_slice())?)
}
