// Lines of a table: read, run, reported and counted.
use super::judge::judge_line;
use super::report::{report, summary};
use super::tally::Tally;
use std::test::Fail;

#[test]
fn judges_and_counts(rt: HostRuntime) -> Result<(), Fail> {
    let heap = rt.alloc();
    let mut tally = Tally::new();
    for (line, expected) in [
        (b"parity 1 3 size 4 cost 6".as_slice(), "got cost 6, agrees"),
        (
            b"copies 1 size 17 refused 10 layer 2 item 17 amount 16".as_slice(),
            "got refused 10 layer 2 item 17 amount 16, agrees",
        ),
        (
            b"parity 1 3 size 4 cost 5".as_slice(),
            "got cost 6, differs",
        ),
        (b"parity 1 3 size 4 price 6".as_slice(), "unreadable"),
        (b"mirror 2 size 4 cost 8".as_slice(), "unreadable"),
        (b"copies 300 size 4 cost 8".as_slice(), "unreadable"),
        (
            b"copies 1 size 17 refused 10 layer 5 item 17 amount 16".as_slice(),
            "unreadable",
        ),
        (b"copies 2 size 04 cost 8".as_slice(), "unreadable"),
        (b"copies 2 size 4 cost 8 ".as_slice(), "unreadable"),
        (b" copies 2 size 4 cost 8".as_slice(), "unreadable"),
        (b"copies 2 size 4".as_slice(), "unreadable"),
        (b"\xff\xfe".as_slice(), "unreadable"),
    ] {
        let verdict = judge_line(heap, line)?;
        tally.count(&verdict);
        let text = report(heap, "a line", verdict)?;
        assert_eq!(rt; text.as_str().strip_prefix("a line: "), Some(expected));
    }
    tally.count(&judge_line(heap, b"")?);
    tally.count(&judge_line(heap, b"# a comment")?);
    assert_eq!(rt;
        summary(heap, &tally)?.as_str(),
        "2 agree, 1 differ, 9 unreadable"
    );
    Ok(())
}
