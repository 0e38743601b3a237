// Runs the code on each line of a table of figures, read from standard input, and prints what came of it.
#![tactic(auto)]

use figure_table::judge::judge_line;
use figure_table::report::{report, summary};
use figure_table::tally::Tally;
use std::io;
use std::io::{BufRead, BufReader};

fn main(rt: HostRuntime) -> io::Result<()> {
    let heap = rt.alloc();
    let mut tally = Tally::new();
    for line in BufReader::new(heap, rt.stdin())?.split(heap, b'\n') {
        let line = line?;
        let verdict = judge_line(heap, line.as_slice())?;
        tally.count(&verdict);
        let text = String::from_utf8_lossy(heap, line.as_slice())?;
        rt.println(report(heap, text.as_str(), verdict)?)?;
    }
    rt.println(summary(heap, &tally)?)
}
