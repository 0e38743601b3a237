// Lists the orders of a script that comes on standard input, a line each, and says where and why the
// list ends.
#![tactic(auto)]

mod words;

use reader::reader::Reader;
use std::io::Read;
use words::{Line, Stop};

/// The most bytes that a script may have.
const LONGEST: usize = 4096;

// Prints the orders of a script, and answers how many there are and why there is no further one.
fn list(rt: &HostRuntime, script: &[u8]) -> anyhow::Result<(usize, Stop)> {
    let mut reader = Reader::new(script);
    let mut orders = 0usize;
    'orders: loop {
        let place = reader.place();
        match reader.next_order() {
            Ok(Some(order)) => {
                let line = Line { place, order };
                println!(rt; "{line}")?;
                orders = orders.saturating_add(1);
            }
            Ok(None) => return Ok((orders, Stop::End { place })),
            Err(fault) => return Ok((orders, words::stop_of(script, fault))),
        }
    }
}

fn dump(rt: &HostRuntime) -> anyhow::Result<()> {
    let mut script = Vec::new(rt.alloc());
    // One byte more than a script may have tells that it is too long.
    let _ = rt
        .stdin()
        .take(LONGEST as u64 + 1)
        .read_to_end(&mut script)?;
    let (orders, stop) = if script.len() > LONGEST {
        (0, Stop::TooLong)
    } else {
        list(rt, script.as_slice())?
    };
    println!(rt; "orders read: {orders}; {stop}")?;
    Ok(())
}

fn main(rt: HostRuntime) -> anyhow::Result<()> {
    dump(&rt)
}
