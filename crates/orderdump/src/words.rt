// Orders and the end of a script, in words.
use orders::order::{Name, Order};
use reader::fault::ReadFault;
use std::fmt;

/// A name as text in quotes; bytes that are no printable ASCII, quotes and backslashes are escaped.
#[derive(Clone, Copy)]
struct Quoted<'a>(Name<'a>);

impl fmt::Display for Quoted<'_> {
    fn fmt<W: fmt::Write>(&self, f: &mut fmt::Formatter<W>) -> fmt::Result {
        write!(f, "\"")?;
        for byte in self.0.bytes {
            match *byte {
                b'"' => write!(f, "\\\"")?,
                b'\\' => write!(f, "\\\\")?,
                b' '..=b'~' => f.write_char(char::from(*byte))?,
                other => write!(f, "\\x{other:02x}")?,
            }
        }
        write!(f, "\"")
    }
}

/// One line of the list: an order and the place of its first byte.
#[derive(Clone, Copy)]
pub struct Line<'a> {
    pub place: usize,
    pub order: Order<'a>,
}

impl fmt::Display for Line<'_> {
    fn fmt<W: fmt::Write>(&self, f: &mut fmt::Formatter<W>) -> fmt::Result {
        let place = self.place;
        write!(f, "{place:>4}  ")?;
        match self.order {
            Order::Folder { parent, name } => {
                let name = Quoted(name);
                write!(f, "folder: parent {parent}, name {name}")
            }
            Order::Volume {
                parent,
                records,
                name,
            } => {
                let name = Quoted(name);
                write!(f, "volume: parent {parent}, records {records}, name {name}")
            }
            Order::Quota { dataset, units } => {
                write!(f, "quota: dataset {dataset}, units {units}")
            }
            Order::Reserve { dataset, units } => {
                write!(f, "reserve: dataset {dataset}, units {units}")
            }
            Order::Resize { volume, records } => {
                write!(f, "resize: volume {volume}, records {records}")
            }
            Order::Begin {
                transaction,
                volume,
            } => write!(f, "begin: transaction {transaction}, volume {volume}"),
            Order::HoldWrites { transaction, count } => {
                write!(f, "hold writes: transaction {transaction}, count {count}")
            }
            Order::HoldFrees { transaction, count } => {
                write!(f, "hold frees: transaction {transaction}, count {count}")
            }
            Order::Assign { transaction } => write!(f, "assign: transaction {transaction}"),
            Order::Abort { transaction } => write!(f, "abort: transaction {transaction}"),
            Order::Write {
                transaction,
                record,
                size,
            } => write!(
                f,
                "write: transaction {transaction}, record {record}, size {size}"
            ),
            Order::Free {
                transaction,
                record,
            } => write!(f, "free: transaction {transaction}, record {record}"),
            Order::Commit { transaction } => write!(f, "commit: transaction {transaction}"),
            Order::Turn => write!(f, "turn"),
            Order::Tell { dataset } => write!(f, "tell: dataset {dataset}"),
        }
    }
}

/// Where a list of orders ends, and why.
#[derive(Clone, Copy)]
pub enum Stop {
    End { place: usize },
    TooLong,
    UnknownKind { place: usize, kind: u8 },
    CutShort { place: usize },
}

/// The end that a fault of the reader makes.
pub(crate) fn stop_of(script: &[u8], fault: ReadFault) -> Stop {
    match fault {
        ReadFault::UnknownKind { place } => {
            // The place is in the script, but a fault does not say so. A fault with the byte is no plainer: the reader's `ReadFault` and the definition
            // `decode` would both change for one word of a message.
            let kind = script.get(place).copied().unwrap_or(0);
            Stop::UnknownKind { place, kind }
        }
        ReadFault::CutShort { place } => Stop::CutShort { place },
    }
}

impl fmt::Display for Stop {
    fn fmt<W: fmt::Write>(&self, f: &mut fmt::Formatter<W>) -> fmt::Result {
        match *self {
            Stop::End { place } => {
                write!(
                    f,
                    "stopped at place {place} with number 0: the script is at its end"
                )
            }
            Stop::TooLong => write!(
                f,
                "stopped at place 0 with number 1: the script is longer than 4,096 bytes"
            ),
            Stop::UnknownKind { place, kind } => write!(
                f,
                "stopped at place {place} with number 2: the byte {kind:02x} is no kind of order"
            ),
            Stop::CutShort { place } => write!(
                f,
                "stopped at place {place} with number 3: the script ends inside this order"
            ),
        }
    }
}

#[cfg(test)]
mod tests {
    use super::*;
    use std::test::Fail;

    #[test]
    fn a_name_is_escaped(rt: HostRuntime) -> Result<(), Fail> {
        let name = Name {
            bytes: b"a \"\\~\x7f\x00\xff",
            place: 3,
        };
        let line = Line {
            place: 1,
            order: Order::Volume {
                parent: 2,
                records: 64,
                name,
            },
        };
        let text = format!(in rt.alloc(); "{line}")?;
        assert_eq!(rt;
            text.as_str(),
            "   1  volume: parent 2, records 64, name \"a \\\"\\\\~\\x7f\\x00\\xff\""
        );
        Ok(())
    }

    #[test]
    fn an_order_without_fields_is_its_word(rt: HostRuntime) -> Result<(), Fail> {
        let line = Line {
            place: 4095,
            order: Order::Turn,
        };
        let text = format!(in rt.alloc(); "{line}")?;
        assert_eq!(rt; text.as_str(), "4095  turn");
        Ok(())
    }

    #[test]
    fn every_stop_has_its_number_and_ground(rt: HostRuntime) -> Result<(), Fail> {
        let unknown = stop_of(&[0x20, 0x7f], ReadFault::UnknownKind { place: 1 });
        let text = format!(in rt.alloc(); "{unknown}")?;
        assert_eq!(rt;
            text.as_str(),
            "stopped at place 1 with number 2: the byte 7f is no kind of order"
        );
        let cut = stop_of(&[0x20, 0x13], ReadFault::CutShort { place: 1 });
        let text = format!(in rt.alloc(); "{cut}")?;
        assert_eq!(rt;
            text.as_str(),
            "stopped at place 1 with number 3: the script ends inside this order"
        );
        let long = Stop::TooLong;
        let text = format!(in rt.alloc(); "{long}")?;
        assert_eq!(rt;
            text.as_str(),
            "stopped at place 0 with number 1: the script is longer than 4,096 bytes"
        );
        Ok(())
    }
}
