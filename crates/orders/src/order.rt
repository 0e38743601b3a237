// Orders, as read from a script. A folder or volume order borrows its name from the script.
ghost use Rattle.std.specs.Prelude.{◌≡◌};
ghost use Rattle.orders.specs.Codes.{kind_byte, KindOf};

/// The kinds of orders. A kind's number is the first byte of its orders.
#[derive(Clone, Copy, PartialEq, Eq, Debug)]
pub enum OrderKind {
    Folder = 0x01,
    Volume = 0x02,
    Quota = 0x03,
    Reserve = 0x04,
    Resize = 0x05,
    Begin = 0x10,
    HoldWrites = 0x11,
    HoldFrees = 0x12,
    Assign = 0x13,
    Abort = 0x14,
    Write = 0x15,
    Free = 0x16,
    Commit = 0x17,
    Turn = 0x20,
    Tell = 0x21,
}

/// The kind's first byte.
impl From<OrderKind> for u8 {
    ghost from_gives = { λ kind byte. byte ≡ kind_byte kind };

    fn from(kind: OrderKind) -> u8 {
        kind as u8
    }
}

/// A byte that begins no order.
#[derive(Clone, Copy, PartialEq, Eq, Debug)]
pub struct UnknownKind(pub u8);

impl TryFrom<u8> for OrderKind {
    type Error = UnknownKind;

    ghost try_from_gives = { KindOf };

    fn try_from(byte: u8) -> Result<OrderKind, UnknownKind> {
        match byte {
            0x01 => Ok(OrderKind::Folder),
            0x02 => Ok(OrderKind::Volume),
            0x03 => Ok(OrderKind::Quota),
            0x04 => Ok(OrderKind::Reserve),
            0x05 => Ok(OrderKind::Resize),
            0x10 => Ok(OrderKind::Begin),
            0x11 => Ok(OrderKind::HoldWrites),
            0x12 => Ok(OrderKind::HoldFrees),
            0x13 => Ok(OrderKind::Assign),
            0x14 => Ok(OrderKind::Abort),
            0x15 => Ok(OrderKind::Write),
            0x16 => Ok(OrderKind::Free),
            0x17 => Ok(OrderKind::Commit),
            0x20 => Ok(OrderKind::Turn),
            0x21 => Ok(OrderKind::Tell),
            _ => Err(UnknownKind(byte)),
        }
    }
}

/// The name of a dataset: eight bytes of a script, and the place of the first one in it.
/// Any bytes will do, and no ledger compares names.
#[derive(Clone, Copy, PartialEq, Eq, Debug)]
pub struct Name<'a> {
    pub bytes: &'a [u8; 8],
    pub place: usize,
}

/// One order to a ledger. Datasets, records and transactions are meant by their numbers.
#[derive(Clone, Copy, PartialEq, Eq, Debug)]
pub enum Order<'a> {
    /// Makes a folder under a folder.
    Folder {
        parent: u8,
        name: Name<'a>,
    },
    /// Makes a volume of empty records under a folder.
    Volume {
        parent: u8,
        records: u8,
        name: Name<'a>,
    },
    /// Sets the most units that a dataset may be charged, 0 for no limit.
    Quota {
        dataset: u8,
        units: u16,
    },
    /// Sets the units that a dataset is sure of.
    Reserve {
        dataset: u8,
        units: u16,
    },
    /// Sets the number of a volume's records.
    Resize {
        volume: u8,
        records: u8,
    },
    /// Opens a transaction on a volume.
    Begin {
        transaction: u8,
        volume: u8,
    },
    /// Announces writes.
    HoldWrites {
        transaction: u8,
        count: u8,
    },
    /// Announces frees.
    HoldFrees {
        transaction: u8,
        count: u8,
    },
    /// Asks for the units that the announced writes may need.
    Assign {
        transaction: u8,
    },
    /// Drops a transaction that is not assigned.
    Abort {
        transaction: u8,
    },
    /// Writes a record of so many sectors.
    Write {
        transaction: u8,
        record: u8,
        size: u8,
    },
    /// Empties a record.
    Free {
        transaction: u8,
        record: u8,
    },
    /// Ends an assigned transaction.
    Commit {
        transaction: u8,
    },
    /// Gives the deferred units back to the allocator.
    Turn,
    /// Asks for a dataset's figures.
    Tell {
        dataset: u8,
    },
}
