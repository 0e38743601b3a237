// The plain data of a ledger. Nothing here is kept twice.

/// What a dataset is: a folder has datasets in it, a volume records.
#[derive(Clone, Copy, PartialEq, Eq, Debug, Default)]
pub enum Kind {
    #[default]
    Folder,
    Volume,
}

/// What a dataset holds, apart from its place in the tree. A folder has no records, and no units.
#[derive(Clone, Copy, PartialEq, Eq, Debug)]
pub struct Contents {
    pub name: [u8; 8],
    /// The number of records, 1 to 64 for a volume.
    pub records: u8,
    /// The units of each record.
    // 64 places whatever the number of records: a list of that length is no plainer, since this is plain data to be copied, and the rules' contents have 64.
    pub units: [u16; 64],
    /// The units that the records lost since the last turn.
    pub deferred: u16,
}

/// One of the 32 transactions.
#[derive(Clone, Copy, PartialEq, Eq, Debug)]
pub enum Transaction {
    Idle,
    Created { volume: u8 },
    /// With the writes and the frees that are held.
    Held { volume: u8, writes: u8, frees: u8 },
    /// With the writes and the frees that are left: those held less those spent.
    Assigned { volume: u8, writes: u8, frees: u8 },
}

/// Who has a unit.
#[derive(Clone, Copy, PartialEq, Eq, Debug)]
pub enum Holder {
    /// The unit is in.
    Nobody,
    /// A record of a volume.
    Record { volume: u8, number: u8 },
    /// The volume whose record had the unit and lost it since the last turn.
    Deferred { volume: u8 },
}
