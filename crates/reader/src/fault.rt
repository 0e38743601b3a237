// Why a script cannot be read on.
ghost use Rattle.std.specs.Prelude.{◌≡◌};
ghost use Rattle.reader.specs.Decode.{number_and_place};

/// Why no order can be read where one should begin, with the place of its first byte.
#[derive(Clone, Copy, PartialEq, Eq, Debug)]
pub enum ReadFault {
    /// The byte at the place is no kind of order.
    UnknownKind { place: usize },
    /// The script ends inside the order.
    CutShort { place: usize },
}

impl ReadFault {
    /// The number of the fault, by which a run says why it stopped.
    pub fn number(self) -> u8
        ensures { result ≡ (number_and_place self).0 }
    {
        match self {
            ReadFault::UnknownKind { .. } => 2,
            ReadFault::CutShort { .. } => 3,
        }
    }

    /// The place of the first byte of the order that cannot be read.
    pub fn place(self) -> usize
        ensures { result ≡ (number_and_place self).1 }
    {
        match self {
            ReadFault::UnknownKind { place } | ReadFault::CutShort { place } => place,
        }
    }
}
