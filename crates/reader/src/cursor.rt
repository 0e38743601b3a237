// A place in a script, and the fields of an order read from there on.
ghost use Rattle.std.specs.Prelude.{◌≡◌, ℕ, ◌+◌, ◌-◌, ◌*◌, ◌<◌, ◌≤◌, length, OnOk};
ghost use Rattle.reader.specs.Fields.{ByteAt, BytesAt, fault_at, NameAt, OrderAt, PairAt, UnitsAt};
ghost use Rattle.reader.specs.declared.cursor.Flaw.TheVariants.{UnknownKind as of_no_kind};

use super::fault::ReadFault;
use orders::order::{Name, Order, OrderKind, UnknownKind};

/// Why no order can be read at a place.
#[derive(Clone, Copy, PartialEq, Eq, Debug)]
pub enum Flaw {
    /// The byte there is no kind of order.
    UnknownKind,
    /// The script ends inside the order.
    CutShort,
}

impl Flaw {
    /// The fault of an order that begins at `place`.
    pub fn at(self, place: usize) -> ReadFault
        ensures { result ≡ fault_at self place }
    {
        match self {
            Flaw::UnknownKind => ReadFault::UnknownKind { place },
            Flaw::CutShort => ReadFault::CutShort { place },
        }
    }
}

impl From<UnknownKind> for Flaw {
    ghost from_gives = { λ _ flaw. flaw ≡ of_no_kind };

    fn from(_kind: UnknownKind) -> Flaw {
        Flaw::UnknownKind
    }
}

/// A script, and a place in it.
#[derive(Drop)]
pub struct Cursor<'a> {
    pub script: &'a [u8],
    pub place: usize,
}

impl<'a> Cursor<'a> {
    // The next `N` bytes.
    fn bytes<const N: usize>(&mut self) -> Result<&'a [u8; N], Flaw>
        ensures { BytesAt N self.old self.new result }
    {
        let rest = self.script.get(self.place..).ok_or(Flaw::CutShort)?;
        let bytes = rest.first_chunk::<N>().ok_or(Flaw::CutShort)?;
        self.place += N;
        Ok(bytes)
    }

    fn byte(&mut self) -> Result<u8, Flaw>
        ensures { ByteAt self.old self.new result }
    {
        let [byte] = *self.bytes::<1>()?;
        Ok(byte)
    }

    // Two fields of one byte each.
    fn pair(&mut self) -> Result<(u8, u8), Flaw>
        ensures { PairAt self.old self.new result }
    {
        let [first, second] = *self.bytes::<2>()?;
        Ok((first, second))
    }

    // A number of two bytes, the high one first.
    fn units(&mut self) -> Result<u16, Flaw>
        ensures { UnitsAt self.old self.new result }
    {
        let bytes = self.bytes()?;
        Ok(u16::from_be_bytes(*bytes))
    }

    fn name(&mut self) -> Result<Name<'a>, Flaw>
        ensures { NameAt self.old self.new result }
    {
        let place = self.place;
        let bytes = self.bytes()?;
        Ok(Name { bytes, place })
    }

    /// Reads the order that begins at the place: its kind and its body. At a flaw the place is left
    /// inside the order.
    pub fn order(&mut self) -> Result<Order<'a>, Flaw>
        requires { self.old.place < length self.old.script.now }
        ensures same { self.new.script ≡ self.old.script }
        ensures value { OrderAt self.old.script.now self.old.place self.new.place result }
        ensures forward { OnOk result ((self.old.place < self.new.place) × (self.new.place ≤ length self.old.script.now)) }
    {
        match OrderKind::try_from(self.byte()?)? {
            OrderKind::Folder => {
                let parent = self.byte()?;
                let name = self.name()?;
                Ok(Order::Folder { parent, name })
            }
            OrderKind::Volume => {
                let (parent, records) = self.pair()?;
                let name = self.name()?;
                Ok(Order::Volume {
                    parent,
                    records,
                    name,
                })
            }
            OrderKind::Quota => {
                let dataset = self.byte()?;
                let units = self.units()?;
                Ok(Order::Quota { dataset, units })
            }
            OrderKind::Reserve => {
                let dataset = self.byte()?;
                let units = self.units()?;
                Ok(Order::Reserve { dataset, units })
            }
            OrderKind::Resize => {
                let (volume, records) = self.pair()?;
                Ok(Order::Resize { volume, records })
            }
            OrderKind::Begin => {
                let (transaction, volume) = self.pair()?;
                Ok(Order::Begin {
                    transaction,
                    volume,
                })
            }
            OrderKind::HoldWrites => {
                let (transaction, count) = self.pair()?;
                Ok(Order::HoldWrites { transaction, count })
            }
            OrderKind::HoldFrees => {
                let (transaction, count) = self.pair()?;
                Ok(Order::HoldFrees { transaction, count })
            }
            OrderKind::Assign => {
                let transaction = self.byte()?;
                Ok(Order::Assign { transaction })
            }
            OrderKind::Abort => {
                let transaction = self.byte()?;
                Ok(Order::Abort { transaction })
            }
            OrderKind::Write => {
                let (transaction, record) = self.pair()?;
                let size = self.byte()?;
                Ok(Order::Write {
                    transaction,
                    record,
                    size,
                })
            }
            OrderKind::Free => {
                let (transaction, record) = self.pair()?;
                Ok(Order::Free {
                    transaction,
                    record,
                })
            }
            OrderKind::Commit => {
                let transaction = self.byte()?;
                Ok(Order::Commit { transaction })
            }
            OrderKind::Turn => Ok(Order::Turn),
            OrderKind::Tell => {
                let dataset = self.byte()?;
                Ok(Order::Tell { dataset })
            }
        }
    }
}
