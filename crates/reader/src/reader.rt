// The reader of a script.
ghost use Rattle.std.specs.Prelude.{◌≡◌};
ghost use Rattle.reader.specs.Decode.{Onward, place_of, ReadOne, script_of};

use super::cursor::Cursor;
use super::fault::ReadFault;
use super::guard::Guard;
use orders::order::Order;

/// Stands over the bytes of a script, and keeps one place in them.
#[derive(Drop)]
pub struct Reader<'a> {
    cursor: Cursor<'a>,
}

impl<'a> Reader<'a> {
    /// A reader at the script's first byte.
    pub fn new(script: &'a [u8]) -> Self
        ensures bytes { script_of result ≡ script.now }
        ensures start { place_of result ≡ 0 }
    {
        Reader {
            cursor: Cursor { script, place: 0 },
        }
    }

    /// Where the next order begins.
    pub fn place(&self) -> usize
        ensures { result ≡ place_of self.now }
    {
        self.cursor.place
    }

    /// Reads the next order and goes behind it, or answers that there is none left, or why it cannot
    /// be read; the place then stays at the order's first byte.
    pub fn next_order(&mut self) -> Result<Option<Order<'a>>, ReadFault>
        ensures same { script_of self.new ≡ script_of self.old }
        ensures value { ReadOne (script_of self.old) (place_of self.old) (place_of self.new) result }
        ensures forward { Onward (script_of self.old) (place_of self.old) (place_of self.new) result }
    {
        let start = self.place();
        if start >= self.cursor.script.len() {
            return Ok(None);
        }
        let mut guard = Guard {
            cursor: &mut self.cursor,
            back: Some(start),
        };
        let order = guard.cursor.order().map_err(|flaw| flaw.at(start))?;
        guard.back = None;
        Ok(Some(order))
    }
}
