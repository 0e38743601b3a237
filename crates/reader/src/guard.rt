// A place that is put back unless what was begun there is completed.
ghost use Rattle.std.specs.Prelude.{◌≡◌};
ghost use Rattle.std.specs.Option.{unwrap_or};

use super::cursor::Cursor;

/// Holds the cursor while an order is read. When it falls, the place goes back to the order's first
/// byte, unless the order was completed.
pub struct Guard<'c, 'a> {
    pub cursor: &'c mut Cursor<'a>,
    /// Where the place goes back to: none once the order is completed.
    pub back: Option<usize>,
}

impl Drop for Guard<'_, '_> {
    fn drop(self)
        ensures same { self.exit.0.now.script ≡ self.entry.cursor.now.script }
        ensures place { self.exit.0.now.place ≡ unwrap_or self.entry.back self.entry.cursor.now.place }
    {
        if let Some(start) = self.back {
            self.cursor.place = start;
        }
        let Guard { cursor: _, back: _ } = self;
    }
}
