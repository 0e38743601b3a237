// Tests of the marks over a bitmap and a chain.
#![tactic(auto)]

ghost use Rattle.std.specs.Prelude.{◌≡◌, false, length, replicate};

#[cfg(test)]
mod tests {
    use marks::fault::MarksFault;
    use marks::marks::Marks;
    use pool::allocator::Allocator;
    use pool::bitmap::Bitmap;
    use pool::chain::Chain;
    use rules::state::Holder;
    use std::process::Abort;
    use std::test::Fail;

    // how many units a record has, by looking at each
    fn units_of<A: Allocator>(marks: &Marks<A>, volume: u8, number: u8) -> usize {
        let record = Holder::Record { volume, number };
        (0..marks.size())
            .filter(|unit| marks.holder(*unit) == record)
            .count()
    }

    // seven units of nine go to three records; one record is deferred, and given back
    fn round<A: Allocator + Drop>(rt: &impl Abort, pool: A) -> Result<(), Fail>
        requires { A.Allocator.units pool ≡ replicate (length (A.Allocator.units pool)) false }
    {
        let mut marks = Marks::make(pool);
        marks.take(1, 2, 3)?;
        marks.take(1, 3, 2)?;
        marks.take(63, 63, 2)?;
        assert_eq!(rt; units_of(&marks, 1, 2), 3);
        assert_eq!(rt; marks.take(1, 2, 3), Err(MarksFault::AllOut));
        assert_eq!(rt;
            marks.take(64, 0, 1),
            Err(MarksFault::NoSuchRecord {
                volume: 64,
                number: 0,
            })
        );
        assert_eq!(rt;
            marks.take(0, 64, 1),
            Err(MarksFault::NoSuchRecord {
                volume: 0,
                number: 64,
            })
        );
        assert_eq!(rt; marks.defer(1, 2), 3);
        assert_eq!(rt; marks.defer(1, 2), 0);
        assert_eq!(rt; marks.defer(200, 2), 0);
        marks.take(1, 2, 2)?;
        assert_eq!(rt; marks.take(5, 5, 1), Err(MarksFault::AllOut));
        assert_eq!(rt; marks.defer(63, 63), 2);
        assert_eq!(rt; marks.give_back(), 5);
        assert_eq!(rt; marks.give_back(), 0);
        assert_eq!(rt; units_of(&marks, 1, 2), 2);
        assert_eq!(rt; units_of(&marks, 1, 3), 2);
        assert_eq!(rt; units_of(&marks, 63, 63), 0);
        marks.take(5, 5, 5)?;
        assert_eq!(rt; units_of(&marks, 5, 5), 5);
        Ok(())
    }

    // The two differ in the memory that they lend; a trait for it would be longer than they are.
    #[test]
    fn bitmap(rt: HostRuntime) -> Result<(), Fail> {
        let mut memory = [0xaau8; 512];
        Bitmap::check(9, &memory)?;
        round(&rt, Bitmap::make(9, &mut memory))
    }

    #[test]
    fn chain(rt: HostRuntime) -> Result<(), Fail> {
        let mut links = [0xaaaau16; 4096];
        Chain::check(9, &links)?;
        round(&rt, Chain::make(9, &mut links))
    }
}
