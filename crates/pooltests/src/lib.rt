// What lenders know of their memory, and tests of the allocators.
#![tactic(auto)]

pub mod lender;

#[cfg(test)]
mod tests {
    use super::lender;
    use pool::allocator::{Allocator, AllocatorFault};
    use pool::batch::take_exact;
    use pool::bitmap::Bitmap;
    use pool::chain::Chain;
    use pool::joined::Joined;
    use std::process::Abort;
    use std::test::Fail;

    // takes every unit
    fn fill<A: Allocator>(rt: &impl Abort, pool: &mut A) -> Result<(), Fail> {
        for _ in 0..pool.size() {
            let unit = pool.take()?;
            assert!(rt; pool.is_out(unit));
        }
        assert_eq!(rt; pool.take(), Err(AllocatorFault::AllOut));
        Ok(())
    }

    // gives every second unit back, twice
    fn give_each_second<A: Allocator>(
        rt: &impl Abort,
        pool: &mut A,
        from: u16,
    ) -> Result<(), Fail> {
        for unit in (from..pool.size()).step_by(2) {
            pool.give(unit)?;
            assert_eq!(rt; pool.give(unit), Err(AllocatorFault::NotOut { unit }));
            assert!(rt; !pool.is_out(unit));
        }
        Ok(())
    }

    // fills, empties in another order, and fills again
    fn round<A: Allocator>(rt: &impl Abort, pool: &mut A) -> Result<(), Fail> {
        let size = pool.size();
        assert!(rt; !pool.is_out(size));
        assert_eq!(rt; pool.give(size), Err(AllocatorFault::NotOut { unit: size }));
        assert_eq!(rt; pool.give(0), Err(AllocatorFault::NotOut { unit: 0 }));
        fill(rt, pool)?;
        assert!(rt; !pool.is_out(size));
        give_each_second(rt, pool, 1)?;
        give_each_second(rt, pool, 0)?;
        fill(rt, pool)
    }

    // The three differ in the memory that they lend; a trait for it would be longer than they are.
    fn bitmap_round(rt: &impl Abort, size: usize) -> Result<(), Fail> {
        let mut memory = [0xaau8; 512];
        Bitmap::check(size, &memory)?;
        let mut map = Bitmap::make(size, &mut memory);
        round(rt, &mut map)
    }

    fn chain_round(rt: &impl Abort, size: usize) -> Result<(), Fail> {
        let mut links = [0xaaaau16; 4096];
        Chain::check(size, &links)?;
        let mut chain = Chain::make(size, &mut links);
        round(rt, &mut chain)
    }

    fn pair_round(rt: &impl Abort, first: usize, second: usize) -> Result<(), Fail> {
        let mut memory = [0xaau8; 512];
        let mut links = [0xaaaau16; 4096];
        Bitmap::check(first, &memory)?;
        Chain::check(second, &links)?;
        let map = Bitmap::make(first, &mut memory);
        let chain = Chain::make(second, &mut links);
        Joined::check(&map, &chain)?;
        let mut pair = Joined::make(map, chain);
        round(rt, &mut pair)
    }

    #[test]
    fn bitmaps(rt: HostRuntime) -> Result<(), Fail> {
        for size in [1, 7, 8, 9, 4096] {
            bitmap_round(&rt, size)?;
        }
        Ok(())
    }

    #[test]
    fn chains(rt: HostRuntime) -> Result<(), Fail> {
        for size in [1, 7, 8, 9, 4096] {
            chain_round(&rt, size)?;
        }
        Ok(())
    }

    #[test]
    fn pairs(rt: HostRuntime) -> Result<(), Fail> {
        for (first, second) in [(1, 1), (8, 9), (4095, 1), (1, 4095)] {
            pair_round(&rt, first, second)?;
        }
        Ok(())
    }

    #[test]
    fn faults(rt: HostRuntime) {
        assert_eq!(rt; AllocatorFault::AllOut.number(), 18);
        assert_eq!(rt; AllocatorFault::NotOut { unit: 7 }.number(), 19);
        assert_eq!(rt; AllocatorFault::BadSize.number(), 20);
        let memory = [0u8; 1];
        assert_eq!(rt; Bitmap::check(8, &memory), Ok(()));
        assert_eq!(rt; Bitmap::check(9, &memory), Err(AllocatorFault::BadSize));
        assert_eq!(rt; Bitmap::check(0, &memory), Err(AllocatorFault::BadSize));
        let links = [0u16; 4097];
        assert_eq!(rt; Chain::check(4096, &links), Ok(()));
        assert_eq!(rt; Chain::check(4097, &links), Err(AllocatorFault::BadSize));
    }

    // two that have one unit too many together
    #[test]
    fn too_many(rt: HostRuntime) {
        let mut memory = [0u8; 512];
        let mut links = [0u16; 1];
        let map = Bitmap::make(4096, &mut memory);
        let chain = Chain::make(1, &mut links);
        assert_eq!(rt; Joined::check(&map, &chain), Err(AllocatorFault::BadSize));
    }

    // three units at once, then three more than there are
    fn at_once<A: Allocator>(
        rt: &impl Abort,
        pool: &mut A,
        list: &mut [Option<u16>],
    ) -> Result<(), Fail> {
        let size = usize::from(pool.size());
        assert!(rt; size >= 3 && list.len() >= size);
        take_exact(pool, &mut list[0..3])?;
        for place in &list[0..3] {
            assert!(rt; place.is_some_and(|unit| pool.is_out(unit)));
        }
        assert_eq!(rt;
            take_exact(pool, &mut list[0..size]),
            Err(AllocatorFault::AllOut)
        );
        assert_eq!(rt; list[0], None);
        take_exact(pool, &mut list[0..size - 3])?;
        assert_eq!(rt; pool.take(), Err(AllocatorFault::AllOut));
        Ok(())
    }

    #[test]
    fn lists(rt: HostRuntime) -> Result<(), Fail> {
        let mut list = [Some(0u16); 40];
        let mut bits = [0xffu8; 2];
        let mut links = [0u16; 9];
        at_once(&rt, &mut Bitmap::make(10, &mut bits), &mut list)?;
        at_once(&rt, &mut Chain::make(9, &mut links), &mut list)?;
        let mut pair = Joined::make(Bitmap::make(9, &mut bits), Chain::make(8, &mut links));
        at_once(&rt, &mut pair, &mut list)
    }

    // a pair of pairs, and its two had back
    #[test]
    fn nested(rt: HostRuntime) -> Result<(), Fail> {
        let mut list = [Some(0u16); 40];
        let mut bits = [0xffu8; 2];
        let mut links = [0u16; 9];
        let mut more_bits = [0u8; 1];
        let mut more_links = [0u16; 1];
        let first = Joined::make(Bitmap::make(9, &mut bits), Chain::make(8, &mut links));
        let second = Joined::make(
            Bitmap::make(2, &mut more_bits),
            Chain::make(1, &mut more_links),
        );
        let mut pool = Joined::make(first, second);
        at_once(&rt, &mut pool, &mut list)?;
        let (mut first, mut second) = pool.parts();
        assert_eq!(rt; first.size(), 17);
        assert_eq!(rt; first.give(16), Ok(()));
        assert_eq!(rt; first.give(17), Err(AllocatorFault::NotOut { unit: 17 }));
        assert_eq!(rt; second.size(), 3);
        assert_eq!(rt; second.give(2), Ok(()));
        assert_eq!(rt; second.take(), Ok(2));
        Ok(())
    }

    #[test]
    fn lenders(rt: HostRuntime) {
        let mut memory = [0xffu8; 3];
        assert_eq!(rt; lender::mark_first(9, &mut memory), Ok(0));
        assert_eq!(rt; memory, [0x01, 0xfe, 0xff]);
        let mut list = [Some(0u16); 3];
        assert_eq!(rt; lender::list_bits(9, &mut memory, &mut list), Ok(()));
        assert_eq!(rt; list, [Some(0), Some(1), Some(2)]);
        assert_eq!(rt; memory, [0x07, 0xfe, 0xff]);
        let mut links = [7u16; 4];
        assert_eq!(rt; lender::unlink_first(3, &mut links), Ok(0));
        assert_eq!(rt; links, [u16::MAX, 2, 3, 7]);
    }
}
