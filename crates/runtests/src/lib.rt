// Tests of serving a list of orders and of running a script.
#![tactic(auto)]

#[cfg(test)]
mod tests {
    use costs::copies::Copies;
    use costs::fault::CostFault;
    use costs::policy::CostPolicy;
    use ledger::fault::{MakeFault, ServeFault};
    use ledger::serve::serve;
    use orders::answer::{Answer, Figures, Layer, Refusal};
    use orders::order::{Name, Order};
    use pool::allocator::{Allocator, AllocatorFault};
    use pool::bitmap::Bitmap;
    use runner::ended::Ended;
    use runner::fault::ScriptFault;
    use setup::calls::{run_on_bitmap, run_on_chain, run_on_joined, run_on_nested};
    use setup::fault::SetupFault;
    use setup::scheme::Scheme;
    use std::test::Fail;

    // Serves the orders over any allocator; which of the first eight units are out then.
    fn units_out<A: Allocator + Drop, P: CostPolicy + Drop>(
        pool: A,
        policy: P,
        orders: &[Order<'_>],
        answers: &mut [Answer],
    ) -> Result<[bool; 8], ServeFault> {
        let ledger = serve(pool, policy, 4, orders, answers).map_err(|unserved| unserved.fault)?;
        let (pool, _) = ledger.close();
        Ok([0, 1, 2, 3, 4, 5, 6, 7].map(|unit| pool.is_out(unit)))
    }

    // A volume of two records, one written, one order refused, and the figures told; five units are out then.
    #[test]
    fn orders_served(rt: HostRuntime) -> Result<(), Fail> {
        let mut memory = [0u8; 13];
        let pool = Bitmap::make(100, &mut memory);
        let name = Name {
            bytes: &[0; 8],
            place: 0,
        };
        let orders = [
            Order::Volume {
                parent: 0,
                records: 2,
                name,
            },
            Order::Begin {
                transaction: 0,
                volume: 1,
            },
            Order::HoldWrites {
                transaction: 0,
                count: 1,
            },
            Order::Assign { transaction: 0 },
            Order::Write {
                transaction: 0,
                record: 1,
                size: 5,
            },
            Order::Write {
                transaction: 0,
                record: 1,
                size: 5,
            },
            Order::Tell { dataset: 1 },
        ];
        let mut answers = [Answer::Done { value: 7 }; 8];
        let out = units_out(pool, Copies::make(1), &orders, &mut answers)?;
        assert_eq!(rt; out, [true, true, true, true, true, false, false, false]);
        assert_eq!(rt;
            answers,
            [
                Answer::Done { value: 1 },
                Answer::Done { value: 16 },
                Answer::Done { value: 16 },
                Answer::Done { value: 16 },
                Answer::Done { value: 5 },
                Answer::Refused(Refusal {
                    number: 8,
                    layer: Layer::Transactions,
                    item: 0,
                    amount: 0,
                }),
                Answer::Told(Figures {
                    name: [0; 8],
                    charge: 5,
                    record_units: 5,
                    deferred_units: 0,
                    unspent_grants: 0,
                }),
                Answer::Done { value: 7 },
            ]
        );
        Ok(())
    }

    // Too few places: nothing is served.
    #[test]
    fn too_few_places(rt: HostRuntime) {
        let mut memory = [0u8; 13];
        let pool = Bitmap::make(100, &mut memory);
        let mut answers = [Answer::Done { value: 7 }; 1];
        let orders = [Order::Turn, Order::Turn];
        let out = units_out(pool, Copies::make(1), &orders, &mut answers);
        assert_eq!(rt; out, Err(ServeFault::FewPlaces));
        assert_eq!(rt; answers[0], Answer::Done { value: 7 });
    }

    // Runs two tells of the root with so many answer bytes.
    fn tell_twice(answers: &mut [u8]) -> Result<Ended, SetupFault> {
        let mut memory = [0u8; 1];
        run_on_bitmap(
            &mut memory,
            8,
            0,
            Scheme::Copies { n: 1 },
            &[0x21, 0, 0x21, 0],
            answers,
        )
    }

    // Seventeen bytes left are enough for an order, sixteen are not; the bytes past the answers are kept.
    #[test]
    fn room_for_an_answer(rt: HostRuntime) -> Result<(), Fail> {
        let mut enough = [9u8; 34];
        let ended = tell_twice(&mut enough)?;
        assert_eq!(rt;
            ended,
            Ended {
                stop: Ok(4),
                answered: 2,
                written: 34,
            }
        );
        assert_eq!(rt; (ended.number(), ended.place()), (0, 4));
        let mut short = [9u8; 33];
        let ended = tell_twice(&mut short)?;
        assert_eq!(rt;
            ended,
            Ended {
                stop: Err(ScriptFault::NoRoom { place: 2 }),
                answered: 1,
                written: 17,
            }
        );
        assert_eq!(rt; (ended.number(), ended.place()), (4, 2));
        assert_eq!(rt; short[16], 0);
        assert_eq!(rt; short[17], 9);
        let mut none = [9u8; 16];
        let ended = tell_twice(&mut none)?;
        assert_eq!(rt;
            ended,
            Ended {
                stop: Err(ScriptFault::NoRoom { place: 0 }),
                answered: 0,
                written: 0,
            }
        );
        assert_eq!(rt; (ended.number(), ended.place()), (4, 0));
        assert_eq!(rt; none[0], 9);
        Ok(())
    }

    // Why a run over four parts of so many units is refused, and by what number, with so many units kept back and three parity
    // sectors over three disks.
    fn nested_refusal(units: [usize; 4], slop: u16) -> Option<(SetupFault, u8)> {
        let mut bits = [0u8; 1];
        let mut links = [0u16; 8];
        let mut more_bits = [0u8; 1];
        let mut more_links = [0u16; 8];
        let mut answers = [0u8; 0];
        let res = run_on_nested(
            &mut bits,
            &mut links,
            &mut more_bits,
            &mut more_links,
            units,
            slop,
            Scheme::Parity { p: 3, w: 3 },
            &[],
            &mut answers,
        );
        res.err().map(|fault| (fault, fault.number()))
    }

    // Of several bad figures the lowest number is answered: nine entries in the room of eight, then all units kept back, then the
    // parity sectors.
    #[test]
    fn lowest_number(rt: HostRuntime) {
        assert_eq!(rt;
            nested_refusal([8, 8, 8, 9], 99),
            Some((SetupFault::Pool(AllocatorFault::BadSize), 20))
        );
        assert_eq!(rt;
            nested_refusal([8, 8, 8, 8], 32),
            Some((SetupFault::Ledger(MakeFault::SlopTooLarge), 21))
        );
        assert_eq!(rt;
            nested_refusal([8, 8, 8, 8], 31),
            Some((SetupFault::Policy(CostFault::FiguresOutOfRange), 23))
        );
    }

    // A volume of two records, one write held and assigned, and five sectors written to record 1.
    const ONE_WRITE: &[u8; 23] =
        b"\x02\x00\x02ONEWRITE\x10\x00\x01\x11\x00\x01\x13\x00\x15\x00\x01\x05";

    // The units of a run are those of the bitmap that was lent: the lowest five are out, and bits past the units are kept.
    #[test]
    fn bitmap_after_a_run(rt: HostRuntime) -> Result<(), Fail> {
        let mut memory = [0xaau8; 14];
        let mut answers = [0u8; 36];
        let ended = run_on_bitmap(
            &mut memory,
            100,
            4,
            Scheme::Copies { n: 1 },
            ONE_WRITE,
            &mut answers,
        )?;
        assert_eq!(rt; ended.answered, 5);
        assert_eq!(rt; memory, [0x1f, 0, 0, 0, 0, 0, 0, 0, 0, 0, 0, 0, 0xa0, 0xaa]);
        Ok(())
    }

    // The same of a chain: its first five entries are out, the next leads on, and entries past the units are kept.
    #[test]
    fn chain_after_a_run(rt: HostRuntime) -> Result<(), Fail> {
        let mut links = [7u16; 22];
        let mut answers = [0u8; 36];
        let ended = run_on_chain(
            &mut links,
            20,
            4,
            Scheme::Copies { n: 1 },
            ONE_WRITE,
            &mut answers,
        )?;
        assert_eq!(rt; ended.answered, 5);
        assert_eq!(rt;
            links,
            [
                65535, 65535, 65535, 65535, 65535, 6, 7, 8, 9, 10, 11, 12, 13, 14, 15, 16, 17, 18,
                19, 20, 7, 7
            ]
        );
        Ok(())
    }

    // The same of a pair: its first part is out, and one unit of its second.
    #[test]
    fn pair_after_a_run(rt: HostRuntime) -> Result<(), Fail> {
        let mut memory = [0xaau8; 2];
        let mut links = [7u16; 18];
        let mut answers = [0u8; 36];
        let ended = run_on_joined(
            &mut memory,
            &mut links,
            [4, 16],
            4,
            Scheme::Copies { n: 1 },
            ONE_WRITE,
            &mut answers,
        )?;
        assert_eq!(rt; ended.answered, 5);
        assert_eq!(rt; memory, [0xaf, 0xaa]);
        assert_eq!(rt;
            links,
            [
                65535, 2, 3, 4, 5, 6, 7, 8, 9, 10, 11, 12, 13, 14, 15, 16, 7, 7
            ]
        );
        Ok(())
    }
}
