// Orders read from scripts, whole, cut and of kinds that there are not.
use orders::order::{Name, Order, OrderKind, UnknownKind};
use reader::fault::ReadFault;
use reader::reader::Reader;
use std::alloc::{AllocError, Global};
use std::process::Abort;
use std::test::Fail;

// The number of bytes behind a kind byte, by the order table: by bytes and not by `OrderKind`, so that the test does not stand on
// what it tests.
fn body_len(kind: u8) -> Option<usize> {
    match kind {
        0x01 => Some(9),
        0x02 => Some(10),
        0x03 | 0x04 | 0x15 => Some(3),
        0x05 | 0x10 | 0x11 | 0x12 | 0x16 => Some(2),
        0x13 | 0x14 | 0x17 | 0x21 => Some(1),
        0x20 => Some(0),
        _ => None,
    }
}

// The bytes of an order up to its name, written out again field by field.
fn head(heap: Global, order: Order<'_>) -> Result<Vec<u8>, AllocError> {
    match order {
        Order::Folder { parent, .. } => [0x01, parent].to_vec(heap),
        Order::Volume {
            parent,
            records,
            ..
        } => [0x02, parent, records].to_vec(heap),
        Order::Quota { dataset, units } => {
            let [high, low] = units.to_be_bytes();
            [0x03, dataset, high, low].to_vec(heap)
        }
        Order::Reserve { dataset, units } => {
            let [high, low] = units.to_be_bytes();
            [0x04, dataset, high, low].to_vec(heap)
        }
        Order::Resize { volume, records } => [0x05, volume, records].to_vec(heap),
        Order::Begin {
            transaction,
            volume,
        } => [0x10, transaction, volume].to_vec(heap),
        Order::HoldWrites { transaction, count } => [0x11, transaction, count].to_vec(heap),
        Order::HoldFrees { transaction, count } => [0x12, transaction, count].to_vec(heap),
        Order::Assign { transaction } => [0x13, transaction].to_vec(heap),
        Order::Abort { transaction } => [0x14, transaction].to_vec(heap),
        Order::Write {
            transaction,
            record,
            size,
        } => { [0x15, transaction, record, size].to_vec(heap) }
        Order::Free {
            transaction,
            record,
        } => [0x16, transaction, record].to_vec(heap),
        Order::Commit { transaction } => [0x17, transaction].to_vec(heap),
        Order::Turn => [0x20].to_vec(heap),
        Order::Tell { dataset } => [0x21, dataset].to_vec(heap),
    }
}

// The bytes of an order, written out again, its name too.
fn bytes_of(heap: Global, order: Order<'_>) -> Result<Vec<u8>, AllocError> {
    let mut bytes = head(heap, order)?;
    if let Order::Folder { name, .. } | Order::Volume { name, .. } = order {
        let letters = name.bytes;
        bytes.extend_from_slice(letters)?;
    }
    Ok(bytes)
}

// Reads one order, which must be all of the script and have its bytes.
fn expect_whole(rt: &impl Abort, heap: Global, script: &[u8]) -> Result<(), Fail> {
    let mut reader = Reader::new(script);
    let Ok(Some(order)) = reader.next_order() else {
        return Err(Fail::new("no order"));
    };
    let again = bytes_of(heap, order)?;
    assert_eq!(rt; again.as_slice(), script);
    assert_eq!(rt; reader.place(), script.len());
    assert_eq!(rt; reader.next_order(), Ok(None));
    assert_eq!(rt; reader.place(), script.len());
    Ok(())
}

// Reads a script that ends inside its only order; the place must stay.
fn expect_cut(rt: &impl Abort, script: &[u8]) {
    let mut reader = Reader::new(script);
    assert_eq!(rt; reader.next_order(), Err(ReadFault::CutShort { place: 0 }));
    assert_eq!(rt; reader.place(), 0);
}

// Reads a script that cannot be read on; the fault has its number, and the place stays at the order's first byte.
fn expect_fault(
    rt: &impl Abort,
    reader: &mut Reader<'_>,
    number: u8,
    place: usize,
) -> Result<(), Fail> {
    let Err(fault) = reader.next_order() else {
        return Err(Fail::new("no fault"));
    };
    assert_eq!(rt; fault.number(), number);
    assert_eq!(rt; fault.place(), place);
    assert_eq!(rt; reader.place(), place);
    Ok(())
}

// Reads a script whose first byte is no kind; the place must stay.
fn expect_unknown(rt: &impl Abort, script: &[u8]) -> Result<(), Fail> {
    expect_fault(rt, &mut Reader::new(script), 2, 0)
}

#[test]
fn every_kind_byte_whole_and_cut_at_every_length(rt: HostRuntime) -> Result<(), Fail> {
    let heap = rt.alloc();
    for kind in 0..=255u8 {
        let script = [kind, 201, 2, 0xfe, 4, 5, 6, 7, 8, 9, 10];
        match body_len(kind) {
            None => {
                expect_unknown(&rt, &script)?;
                expect_unknown(&rt, &script[..1])?;
                assert_eq!(rt; OrderKind::try_from(kind), Err(UnknownKind(kind)));
            }
            Some(n) => {
                assert!(rt; n < 11);
                expect_whole(&rt, heap, &script[..=n])?;
                for cut in 1..=n {
                    expect_cut(&rt, &script[..cut]);
                }
                assert_eq!(rt; OrderKind::try_from(kind).map(u8::from), Ok(kind));
            }
        }
    }
    Ok(())
}

const WORKED_RUN: &[u8; 50] = b"\x01\x00COUNTER1\x02\x01\x04PHOTOS--\x02\x01\x04SLIPS---\
\x03\x01\x00\x50\x04\x03\x00\x28\x10\x00\x02\x11\x00\x02\x13\x00\x14\x00";

#[test]
fn the_worked_run_has_nine_orders(rt: HostRuntime) -> Result<(), Fail> {
    let mut reader = Reader::new(WORKED_RUN);
    let mut again = Vec::new(rt.alloc());
    for place in [0usize, 10, 21, 32, 36, 40, 43, 46, 48] {
        assert_eq!(rt; reader.place(), place);
        let Ok(Some(order)) = reader.next_order() else {
            return Err(Fail::new("no order"));
        };
        let bytes = bytes_of(rt.alloc(), order)?;
        again.extend_from_slice(bytes.as_slice())?;
    }
    assert_eq!(rt; again.as_slice(), WORKED_RUN.as_slice());
    assert_eq!(rt; reader.next_order(), Ok(None));
    assert_eq!(rt; reader.place(), 50);
    Ok(())
}

#[test]
fn a_name_is_a_part_of_the_script(rt: HostRuntime) {
    let mut reader = Reader::new(WORKED_RUN);
    let _ = reader.next_order();
    let name = Name {
        bytes: b"PHOTOS--",
        place: 13,
    };
    let volume = Order::Volume {
        parent: 1,
        records: 4,
        name,
    };
    assert_eq!(rt; reader.next_order(), Ok(Some(volume)));
}

#[test]
fn units_have_their_high_byte_first(rt: HostRuntime) {
    let mut reader = Reader::new(b"\x04\x07\x12\x34");
    let reserve = Order::Reserve {
        dataset: 7,
        units: 0x1234,
    };
    assert_eq!(rt; reader.next_order(), Ok(Some(reserve)));
}

#[test]
fn a_flaw_behind_good_orders_is_named_by_its_place(rt: HostRuntime) -> Result<(), Fail> {
    let mut reader = Reader::new(b"\x20\x13\x05\x15\x01");
    let _ = reader.next_order();
    let _ = reader.next_order();
    expect_fault(&rt, &mut reader, 3, 3)
}
