// Every answer's bytes, what is around them, and too little room.
use orders::answer::{Answer, Figures, Layer, NoSuchLayer, Refusal};
use orders::encode::NoRoom;
use std::process::Abort;

const UNTOUCHED: u8 = 0xee;

// Writes an answer at place 2 of a buffer, where it must leave the bytes that are expected; then
// again with one byte too few, where it must leave everything.
fn expect(rt: &impl Abort, answer: Answer, bytes: &[u8]) {
    let needed = bytes.len();
    assert_eq!(rt; answer.byte_len(), needed);
    let mut out = [UNTOUCHED; 24];
    assert_eq!(rt; answer.write_to(&mut out, 2), Ok(needed));
    let mut expected = [UNTOUCHED; 24];
    assert!(rt; needed <= 22);
    expected[2..2 + needed].copy_from_slice(bytes);
    assert_eq!(rt; out, expected);
    let mut small = [UNTOUCHED; 24];
    let at = 25usize.saturating_sub(needed);
    assert_eq!(rt; answer.write_to(&mut small, at), Err(NoRoom { needed }));
    assert_eq!(rt; small, [UNTOUCHED; 24]);
}

#[test]
fn every_answer_has_its_bytes(rt: HostRuntime) {
    expect(&rt, Answer::Done { value: 0x1234 }, &[0x80, 0x12, 0x34]);
    expect(
        &rt,
        Answer::Refused(Refusal {
            number: 17,
            layer: Layer::Tree,
            item: 1,
            amount: 0x0118,
        }),
        &[0x81, 17, 3, 1, 0x01, 0x18],
    );
    expect(
        &rt,
        Answer::Told(Figures {
            name: *b"POOL----",
            charge: 0x0102,
            record_units: 0x0304,
            deferred_units: 0x0506,
            unspent_grants: 0x0708,
        }),
        b"\x82POOL----\x01\x02\x03\x04\x05\x06\x07\x08",
    );
    expect(
        &rt,
        Answer::Stopped {
            number: 3,
            place: 0x1000,
        },
        &[0x83, 3, 0x10, 0x00],
    );
}

#[test]
fn every_layer_has_its_number(rt: HostRuntime) {
    for (layer, number) in [
        (Layer::Script, 1),
        (Layer::Transactions, 2),
        (Layer::Tree, 3),
        (Layer::Allocator, 4),
    ] {
        assert_eq!(rt; u8::from(layer), number);
        assert_eq!(rt; Layer::try_from(number), Ok(layer));
    }
    assert_eq!(rt; Layer::try_from(0), Err(NoSuchLayer(0)));
    assert_eq!(rt; Layer::try_from(5), Err(NoSuchLayer(5)));
}

#[test]
fn a_place_past_the_end_is_no_room(rt: HostRuntime) {
    let mut out = [UNTOUCHED; 4];
    let answer = Answer::Done { value: 1 };
    assert!(rt; answer.write_to(&mut out, usize::MAX).is_err());
    assert!(rt; answer.write_to(&mut out, 1).is_ok());
    assert!(rt; answer.write_to(&mut out, 2).is_err());
}
