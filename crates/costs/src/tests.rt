// Costs on examples, and the facts of a policy used by code that knows only the trait.
use super::copies::Copies;
use super::estimate::estimate;
use super::fault::CostFault;
use super::parity::Parity;
use super::policy::CostPolicy;
use orders::answer::{Layer, Refusal};

// What is left of the worst cost after a write, under any policy: no difference below 0.
fn spare<P: CostPolicy>(policy: &P, size: u8) -> Result<u16, CostFault> {
    let cost = policy.cost(size)?;
    Ok(policy.worst() - cost)
}

#[test]
fn parity_costs(rt: HostRuntime) {
    let narrow = Parity::make(1, 3);
    assert_eq!(rt; narrow.cost(0), Ok(0));
    assert_eq!(rt; narrow.cost(1), Ok(2));
    assert_eq!(rt; narrow.cost(2), Ok(4));
    assert_eq!(rt; narrow.cost(3), Ok(6));
    assert_eq!(rt; narrow.cost(4), Ok(6));
    assert_eq!(rt; Parity::make(2, 6).cost(16), Ok(24));
    assert_eq!(rt; Parity::make(3, 4).cost(16), Ok(64));
    assert_eq!(rt; Parity::make(2, 6).worst(), 24);
}

#[test]
fn copies_costs(rt: HostRuntime) {
    let two = Copies::make(2);
    assert_eq!(rt; two.cost(5), Ok(10));
    assert_eq!(rt; two.worst(), 32);
    assert_eq!(rt; estimate(&two, 64), 2048);
    assert_eq!(rt; spare(&two, 5), Ok(22));
}

#[test]
fn refusals(rt: HostRuntime) {
    assert_eq!(rt; Copies::make(1).cost(17), Err(CostFault::SizeTooLarge(17)));
    assert_eq!(rt; Copies::check(0), Err(CostFault::FiguresOutOfRange));
    assert_eq!(rt; Copies::check(4), Err(CostFault::FiguresOutOfRange));
    assert_eq!(rt; Parity::check(3, 3), Err(CostFault::FiguresOutOfRange));
    assert_eq!(rt; Parity::check(1, 17), Err(CostFault::FiguresOutOfRange));
    assert_eq!(rt; Parity::check(3, 16), Ok(()));
    let numbers = Refusal {
        number: 10,
        layer: Layer::Transactions,
        item: 17,
        amount: 16,
    };
    assert_eq!(rt; Refusal::from(CostFault::SizeTooLarge(17)), numbers);
}
