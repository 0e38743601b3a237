// Examples of the tree.
use super::Tree;
use super::fault::TreeFault;

// A folder with a quota of 80, in it two volumes, the second with a reservation of 40.
#[test]
fn worked_tree(rt: HostRuntime) {
    let mut t = Tree::make(96);
    assert_eq!(rt; t.add_folder(0), Ok(1));
    assert_eq!(rt; t.add_volume(1, 4), Ok(2));
    assert_eq!(rt; t.add_volume(1, 4), Ok(3));
    assert_eq!(rt; t.set_quota(1, 80), Ok(0));
    assert_eq!(rt; t.set_reservation(3, 40), Ok(40));
    assert_eq!(rt;
        t.raise(2, 64),
        Err(TreeFault::LimitPassed {
            dataset: 1,
            shortfall: 24,
        })
    );
    assert_eq!(rt; t.charge(1), Ok(40));
}

// A limit is met exactly, and passed by one; fewer units than none are none.
#[test]
fn limit_met(rt: HostRuntime) {
    let mut t = Tree::make(96);
    assert_eq!(rt; t.add_volume(0, 1), Ok(1));
    assert_eq!(rt; t.raise(1, 96), Ok(()));
    assert_eq!(rt;
        t.raise(1, 1),
        Err(TreeFault::LimitPassed {
            dataset: 0,
            shortfall: 1,
        })
    );
    assert_eq!(rt; t.lower(1, 200), Ok(()));
    assert_eq!(rt; t.charge(0), Ok(0));
}

// Use under a reservation adds nothing above it, and a fall is passed on down to the reservation.
#[test]
fn reservation_clips(rt: HostRuntime) {
    let mut t = Tree::make(96);
    assert_eq!(rt; t.add_volume(0, 1), Ok(1));
    assert_eq!(rt; t.set_reservation(1, 40), Ok(40));
    assert_eq!(rt; t.raise(1, 30), Ok(()));
    assert_eq!(rt; t.charge(0), Ok(40));
    assert_eq!(rt; t.raise(1, 20), Ok(()));
    assert_eq!(rt; t.charge(0), Ok(50));
    assert_eq!(rt; t.lower(1, 20), Ok(()));
    assert_eq!(rt; t.charge(0), Ok(40));
}

// As many datasets as there can be, each in the one before.
#[test]
fn chain(rt: HostRuntime) {
    let mut t = Tree::make(96);
    for d in 0..63u8 {
        assert_eq!(rt; t.add_folder(d), Ok(d + 1));
    }
    assert_eq!(rt; t.add_folder(63), Err(TreeFault::Full));
    assert_eq!(rt; t.raise(63, 96), Ok(()));
    assert_eq!(rt; t.charge(0), Ok(96));
    assert_eq!(rt; t.walk(63, 1), Some((0, 1)));
}
