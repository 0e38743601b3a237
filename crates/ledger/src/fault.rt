// Why a ledger is not made, or orders are not served.
ghost use Rattle.std.specs.Prelude.{◌≡◌};
ghost use Rattle.ledger.specs.Faults.{ground};
ghost use Rattle.ledger.specs.declared.fault.ServeFault.TheVariants.{NotMade};

/// Why an allocator and a slop make no ledger.
#[derive(Clone, Copy, PartialEq, Eq, Debug)]
pub enum MakeFault {
    /// The slop is not below the pool's size.
    SlopTooLarge,
    /// The allocator has a unit out.
    UnitOut,
}

impl MakeFault {
    /// The number of the refusal.
    pub fn number(self) -> u8
        ensures { result ≡ (ground self).0 }
    {
        match self {
            MakeFault::SlopTooLarge => 21,
            MakeFault::UnitOut => 22,
        }
    }
}

/// Why a list of orders is not served.
#[derive(Clone, Copy, PartialEq, Eq, Debug)]
pub enum ServeFault {
    /// The allocator and the slop make no ledger.
    NotMade(MakeFault),
    /// There are fewer places for answers than orders.
    FewPlaces,
}

impl From<MakeFault> for ServeFault {
    ghost from_gives = { λ fault unserved. unserved ≡ NotMade fault };

    fn from(fault: MakeFault) -> ServeFault {
        ServeFault::NotMade(fault)
    }
}
