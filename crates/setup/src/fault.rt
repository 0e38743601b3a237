// Why a script is not run at all.
ghost use Rattle.std.specs.Prelude.{◌≡◌};
ghost use Rattle.setup.specs.Faults.{setup_number};
ghost use Rattle.setup.specs.declared.fault.SetupFault.TheVariants.{Pool as of_pool, Ledger as of_ledger, Policy as of_policy};

use costs::fault::CostFault;
use ledger::fault::MakeFault;
use orders::answer::Refusal;
use pool::allocator::AllocatorFault;

/// Why no ledger can be made of these figures and this memory.
#[derive(Clone, Copy, PartialEq, Eq, Debug)]
pub enum SetupFault {
    /// No allocator can be made.
    Pool(AllocatorFault),
    /// The allocator and the slop make no ledger.
    Ledger(MakeFault),
    /// No cost policy has these figures.
    Policy(CostFault),
}

impl SetupFault {
    /// The number of the refusal.
    pub fn number(self) -> u8
        ensures { result ≡ setup_number self }
    {
        match self {
            SetupFault::Pool(fault) => fault.number(),
            SetupFault::Ledger(fault) => fault.number(),
            SetupFault::Policy(fault) => Refusal::from(fault).number,
        }
    }
}

// These three are by hand and not derived, since clauses name the fault that `?` makes.
impl From<AllocatorFault> for SetupFault {
    ghost from_gives = { λ fault lifted. lifted ≡ of_pool fault };

    fn from(fault: AllocatorFault) -> SetupFault {
        SetupFault::Pool(fault)
    }
}

impl From<MakeFault> for SetupFault {
    ghost from_gives = { λ fault lifted. lifted ≡ of_ledger fault };

    fn from(fault: MakeFault) -> SetupFault {
        SetupFault::Ledger(fault)
    }
}

impl From<CostFault> for SetupFault {
    ghost from_gives = { λ fault lifted. lifted ≡ of_policy fault };

    fn from(fault: CostFault) -> SetupFault {
        SetupFault::Policy(fault)
    }
}
