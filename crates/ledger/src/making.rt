// Making a ledger, and taking it apart again.
ghost use Rattle.std.specs.Prelude.{◌≡◌, ℕ, Bool, List, [], Ok};
ghost use Rattle.rules.specs.Journal.{Entry};
ghost use Rattle.ledger.specs.Makes.{any_out, check_answer, Made};
ghost use Rattle.ledger.specs.Parts.{pool_of, figures, Sound, Stands};

use super::Ledger;
use super::fault::MakeFault;
use costs::policy::CostPolicy;
use marks::marks::Marks;
use pool::allocator::Allocator;
use tally::Tally;

// Whether some unit is out.
fn any_out<A: Allocator>(pool: &A) -> bool
    ensures { result ≡ any_out (A.Allocator.units pool.now) }
{
    (0..pool.size()).any(|unit| pool.is_out(unit))
}

/// Whether the allocator and the slop make a ledger.
pub fn check<A: Allocator>(pool: &A, slop: u16) -> Result<(), MakeFault>
    ensures { result ≡ check_answer slop (A.Allocator.units pool.now) }
{
    if slop >= pool.size() {
        return Err(MakeFault::SlopTooLarge);
    }
    if any_out(pool) {
        return Err(MakeFault::UnitOut);
    }
    Ok(())
}

impl<A: Allocator, P: CostPolicy> Ledger<A, P> {
    /// A ledger with the root alone, every transaction idle and every unit in.
    pub fn make(pool: A, policy: P, slop: u16) -> Self
        requires { check_answer slop (A.Allocator.units pool) ≡ Ok tt }
        ensures sound { Sound result }
        ensures stands { Stands (figures result) result [] }
        ensures made { Made pool policy slop result }
    {
        let size = pool.size();
        let worst = policy.worst();
        Ledger {
            tally: Tally::make(size, slop, worst),
            marks: Marks::make(pool),
            policy,
        }
    }

    /// Some journal stands behind the ledger, and with each that stands it is sound.
    pub fn sound(&self)
        ensures some { ∥ Sound self.now ∥₁ }
        ensures each { (j : List Entry) → Stands (figures self.now) self.now j → Sound self.now }
    {}

    /// Gives the allocator and the policy back.
    pub fn close(self) -> (A, P)
        ensures { result ≡ (pool_of self, self.policy) }
    {
        let Ledger { marks, policy, .. } = self;
        (marks.close(), policy)
    }
}
