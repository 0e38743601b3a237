// The figures of a dataset.
ghost use Rattle.std.specs.Prelude.{◌≡◌, ◌^◌, ◌<◌, sum_by, sum};
ghost use Rattle.orders.specs.Meaning.{tell as to_tell};
ghost use Rattle.tally.specs.Faults.{told_of};
ghost use Rattle.tally.specs.Grants.{grant_by};
ghost use Rattle.tally.specs.Parts.{Did};

use super::Tally;
use super::fault::LedgerFault;
use orders::answer::Figures;
use rules::state::Transaction;

// All of them.
pub(crate) fn total(units: &[u16]) -> u16
    requires { sum units.now < 2 ^ 16 }
    ensures { result ≡ sum units.now }
{
    units.iter().sum()
}

impl Tally {
    // What a transaction has of unspent grants on a volume. The estimate is made for each transaction, so that a sum over all has no branch.
    fn grant(&self, state: Transaction, volume: u8) -> u16
        ensures { result ≡ grant_by self.now.worst volume state }
    {
        let units = self.estimate(state);
        match state {
            Transaction::Assigned { volume: on, .. } if on == volume => units,
            _ => 0,
        }
    }

    // What they all have.
    fn grants(&self, volume: u8) -> u16
        requires { sum_by (grant_by self.now.worst volume) self.now.transactions < 2 ^ 16 }
        ensures { result ≡ sum_by (grant_by self.now.worst volume) self.now.transactions }
    {
        self.transactions
            .iter()
            .map(|state| self.grant(*state, volume))
            .sum()
    }

    /// The figures of a dataset.
    pub fn tell(&self, d: u8) -> Result<Figures, LedgerFault>
        ensures { Did self.now self.now (to_tell d) (told_of result) }
    {
        let charge = self.tree.charge(d)?;
        let contents = &self.contents[usize::from(d)];
        // The records alone: the units past them are 0.
        Ok(Figures {
            name: contents.name,
            charge,
            record_units: total(&contents.units[..usize::from(contents.records)]),
            deferred_units: contents.deferred,
            unspent_grants: self.grants(d),
        })
    }
}
