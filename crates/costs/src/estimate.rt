// What held writes may cost.
ghost use Rattle.std.specs.Prelude.{◌≡◌, ◌*◌};

use super::policy::CostPolicy;

/// The estimate of `writes` writes under any policy: as if each had the worst cost.
pub fn estimate<P: CostPolicy>(policy: &P, writes: u8) -> u16
    ensures { result ≡ writes * P.CostPolicy.worst policy.now }
{
    u16::from(writes) * policy.worst()
}
