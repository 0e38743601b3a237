// The theorems of the tree, each the contract of a function, so that the check demands its proof.
ghost use Rattle.charges.specs.Figures.{Figures};
ghost use Rattle.charges.specs.Keep.{KeepLaw, SpreadEquation};
ghost use Rattle.charges.specs.Laws.{AddLaw, BoundLaw, ChargeEquation, ExcessLaw, FallLaw, LimitLaw, Locality, PathEquation, QuotaLaw, Recomputed, ReserveLaw, RiseLaw, ShapeLaw, Shelter, WalkEquation};

/// A charge is the dataset's own units and the weights of its children.
pub fn charge_equation()
    ensures { ChargeEquation }
{}

/// A path is the dataset, then the path of its parent, and ends with the root.
pub fn path_equation()
    ensures { PathEquation }
{}

/// Own units, a reservation or a quota set anew leave the tree's shape and its paths.
pub fn shape_law()
    ensures { ShapeLaw }
{}

/// Within limits: the root's charge is at most the room, any other's at most its quota, and a quota of 0 asks nothing.
pub fn limit_law()
    ensures { LimitLaw }
{}

/// Own units or a reservation set anew move the charges on the path by the signed change rule, a rise and a fall alike, and no other charge.
pub fn locality()
    ensures { Locality }
{}

/// A walk judges its dataset, then goes on from the parent with the change that is passed on, and ends with the root.
pub fn walk_equation()
    ensures { WalkEquation }
{}

/// The walk, which goes by changes, is the search along the path with every charge computed from nothing.
pub fn recomputed()
    ensures { Recomputed }
{}

/// A walk for more own units answers nothing exactly when no charge, recomputed, passes its limit, and otherwise the nearest on the path with the exact excess.
pub fn rise_law()
    ensures { RiseLaw }
{}

/// The same for a reservation set anew, from the parent up.
pub fn reserve_law()
    ensures { ReserveLaw }
{}

/// A walk names neither a dataset whose unspent reservation covers the rise nor one above it.
pub fn shelter()
    ensures { Shelter }
{}

/// Fewer own units, or a smaller reservation, pass no limit.
pub fn fall_law()
    ensures { FallLaw }
{}

/// The root's charge bounds every charge, every weight and all own units together.
pub fn bound_law()
    ensures { BoundLaw }
{}

/// An excess is at most the rise or the new reservation, and fits two bytes where that does.
pub fn excess_law()
    ensures { ExcessLaw }
{}

/// A quota set anew changes no charge.
pub fn quota_law()
    ensures { QuotaLaw }
{}

/// A new dataset with nothing in it changes no charge.
pub fn add_law()
    ensures { AddLaw }
{}

/// A change is put in at its dataset, then spread from the parent as it is passed on, up to the root.
pub fn spread_equation()
    ensures { SpreadEquation }
{}

/// Charges kept beside the rows follow each edit by the change spread along the path.
pub fn keep_law()
    ensures { KeepLaw }
{}

/// Worked figures of the definitions.
pub fn figures()
    ensures { Figures }
{}
