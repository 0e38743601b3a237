// The theorems of the rules, each the contract of a function, so that the check demands its proof.
ghost use Rattle.rules.specs.Theorems.{LawHolds, WritesFindUnits};

/// A journal that is answered by the rules, over units that change only as an allocator may, is lawful at every point and in every entry.
pub fn law_holds()
    ensures { LawHolds }
{}

/// A write that is accepted finds its units: as many are in as it costs.
pub fn writes_find_units()
    ensures { WritesFindUnits }
{}
