//! Laws of what stands, each the contract of a function that does nothing.

ghost use Rattle.vc_net_standing.specs.Laws.{NewAtomsAreFree, OutsAreCounted, WhoMayComeStaysClear};

/// What leaves a set clear and doesn't stand yet may come: its place is free.
pub fn new_atoms_are_free()
    ensures { NewAtomsAreFree }
{}

/// A clear set stays clear with an atom just where that may come: it is the plan's, nothing stands that it collides
/// with, and it leaves each variable a grain.
pub fn who_may_come_stays_clear()
    ensures { WhoMayComeStaysClear }
{}

/// All grains of a variable are out just where as many atoms of a clear set say so as it has grains.
pub fn outs_are_counted()
    ensures { OutsAreCounted }
{}
