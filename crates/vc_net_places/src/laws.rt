//! Laws of places, each the contract of a function that does nothing.

ghost use Rattle.vc_net_places.specs.Laws.{BoundsAreByPlace, CellsAreApart, CellsEndAtTotal, CellsSuffice};
ghost use Rattle.vc_net_places.specs.Laws.{FirstsAreCounted, IndexTellsBack, IndexTellsPlaces, IndexTellsThings};
ghost use Rattle.vc_net_places.specs.Laws.{NamedHavePlaces, NumbersAreTaken, PlacesAreApart, PlacesAreCounted};
ghost use Rattle.vc_net_places.specs.Laws.{PlacesAreInOrder, ThingsAreCounted};

/// Each atom that a plan names has a place, numbered below the count of atoms; no two places have one number, and each
/// number is that of a place.
pub fn places_are_counted()
    ensures named { NamedHavePlaces }
    ensures counted { PlacesAreCounted }
    ensures apart { PlacesAreApart }
    ensures taken { NumbersAreTaken }
{}

/// What is kept of a plan tells the place of each atom, what each place is of, and what may stand there.
pub fn index_tells_places()
    ensures places { IndexTellsPlaces }
    ensures things { IndexTellsThings }
    ensures back { IndexTellsBack }
    ensures counted { ThingsAreCounted }
    ensures firsts { FirstsAreCounted }
{}

/// Each place has cells of its own, as many as its conclusions need at most. Those of all places, one after another,
/// don't overlap, and with those of a clash are as many as the plan's bound on cells counts.
pub fn cells_suffice()
    ensures ordered { PlacesAreInOrder }
    ensures bounds { BoundsAreByPlace }
    ensures apart { CellsAreApart }
    ensures ends { CellsEndAtTotal }
    ensures all { CellsSuffice }
{}
