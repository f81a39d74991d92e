//! Facts about the definitions, each the contract of a function that does nothing.

ghost use Rattle.variable_places.specs.PlaceLaws.{PlacesAreWithin, CountsAreFew, CountsRise, CountsAreNoFewer};
ghost use Rattle.variable_places.specs.PlaceLaws.{PlacesAreApart, VoicesAreAlike, VoicesAreInStep, FunkIsTogether};
ghost use Rattle.variable_places.specs.PlaceLaws.{UnclearedAreFirst, ClearedAreBehind, NamedHaveBytes};
ghost use Rattle.variable_places.specs.WorkedPlaces.{FieldsAreWorked, BytesAreWorked, CountsAreWorked, PlacesAreWorked};

/// Whichever conditions hold, each variable's place is one of those that are counted, of which there are from 1 to 113,
/// and no two variables that have a byte have the same place.
#[tactic(auto, using(crate::proofs::Within::places_are_within, crate::proofs::Within::counts_are_few, crate::proofs::Apart::places_are_apart))]
pub fn places_are_apart()
    ensures within { PlacesAreWithin }
    ensures few { CountsAreFew }
    ensures apart { PlacesAreApart }
{}

/// Where more conditions hold there are no fewer places; and there are 61 at least.
#[tactic(auto, using(crate::proofs::Rising::counts_rise, crate::proofs::Rising::counts_are_no_fewer))]
pub fn counts_rise()
    ensures rise { CountsRise }
    ensures no_fewer { CountsAreNoFewer }
{}

/// The three voices have the same bytes, each 7 places behind that of the voice before it; of the funk tempos both have
/// a byte, the second behind the first, or none. Those that aren't cleared have the first bytes, and all others stand
/// behind them.
#[tactic(auto, using(crate::proofs::Voices::voices_are_alike, crate::proofs::Voices::voices_are_in_step))]
pub fn places_are_in_step()
    ensures alike { VoicesAreAlike }
    ensures in_step { VoicesAreInStep }
    ensures funk { FunkIsTogether }
    ensures first { UnclearedAreFirst }
    ensures behind { ClearedAreBehind }
{}

/// Each label that a line of the player names which is kept has a byte.
pub fn named_have_bytes()
    ensures { NamedHaveBytes }
{}

/// Labels that stand in a table, places of fields and free ones; which variables have a byte under conditions, how many
/// places there are and which it is; and labels that have no place of their own: worked by hand.
pub fn worked_places()
    ensures fields { FieldsAreWorked }
    ensures bytes { BytesAreWorked }
    ensures counts { CountsAreWorked }
    ensures places { PlacesAreWorked }
{}
