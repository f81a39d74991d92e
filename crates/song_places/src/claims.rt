//! Facts about the definitions, each the contract of a function that does nothing.

ghost use Rattle.song_places.specs.PlaceLaws.{FeaturesAreNeeded, FactsAreNeeded, PartsAreNeeded};
ghost use Rattle.song_places.specs.PlaceLaws.{OwnPlacesAreFirst, FactPlacesAreFirst, FirstPlacesAreOne};
ghost use Rattle.song_places.specs.WorkedPlaces.{TransposesAreWorked, PortamentosAreWorked, TablesAreWorked};
ghost use Rattle.song_places.specs.WorkedPlaces.{VibratosAreWorked, GateNotesAreWorked, FactsAreWorked, PairsAreWorked};
ghost use Rattle.song_places.specs.WorkedPlaces.{CommonPlacesAreWorked, RowPlacesAreWorked, WavePlacesAreWorked};
ghost use Rattle.song_places.specs.WorkedPlaces.{SubtunesAreWorked, VoicesAreWorked, HoldsAreWorked};
ghost use Rattle.song_places.specs.WorkedPlaces.{FilterPlacesAreWorked, PlacesInOrder};

/// A song uses a feature exactly where some place needs it, has a fact exactly where some place gives it, and keeps a
/// part of features and facts exactly where some place needs it; a part of one feature or fact has its first place; and
/// at most one place is the first.
pub fn features_have_first_places()
    ensures needed { FeaturesAreNeeded }
    ensures facts { FactsAreNeeded }
    ensures parts { PartsAreNeeded }
    ensures own { OwnPlacesAreFirst }
    ensures own_facts { FactPlacesAreFirst }
    ensures one { FirstPlacesAreOne }
{}

/// First places of small songs: in an orderlist, in a pattern, an instrument and in the wave table, of features and of
/// facts, with others beside them that are later, or that aren't used; the place of a vibrato, which is that of its
/// parameter; that of what two instruments differ in, which is never instrument 1; that of an instrument that holds
/// less before a note than instrument 1; that of several subtunes, which is never in the first that can be played; that
/// of a channel that has something to play, which is never in another; and the places of parts that several features or
/// facts have in common.
#[tactic(auto, using(crate::proofs::WorkedPlaces::transposes_are_worked, crate::proofs::WorkedPlaces::portamentos_are_worked, crate::proofs::WorkedPlaces::tables_are_worked, crate::proofs::WorkedPlaces::vibratos_are_worked, crate::proofs::WorkedFactPlaces::gate_notes_are_worked, crate::proofs::WorkedFactPlaces::facts_are_worked, crate::proofs::WorkedFactPlaces::pairs_are_worked, crate::proofs::WorkedHolds::holds_are_worked, crate::proofs::WorkedFactPlaces::subtunes_are_worked, crate::proofs::WorkedVoices::voices_are_worked, crate::proofs::CommonPlaces::common_places_are_worked, crate::proofs::SharedPlaces::row_places_are_worked, crate::proofs::SharedPlaces::wave_places_are_worked, crate::proofs::FilterPlaces::filter_places_are_worked))]
pub fn worked_places()
    ensures orders { TransposesAreWorked }
    ensures patterns { PortamentosAreWorked }
    ensures tables { TablesAreWorked }
    ensures vibrato { VibratosAreWorked }
    ensures gate { GateNotesAreWorked }
    ensures facts { FactsAreWorked }
    ensures pairs { PairsAreWorked }
    ensures holds { HoldsAreWorked }
    ensures subtunes { SubtunesAreWorked }
    ensures voices { VoicesAreWorked }
    ensures common { CommonPlacesAreWorked }
    ensures rows { RowPlacesAreWorked }
    ensures wave { WavePlacesAreWorked }
    ensures filter { FilterPlacesAreWorked }
{}

/// Which of two places comes first.
#[tactic(auto, using(crate::proofs::WorkedPlaces::places_in_order))]
pub fn places_in_order()
    ensures { PlacesInOrder }
{}
