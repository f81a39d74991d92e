//! Facts about the definitions, each the contract of a function that does nothing.

ghost use Rattle.faithful.specs.Laws.{AlwaysIsFaithful, OwnPlacesAreFew, CallsStoreAtHome, FirstPlaysAreFree};
ghost use Rattle.faithful.specs.Laws.{InitsEndAlike, PlaysEndAlike};
ghost use Rattle.faithful.specs.SamePlays.{SameSongsAreServed};
ghost use Rattle.faithful.specs.WorkedPlaces.{PlacesAreWorked, CallsAreCounted};
ghost use Rattle.faithful.specs.WorkedMachines.{TimersAreTold, ChangesAreTold, PairsAreTold};
ghost use Rattle.faithful.specs.WorkedImages.{RightImagesPlay, OrderIsTold, RegistersAreTold, StepsAreTold};
ghost use Rattle.faithful.specs.WorkedImages.{StoresAreTold, TimerBytesAreTold, DependencesAreTold};

/// An image that plays a song after any calls plays it after init and any number of plays.
pub fn what_plays_always_is_faithful()
    ensures { AlwaysIsFaithful }
{}

/// A place that a call may write lies in the image, in page 0, on the stack, in the SID or in the timer.
pub fn own_places_are_few()
    ensures { OwnPlacesAreFew }
{}

/// A call that serves stores at own places alone, in each of its steps.
pub fn calls_store_at_home()
    ensures { CallsStoreAtHome }
{}

/// The first play of a faithful image is entered with any registers.
pub fn first_plays_are_free()
    ensures { FirstPlaysAreFree }
{}

/// Inits of an isolated image end alike, and so do plays after an init, whatever else the machines hold.
pub fn isolated_calls_end_alike()
    ensures inits { InitsEndAlike }
    ensures plays { PlaysEndAlike }
{}

/// What an image does for one song it does for each that plays the same.
#[tactic(auto, using(crate::proofs::SameSongs::same_songs_lem))]
pub fn same_songs_are_served()
    ensures { SameSongsAreServed }
{}

/// Places that a call may write, and others; and what some calls came to.
pub fn worked_places()
    ensures places { PlacesAreWorked }
    ensures calls { CallsAreCounted }
{}

/// Machines with a timer and with another; calls that changed an own place and another; and machines that differ in one
/// byte.
#[tactic(auto, using(crate::proofs::WorkedMachines::timers_are_told, crate::proofs::WorkedMachines::changes_are_told, crate::proofs::WorkedMachines::pairs_are_told))]
pub fn worked_machines()
    ensures timers { TimersAreTold }
    ensures changes { ChangesAreTold }
    ensures pairs { PairsAreTold }
{}

/// Small images that play the silent song, at the speed 1 and at the speed 2 of either system, whatever else is in memory;
/// images that play it in order alone; and images beside them, each with one thing that is wrong: a register, the steps,
/// a place, the timer, or what a call depends on.
#[tactic(auto, using(crate::proofs::WorkedImages::right_images_play, crate::proofs::WrongOrders::order_is_told, crate::proofs::WrongRegisters::registers_are_told, crate::proofs::WrongRegisters::steps_are_told, crate::proofs::WrongStores::stores_are_told, crate::proofs::WrongTimers::timer_bytes_are_told, crate::proofs::WrongDependences::dependences_are_told))]
pub fn worked_images()
    ensures right { RightImagesPlay }
    ensures order { OrderIsTold }
    ensures registers { RegistersAreTold }
    ensures steps { StepsAreTold }
    ensures stores { StoresAreTold }
    ensures timers { TimerBytesAreTold }
    ensures dependences { DependencesAreTold }
{}
