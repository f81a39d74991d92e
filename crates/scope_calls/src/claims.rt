//! Facts about the definitions, each the contract of a function that does nothing.

ghost use Rattle.scope_calls.specs.EntranceLaws.{EntrancesReturn, CallsAreShort, EntrancesAreIsolated};
ghost use Rattle.scope_calls.specs.EntranceLaws.{OthersStay, ListingsStay, CodeStays, CodeIsShared, FlagsAreClear};
ghost use Rattle.scope_calls.specs.Entrances.{EntrancesTakeSize};
ghost use Rattle.scope_calls.specs.Homes.{EntranceLinesAreAtHome, EntranceLinesAreNotRefused};
ghost use Rattle.scope_calls.specs.WorkedEntrances.{VolumeIsCalled, VoicesAreCalled, NumbersMatter};
ghost use Rattle.scope_calls.specs.WorkedEntrances.{VolumeStoresThere, VoicesStoreThere, VolumeIsApart};
ghost use Rattle.scope_calls.specs.WorkedEntrances.{RegisterIsNotApart, NoCallInBlocks};
ghost use Rattle.scope_calls.specs.WorkedEntrances.{NothingIsAround, ListingsAgree, VoicesAreBlocks};
ghost use Rattle.scope_calls.specs.WorkedEntrances.{AIsNotKnown, XIsNotKnown, YIsNotKnown, LabelsAreUsed};
ghost use Rattle.scope_calls.specs.WorkedEntrances.{FirstMustEnd, VoicesMustEnd};

/// A machine of 65,536 bytes that holds the code of a well entered entrance, and is called at it with any number in A,
/// returns in the machine whose memory is what the entrance means, where its blocks come to their ends. The steps are
/// those that it counts, and the jump, and the clock cycles those of its lines; each write is where the blocks may write,
/// or at the two bytes of the stack below the call's own return address.
#[tactic(auto, using(crate::proofs::Whole::entrances_return))]
pub fn entrances_return()
    ensures { EntrancesReturn }
{}

/// A call that returns so takes at most the steps of the entrance's weight.
pub fn calls_are_short()
    ensures { CallsAreShort }
{}

/// Calls of an entrance in two machines that agree on the bytes that its blocks may read, none of them on the stack,
/// take the same number of steps and of clock cycles, and leave the same bytes there, where the blocks read what is known
/// alone, and where both are called with the same number, if the first block may rest on it.
pub fn entrances_are_isolated()
    ensures { EntrancesAreIsolated }
{}

/// Behind a call each byte that it may not write is as before, but for the two bytes of the stack that hold the return
/// address; so is each byte of the listing where the blocks may not write. The code of an entrance that is apart from
/// where they may still stands; and it stands in each memory with the same listing.
pub fn listings_stay()
    ensures others { OthersStay }
    ensures listing { ListingsStay }
    ensures code { CodeStays }
    ensures shared { CodeIsShared }
{}

/// Behind a call the decimal flag is clear, and the interrupt flag as it was.
pub fn flags_are_clear()
    ensures { FlagsAreClear }
{}

/// The lines of an entrance take the bytes that are counted.
#[tactic(auto, using(crate::proofs::Sizing::entrances_take_size))]
pub fn entrances_take_size()
    ensures { EntrancesTakeSize }
{}

/// The lines of an entrance are at home in any listing that always names the labels that they use. Where it names no
/// label twice and fits at its origin, `assemble` refuses none of them, with any set.
pub fn entrance_lines_are_not_refused()
    ensures at_home { EntranceLinesAreAtHome }
    ensures not_refused { EntranceLinesAreNotRefused }
{}

/// Two entrances at `$1000`, worked by hand: one that sets the volume to the number of the call, and one whose three
/// voices each write X into a register of their own. Both are well entered, any machine that holds their bytes holds
/// their code, and both take as many steps as they may; so what the laws on entrances ask is met there. Two calls of
/// the first with different numbers aren't alike. And entrances that have no lines, that read what isn't known, that
/// use a label more, and that go on to nothing.
pub fn worked_entrances()
    ensures volume { VolumeIsCalled }
    ensures voices { VoicesAreCalled }
    ensures calls { NoCallInBlocks }
    ensures around { NothingIsAround }
    ensures numbers { NumbersMatter }
    ensures a { AIsNotKnown }
    ensures x { XIsNotKnown }
    ensures y { YIsNotKnown }
    ensures labels { LabelsAreUsed }
    ensures first { FirstMustEnd }
    ensures each { VoicesMustEnd }
{}

/// Where the two write, that the code of the first is apart from that and the volume isn't, and when two machines have
/// the same listing; and which lines may be done for each voice.
pub fn worked_places()
    ensures volume { VolumeStoresThere }
    ensures voices { VoicesStoreThere }
    ensures apart { VolumeIsApart }
    ensures register { RegisterIsNotApart }
    ensures listings { ListingsAgree }
    ensures blocks { VoicesAreBlocks }
{}
