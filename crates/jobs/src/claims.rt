//! Facts about the definitions, each the contract of a function that does nothing.

ghost use Rattle.jobs.specs.Laws.{OutcomesAreDue, OneStatusIsDue, OneTextIsPrinted, StagesPass, PlayableSongsPass};
ghost use Rattle.jobs.specs.Laws.{StatusesHaveCauses, OnlyLargeImagesAreRefused, SmallSongsArePacked, ImagesAreBounded};
ghost use Rattle.jobs.specs.Laws.{NoImageIsLonger};
ghost use Rattle.jobs.specs.Laws.{CostsAreTheImages, WrittenFilesArePacked, PackedFilesPlay, ListingsGoBack};
ghost use Rattle.jobs.specs.Laws.{ScriptsMakeSongsAgain, JoinedFilesHoldBoth, WrittenBoundsAreAdmitted};
ghost use Rattle.jobs.specs.Laws.{ToldBoundsAreKept, LeastTextsAreAdmitted, SongsHaveOneProgram, BoundsHaveOneOutcome};
ghost use Rattle.jobs.specs.Laws.{ChartsHaveOneOutcome};
ghost use Rattle.jobs.specs.Everywhere.{PackedSongsTakeAsTold};
ghost use Rattle.jobs.specs.MetPremises.{StatusesAreOrdinary, FittingSongsArePacked, PackedFilesAreRun};
ghost use Rattle.jobs.specs.MetPremises.{ListingsAreAssembled, ScriptsAreDone, JoinableSongsAreJoined};
ghost use Rattle.jobs.specs.MetPremises.{SomeJobsHaveNoStage, PlayableSongsAreBounded, PackedFilesAreMeasured};
ghost use Rattle.jobs.specs.MetPremises.{ToldForEverIsAsked, ToldForEverSays};
ghost use Rattle.jobs.specs.WorkedLines.{LinesAreWorked, CostLinesAreWorked, FaultsAreWorked, ListingFaultsAreWorked};
ghost use Rattle.jobs.specs.WorkedLines.{JoinFaultsAreWorked, RefusalsAreWorked, StatusesAreWorked, LimitsAreWorked};
ghost use Rattle.jobs.specs.WorkedLines.{HeadersAreWorked, FlagsAreWorked, LargeImagesAreNotPacked};

/// A run has one outcome at most: one status and one name to write under, and, where nothing is written, one text. A song has
/// one program, and what is written of its bounds, and told, is one; and so is a picture.
pub fn runs_have_one_outcome()
    ensures due { OutcomesAreDue }
    ensures status { OneStatusIsDue }
    ensures text { OneTextIsPrinted }
    ensures programs { SongsHaveOneProgram }
    ensures bounds { BoundsHaveOneOutcome }
    ensures charts { ChartsHaveOneOutcome }
{}

/// A stage passes where what it asks for is there.
pub fn stages_pass()
    ensures { StagesPass }
{}

/// A song that a file spells can be played exactly where the stage that asks for it passes.
pub fn playable_songs_pass()
    ensures { PlayableSongsPass }
{}

/// Each status comes of its own cause, and of no other.
pub fn statuses_have_causes()
    ensures { StatusesHaveCauses }
{}

/// A song that can be played is packed where no text of a used pattern is too long and its data and the bound of its
/// player end at or below `$D000`; for an image no song is refused else, and no image is longer than these.
pub fn small_songs_are_packed()
    ensures bounded { ImagesAreBounded }
    ensures longer { NoImageIsLonger }
    ensures images { OnlyLargeImagesAreRefused }
    ensures songs { SmallSongsArePacked }
{}

/// The bytes that `parts` tells of a song, kind by kind, add up to the length of the image that `pack` writes.
pub fn costs_are_the_images()
    ensures { CostsAreTheImages }
{}

/// A PSID file that is written is a packed one; all calls of such a file return, with the registers of the song's trace.
pub fn packed_files_play_their_song()
    ensures written { WrittenFilesArePacked }
    ensures play { PackedFilesPlay }
{}

/// What is told of a subtune of a packed file holds of its image on any machine, whatever else is in memory: from init on each
/// call takes the same clock cycles.
pub fn packed_songs_take_as_told()
    ensures { PackedSongsTakeAsTold }
{}

/// What is told for ever asks for no more than words, a file and what is measured of it; and each subtune that repeats is
/// told so, with a state that comes again, and a play that none passes, in the file and on any machine.
pub fn told_for_ever()
    ensures asked { ToldForEverIsAsked }
    ensures says { ToldForEverSays }
{}

/// What `disasm` writes is what `asm` gives the image back of; what `show` writes of a song is what `edit` makes the song
/// of, from the empty one; and a joined file holds the joined song, which plays what both songs play.
pub fn written_files_hold_what_was_read()
    ensures listings { ListingsGoBack }
    ensures scripts { ScriptsMakeSongsAgain }
    ensures joined { JoinedFilesHoldBoth }
{}

/// No call of a packed file takes more clock cycles than `bound-check` tells of numbers that it admits for the song; those
/// that `bound` writes are such, and are told of in the same line.
pub fn told_bounds_are_kept()
    ensures kept { ToldBoundsAreKept }
    ensures least { LeastTextsAreAdmitted }
    ensures written { WrittenBoundsAreAdmitted }
{}

/// What the clauses on statuses, packing and running ask for: which statuses are ordinary, that a small song is asked for
/// no more than fits it, that a packed file is never too long and is measured, that the listing of an image is one that is
/// assembled, that a song's script is done on the empty song, that two songs that can be joined are, and which jobs have no
/// stage.
pub fn premises_are_met()
    ensures statuses { StatusesAreOrdinary }
    ensures packed { FittingSongsArePacked }
    ensures bounded { PlayableSongsAreBounded }
    ensures run { PackedFilesAreRun }
    ensures measured { PackedFilesAreMeasured }
    ensures listing { ListingsAreAssembled }
    ensures script { ScriptsAreDone }
    ensures joined { JoinableSongsAreJoined }
    ensures fileless { SomeJobsHaveNoStage }
{}

/// A line of each kind, the status of each stage, each limit in numbers, and what the header of a packed PSID file says of
/// each song, worked by hand; and that no packed file is of an image that would pass `$D000`.
pub fn worked_lines()
    ensures lines { LinesAreWorked }
    ensures costs { CostLinesAreWorked }
    ensures faults { FaultsAreWorked }
    ensures listings { ListingFaultsAreWorked }
    ensures joins { JoinFaultsAreWorked }
    ensures refusals { RefusalsAreWorked }
    ensures statuses { StatusesAreWorked }
    ensures limits { LimitsAreWorked }
    ensures headers { HeadersAreWorked }
    ensures flags { FlagsAreWorked }
    ensures room { LargeImagesAreNotPacked }
{}
