//! Facts about the definitions, each the contract of a function that does nothing.

ghost use Rattle.song_lists.specs.ListLaws.{DataTakesSize, LinesTakeSize, LinesArePlain, LinesAreKept, LinesAreAtHome};
ghost use Rattle.song_lists.specs.ListLaws.{LinesAreFew, NoLabelIsNamedTwice, OwnLabelsAreNamed, ListLabelsAreNamed};
ghost use Rattle.song_lists.specs.ListLaws.{LabelsHavePlaces, DataStands, ListsStandInside, OrdersStandInside};
ghost use Rattle.song_lists.specs.ListLaws.{PatternsStandInside, SlidesAreInside, NextBytesAreNext};
ghost use Rattle.song_lists.specs.ListLaws.{SongListsStand, ListsAreLaid};
ghost use Rattle.song_lists.specs.WorkedLists.{FrequenciesAreWorked, FewFieldsAreWorked, SmallListsAre, FirstOrdersAre};
ghost use Rattle.song_lists.specs.WorkedLists.{HoldersAre, OneSubtuneIs, OtherListingsAre};
ghost use Rattle.song_lists.specs.WorkedLayouts.{SmallLayoutsAre, OtherLayoutsAre, SmallPlacesAre, LabelsAreWorked};

/// There are two zeros, as many bytes as are read of the packed song or stand alone for all its instruments, those of
/// three lists where calculated speeds are kept, the zeros of the gap, and two of each frequency of a number that the
/// song asks for. The lines take these, each byte as it is.
pub fn data_takes_size()
    ensures bytes { DataTakesSize }
    ensures lines { LinesTakeSize }
{}

/// The lines are labels and bytes. They are kept with each set of parts, at home in any listing, and at most 1,000.
pub fn lines_are_plain()
    ensures plain { LinesArePlain }
    ensures kept { LinesAreKept }
    ensures at_home { LinesAreAtHome }
    ensures few { LinesAreFew }
{}

/// The lines name no label twice and no other labels than those of lists, orderlists and patterns. All labels that the
/// player reads by are among them, and each is in front of its byte.
pub fn labels_have_places()
    ensures once { NoLabelIsNamedTwice }
    ensures own { OwnLabelsAreNamed }
    ensures named { ListLabelsAreNamed }
    ensures places { LabelsHavePlaces }
{}

/// Where the bytes stand in a memory, and the labels have the addresses of theirs, each byte of a list stands at its
/// place, and so do the slides. Where the code may read these bytes, too, and none of them is a variable, the player
/// has its lists there, and the layout is what it asks for in all that the lists decide.
pub fn data_stands()
    ensures bytes { DataStands }
    ensures lists { SongListsStand }
    ensures layout { ListsAreLaid }
{}

/// Each place of a list is among these bytes, beside the slides; so are the places before the patterns. The orderlists
/// begin among them, the slides are two lists, one behind the other, and what is to be one byte on is.
pub fn lists_stand_inside()
    ensures lists { ListsStandInside }
    ensures orders { OrdersStandInside }
    ensures patterns { PatternsStandInside }
    ensures slides { SlidesAreInside }
    ensures next { NextBytesAreNext }
{}

/// The frequencies of some notes, and the lists of a small song, without calculated speeds from `$1FCD` on and with
/// them from `$1FC7` on, worked by hand; its lists where some fields of its instruments aren't read, where numbers
/// tell which of them hold the gate and the envelope before a note, and where the addresses of its orderlists aren't
/// listed; the addresses of its orderlists, and such as aren't theirs; and listings that aren't of it.
pub fn worked_lists()
    ensures frequencies { FrequenciesAreWorked }
    ensures small { SmallListsAre }
    ensures fields { FewFieldsAreWorked }
    ensures holders { HoldersAre }
    ensures subtune { OneSubtuneIs }
    ensures orders { FirstOrdersAre }
    ensures others { OtherListingsAre }
{}

/// The labels of these lists, layouts and memories in which the player has them, worked by hand; and such in which it
/// doesn't.
pub fn worked_layouts()
    ensures small { SmallLayoutsAre }
    ensures others { OtherLayoutsAre }
    ensures places { SmallPlacesAre }
    ensures labels { LabelsAreWorked }
{}
