//! Facts about the definitions, each the contract of a function that does nothing.

ghost use Rattle.song_pack.specs.SizeLaws.{PackedSizesAreWithin, NotesHaveTheirSize};
ghost use Rattle.song_pack.specs.StoredLaws.{CompleteSongsFindAll};

/// All that a safe state of a complete song names is stored, and so all that its frames look up.
#[tactic(auto, using(crate::proofs::FoundRows::complete_songs_find_all))]
pub fn complete_songs_find_all()
    ensures { CompleteSongsFindAll }
{}

/// The size of a packed song isn't above its song's data size; and the packed song of one note has the size of its song, and
/// neither that of the song without one of its patterns nor that of the song with another one, worked by hand.
#[tactic(auto, using(crate::proofs::WorkedSizes::packed_sizes_are_within, crate::proofs::WorkedSizes::notes_have_their_size))]
pub fn packed_songs_have_their_size()
    ensures within { PackedSizesAreWithin }
    ensures note { NotesHaveTheirSize }
{}
