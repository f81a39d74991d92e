//! Facts about images, each the contract of a function that does nothing.

ghost use Rattle.player_image.specs.ImageLaws.{ImagesArePlayers, ImagesPlay};
ghost use Rattle.player_image.specs.Systems.{ImagesAreOne, SystemsShareImages, TimerCodesAreWorked};
ghost use Rattle.player_image.specs.WorkedImages.{BytesArePlaced, PatternsAreDenied, PlacesAreWorked};

/// An image of a packed song that stands for a song is a player, where it stands from `$0800` up to `$D000` and its
/// pointer is from 2 to 254, with any options at any legal speed, and at most 32 subtunes and 208 patterns of at most 256
/// bytes: so any calls of it in any order play the song, by its bytes alone, and as it is built it holds the start of the
/// first subtune, with spare zeros for the variables that have no byte in it, which no call reads or writes.
pub fn images_play()
    ensures players { ImagesArePlayers }
    ensures play { ImagesPlay }
{}

/// A packed song has one image for a place, a pointer and options.
pub fn images_are_one()
    ensures { ImagesAreOne }
{}

/// Images for two systems are the same bytes where the play call comes once a picture, and else all but the two numbers
/// that the timer is set to.
pub fn systems_share_images()
    ensures alike { SystemsShareImages }
    ensures worked { TimerCodesAreWorked }
{}

/// Bytes in the order of their places; variables without a pattern, and some with one; and where the blocks of an image
/// at `$1000` may read and write, and where they may not.
pub fn worked_places()
    ensures bytes { BytesArePlaced }
    ensures patterns { PatternsAreDenied }
    ensures places { PlacesAreWorked }
{}
