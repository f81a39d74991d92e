//! Facts about the format, each the contract of a function that does nothing.

ghost use Rattle.psid.specs.FormatLaws.{AddressesAre, FieldsStand, WrittenIsRead, WrittenIsReadAsIs, ReadIsWritable};
ghost use Rattle.psid.specs.WorkedFile.{HeaderIsSpelled, EndIsSpelled, FileIsRead, HeaderIsWanted, KindsAreUnsupported};
ghost use Rattle.psid.specs.WorkedFile.{FieldsAreInRange, ImageIsPlaced};

/// Each field of the header stands at the offset that the table gives it.
pub fn fields_stand_at_their_offsets()
    ensures { FieldsStand }
{}

/// A file that was written is read as what it was written from; an init of 0 is read as the image's address.
pub fn what_is_written_is_read()
    ensures with_init { WrittenIsRead }
    ensures as_is { WrittenIsReadAsIs }
{}

/// A file that is read may be written.
pub fn what_is_read_may_be_written()
    ensures { ReadIsWritable }
{}

/// The number of addresses.
pub fn worked_constants()
    ensures { AddressesAre }
{}

/// The file of one song at `$1000`, and the faults of the same file, cut or with some bytes changed.
#[tactic(auto, unfolding(crate::specs::Words::word_at, crate::specs::Words::number_at, crate::specs::Words::address_at, crate::specs::Words::text_at, crate::specs::Format::header_fields, crate::specs::Reading::is_supported, crate::specs::Reading::has_good_fields, crate::specs::Reading::has_address, crate::specs::Reading::load_of, crate::specs::Reading::image_of, crate::specs::Reading::header_of, crate::specs::Reading::psid_read))]
pub fn worked_file()
    ensures header { HeaderIsSpelled }
    ensures end { EndIsSpelled }
    ensures read { FileIsRead }
    ensures magic { HeaderIsWanted }
    ensures kinds { KindsAreUnsupported }
    ensures fields { FieldsAreInRange }
    ensures image { ImageIsPlaced }
{}
