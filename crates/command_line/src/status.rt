//! The program's exit statuses.

ghost use Rattle.std.specs.Prelude.{◌≡◌};
ghost use Rattle.command_line.specs.Message.{number_of};

/// How a run ends. Its number is the program's exit status.
#[derive(Clone, Copy, Debug, PartialEq, Eq)]
pub enum Status {
    /// All was done.
    Done = 0,
    /// No form of the command line has the words.
    Usage = 1,
    /// No file has the name.
    Missing = 2,
    /// The file has more bytes than may be read.
    TooLong = 3,
    /// The folder failed to read the file.
    ReadFault = 4,
    /// The file breaks the format of songs.
    NotASong = 5,
    /// The song can't be played.
    Unplayable = 6,
    /// A pattern of the song, or its image, has more bytes than it may have.
    TooLarge = 7,
    /// The script breaks the format of scripts, or one of its commands can't be done.
    BadScript = 8,
    /// The folder failed to write the file.
    WriteFault = 9,
    /// The sink failed to take a line; no other follows.
    SinkFault = 10,
    /// The file doesn't have the subtune that was asked for.
    NoSubtune = 11,
    /// The file breaks the format of PSID files.
    NotAPsid = 12,
    /// A call of the PSID file did not return.
    Stopped = 13,
    /// Out of memory.
    NoMemory = 14,
    /// The numbers of a bound aren't admitted.
    NotAdmitted = 16,
    /// The listing can't be assembled.
    BadListing = 17,
    /// The two songs can't be joined.
    CannotJoin = 18,
}

impl Status {
    /// The exit status.
    pub fn number(self) -> u8
        ensures { result ≡ number_of self }
    {
        self as u8
    }
}
