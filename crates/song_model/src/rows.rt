//! Rows of patterns.

ghost use Rattle.std.specs.Prelude.{◌↔◌, IsTrue};
ghost use Rattle.song_model.specs.PatternLimits.{IsRow};

/// One row of a pattern, as the GoatTracker 2 readme's format has it.
#[derive(Clone, Copy, Debug, PartialEq, Eq)]
pub struct Row {
    /// `$60-$BC` is a note from C-0 to G#7, `$BD` a rest, `$BE` keyoff, `$BF` keyon.
    pub note: u8,
    /// `$00` names none, `$01-$3F` an instrument.
    pub instrument: u8,
    /// `$00-$0F`.
    pub command: u8,
    /// What the command is given: for most commands the number of a table's row.
    pub param: u8,
}

impl Row {
    /// Whether note, instrument and command are in their ranges; an end row isn't.
    pub fn is_in_range(self) -> bool
        ensures { IsTrue result ↔ IsRow self }
    {
        let _param = self.param;
        self.note >= 0x60 && self.note <= 0xbf && self.instrument <= 0x3f && self.command <= 0x0f
    }
}
