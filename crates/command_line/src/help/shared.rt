//! The lines of help that stand in more than one text, each with its line feed.

// ---- the forms, as they stand in the list of all and at the head of each form's own text

/// The form of `check`.
pub const CHECK_FORM: &str = "goat check IN\n";
/// The form of `parts`.
pub const PARTS_FORM: &str = "goat parts IN SKIP SPEED\n";
/// The form of `bound`.
pub const BOUND_FORM: &str = "goat bound IN OUT SKIP SPEED\n";
/// The form of `bound-check`.
pub const BOUND_CHECK_FORM: &str = "goat bound-check IN CERT SKIP SPEED\n";
/// The form of `trace`.
pub const TRACE_FORM: &str = "goat trace IN SUBTUNE FRAMES [SKIP SPEED]\n";
/// The form of `pack`.
pub const PACK_FORM: &str = "goat pack IN OUT psid|raw ADDRESS ZP [SKIP SPEED [SYSTEM CHIP]]\n";
/// The form of `run`.
pub const RUN_FORM: &str = "goat run IN SUBTUNE FRAMES\n";
/// The form of `measure`.
pub const MEASURE_FORM: &str = "goat measure IN CALLS\n";
/// The form of `chart`.
pub const CHART_FORM: &str = "goat chart IN OUT SUBTUNE CALLS\n";
/// The form of `show`.
pub const SHOW_FORM: &str = "goat show IN OUT\n";
/// The form of `edit`.
pub const EDIT_FORM: &str = "goat edit IN SCRIPT OUT\n";
/// The form of `copy`.
pub const COPY_FORM: &str = "goat copy IN OUT\n";
/// The form of `join`.
pub const JOIN_FORM: &str = "goat join IN SECOND OUT\n";
/// The form of `disasm`.
pub const DISASM_FORM: &str = "goat disasm IN OUT\n";
/// The form of `asm`.
pub const ASM_FORM: &str = "goat asm IN OUT\n";
/// The form of `selftest`.
pub const SELFTEST_FORM: &str = "goat selftest NUMBER\n";
/// The form of `help`.
pub const HELP_FORM: &str = "goat help [FORM]\n";
/// The form of `version`.
pub const VERSION_FORM: &str = "goat version\n";

// ---- the words

/// An empty line.
pub const BLANK: &str = "\n";
/// IN, where it is a song.
pub const SONG: &str = "  IN        the file of a song (GTS5), at most 262,144 bytes\n";
/// IN, where it is a PSID file.
pub const PSID: &str = "  IN        a PSID v2 file, at most 262,144 bytes\n";
/// SUBTUNE, where it is one of a PSID file's songs.
pub const SONG_OF_A_PSID: &str =
    "  SUBTUNE   which of the file's songs, counted from 1: 0 to 255\n";
/// OUT.
pub const OUT: &str = "  OUT       the file that is written\n";
/// SKIP.
pub const SKIP: &str =
    "  SKIP      what is left out of a frame: none, effects, pulse, both, all;\n";
/// Which SKIP fits a song.
pub const SKIP_OF_A_SONG: &str =
    "            all is for a song that was made with GoatTracker's default settings\n";
/// SPEED.
pub const SPEED: &str = "  SPEED     how often play is called in the time of a picture: 1 to 4\n";
/// What no SKIP and SPEED mean.
pub const UNSAID: &str = "            Without SKIP and SPEED: none 1.\n";
/// SYSTEM.
pub const SYSTEM: &str = "  SYSTEM    the system whose pictures SPEED counts: pal, ntsc\n";
/// CHIP.
pub const CHIP: &str =
    "  CHIP      the SID that a PSID file says the song is made for: 6581, 8580\n";
/// What no SYSTEM and CHIP mean.
pub const NO_SYSTEM: &str = "            Without SYSTEM and CHIP: pal 6581.\n";
/// FRAMES.
pub const FRAMES: &str = "  FRAMES    how many frames: 0 to 100000\n";

// ---- the statuses

/// Status 0, where a file is written.
pub const WROTE: &str = "  0    wrote N bytes\n";
/// Status 0, where lines of registers are printed.
pub const PLAYED: &str = "  0    no other line\n";
/// Status 1.
pub const USAGE: &str = "  1    usage: and the first words of the forms\n";
/// Status 2.
pub const MISSING: &str = "  2    missing: NAME\n";
/// Status 3.
pub const TOO_LONG: &str = "  3    too long: NAME\n";
/// Status 4.
pub const READ_FAULT: &str = "  4    read fault: NAME\n";
/// Status 5.
pub const NOT_A_SONG: &str =
    "  5    not a song: bad magic, or truncated, over limit, bad order, bad row at N\n";
/// Status 6.
pub const UNPLAYABLE: &str =
    "  6    unplayable: no subtune, missing pattern P in subtune S channel C place I,\n";
/// How its line goes on.
pub const UNPLAYABLE_ORDER: &str = "       bad restart in subtune S channel C,\n";
/// And on.
pub const UNPLAYABLE_TABLE: &str =
    "       wave, pulse or filter table ends before row R, or pointer to jump row R\n";
/// Status 7, of a pattern.
pub const LONG_PATTERN: &str = "  7    too large: pattern P packs to L bytes\n";
/// Status 9.
pub const WRITE_FAULT: &str = "  9    write fault: OUT\n";
/// Status 10.
pub const SINK_FAULT: &str = "  10   standard output failed\n";
/// Status 11.
pub const NO_SUBTUNE: &str = "  11   no such subtune: S of K\n";
/// Status 12.
pub const NOT_A_PSID: &str = "  12   not a PSID: bad magic, truncated, unsupported, bad field\n";
/// Status 13.
pub const STOPPED: &str =
    "  13   machine stopped: illegal, break, decimal at $XXXX in call N, or no return in call N\n";
/// Status 14.
pub const NO_MEMORY: &str = "  14   no memory\n";
