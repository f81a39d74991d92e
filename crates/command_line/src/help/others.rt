//! The list of all forms, and the texts of the forms that take no file.

use crate::help::shared::*;

/// All forms, each with what it does and an example.
pub const ALL: &[&str] = &[
    "goat, a Commodore 64 music tracker without a screen\n",
    BLANK,
    CHECK_FORM,
    "    tells what a song uses: goat check lantern.sng\n",
    PARTS_FORM,
    "    tells what a song costs when it is packed, and why: goat parts lantern.sng none 1\n",
    BOUND_FORM,
    "    tells how many cycles a call takes at most: goat bound lantern.sng lantern.bound none 1\n",
    BOUND_CHECK_FORM,
    "    checks such numbers: goat bound-check lantern.sng lantern.bound none 1\n",
    TRACE_FORM,
    "    plays a song, and prints the SID's registers: goat trace lantern.sng 1 300\n",
    PACK_FORM,
    "    packs a song with a 6502 player: goat pack lantern.sng lantern.sid psid 1000 FC\n",
    RUN_FORM,
    "    runs a PSID file, and prints the SID's registers: goat run lantern.sid 1 300\n",
    MEASURE_FORM,
    "    tells how long a PSID file's songs are, and what a call costs: goat measure lantern.sid 100000\n",
    CHART_FORM,
    "    draws what each call costs: goat chart lantern.sid lantern.svg 1 3000\n",
    SHOW_FORM,
    "    writes a song as a script: goat show lantern.sng shown.txt\n",
    EDIT_FORM,
    "    edits a song by a script: goat edit empty.sng shown.txt again.sng\n",
    COPY_FORM,
    "    writes a song in its canonical spelling: goat copy lantern.sng tidy.sng\n",
    JOIN_FORM,
    "    writes two songs as one: goat join title.sng game.sng both.sng\n",
    DISASM_FORM,
    "    writes the code of a PSID file as a listing: goat disasm lantern.sid lantern.asm\n",
    ASM_FORM,
    "    assembles a listing: goat asm lantern.asm lantern.raw\n",
    SELFTEST_FORM,
    "    makes a song from a number, packs it and runs it: goat selftest 0\n",
    HELP_FORM,
    "    tells the words, the statuses and the lines of a form: goat help pack\n",
    VERSION_FORM,
    "    tells the version: goat version\n",
    BLANK,
    "--help and -h are help, --version is version. Status 1 is for words of no form.\n",
];

/// `selftest`.
pub const SELFTEST: &[&str] = &[
    SELFTEST_FORM,
    "Makes a song from a number, plays it, packs it, and runs the packed file.\n",
    BLANK,
    "  NUMBER    which song: 0 to 18446744073709551615\n",
    BLANK,
    "  0    selftest NUMBER: S subtunes, 300 frames, sum XXXXXXXX, T steps\n",
    USAGE,
    SINK_FAULT,
    NO_MEMORY,
];

/// `help`.
pub const HELP: &[&str] = &[
    HELP_FORM,
    "Tells of all forms, or of one.\n",
    BLANK,
    "  FORM      the first word of a form\n",
    BLANK,
    "  0    the lines\n",
    USAGE,
    SINK_FAULT,
    NO_MEMORY,
];

/// `version`.
pub const VERSION: &[&str] = &[
    VERSION_FORM,
    "Tells the version, and what it was proved with.\n",
    BLANK,
    "  0    the lines\n",
    USAGE,
    SINK_FAULT,
    NO_MEMORY,
];

/// What `version` prints.
pub const VERSION_LINES: &[&str] = &[
    "goat 1.0.0\n",
    "proved with rattle-kit-13f logic dac8208d650f15bf\n",
];
