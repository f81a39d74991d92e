//! The texts of the forms that take a PSID file or a listing.

use crate::help::shared::*;

/// `run`.
pub const RUN: &[&str] = &[
    RUN_FORM,
    "Runs a PSID file on a 6502 machine: init, and then play for each frame. Prints the lines of trace.\n",
    BLANK,
    PSID,
    SONG_OF_A_PSID,
    FRAMES,
    BLANK,
    PLAYED,
    USAGE,
    MISSING,
    TOO_LONG,
    READ_FAULT,
    SINK_FAULT,
    NO_SUBTUNE,
    NOT_A_PSID,
    STOPPED,
    NO_MEMORY,
];

/// `measure`.
pub const MEASURE: &[&str] = &[
    MEASURE_FORM,
    "Tells how long each subtune of a PSID file is, and how many clock cycles its calls take at most.\n",
    "A raster line has 63 cycles (PAL). Where a subtune repeats, what is told of it holds for every\n",
    "call there will ever be.\n",
    BLANK,
    PSID,
    "  CALLS     how many plays are looked at, at most: 1 to 1000000\n",
    BLANK,
    "  0    for each subtune: subtune S: init C, play at most D in call N, repeats from A after B:\n",
    "       the cycles of init and of the dearest play, that play's number, counted from 1, and that\n",
    "       the state of the machine after play A comes again after B plays more. Where none does in\n",
    "       CALLS plays, the line ends with not repeated in CALLS calls\n",
    USAGE,
    MISSING,
    TOO_LONG,
    READ_FAULT,
    SINK_FAULT,
    NOT_A_PSID,
    STOPPED,
    NO_MEMORY,
];

/// `chart`.
pub const CHART: &[&str] = &[
    CHART_FORM,
    "Draws how many clock cycles each play of a subtune of a PSID file takes, as a picture (SVG).\n",
    "Calls go from left to right, cycles and raster lines (63 cycles, PAL) upwards. It shows the\n",
    "greatest and the mean of each column's calls, the dearest call, and where the song begins again.\n",
    BLANK,
    PSID,
    OUT,
    SONG_OF_A_PSID,
    "  CALLS     how many plays are drawn: 1 to 100000\n",
    BLANK,
    WROTE,
    USAGE,
    MISSING,
    TOO_LONG,
    READ_FAULT,
    WRITE_FAULT,
    SINK_FAULT,
    NO_SUBTUNE,
    NOT_A_PSID,
    STOPPED,
    NO_MEMORY,
];

/// `disasm`.
pub const DISASM: &[&str] = &[
    DISASM_FORM,
    "Writes a listing of the image in a PSID file, as text that asm takes.\n",
    BLANK,
    PSID,
    OUT,
    BLANK,
    WROTE,
    USAGE,
    MISSING,
    TOO_LONG,
    READ_FAULT,
    WRITE_FAULT,
    SINK_FAULT,
    NOT_A_PSID,
    NO_MEMORY,
];

/// `asm`.
pub const ASM: &[&str] = &[
    ASM_FORM,
    "Assembles a listing, and writes its bytes behind their address: a raw file.\n",
    BLANK,
    "  IN        a listing, at most 1,048,576 bytes\n",
    OUT,
    BLANK,
    WROTE,
    USAGE,
    MISSING,
    TOO_LONG,
    READ_FAULT,
    WRITE_FAULT,
    SINK_FAULT,
    NO_MEMORY,
    "  17   asm line N: bad line, double label, unknown label, past end, branch too far\n",
];
