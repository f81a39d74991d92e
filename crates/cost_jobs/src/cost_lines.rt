//! The lines of `parts`: bytes by kind, and the parts of the player with their causes.
#![tactic(auto, using(crate::proofs::Room::pieces_fit))]

ghost use Rattle.std.specs.Prelude.{◌≡◌, ◌<◌, ◌≤◌, ◌++◌, [], ◌∷◌, length, map, get_or, All};
ghost use Rattle.song_places.specs.declared.places.Place.TheVariants.{InOrder, InPattern};
ghost use Rattle.command_line.specs.Last.{last_word};
ghost use Rattle.command_line.specs.Lines.{byte_digits};
ghost use Rattle.command_line.specs.Message.{line_of};
ghost use Rattle.jobs.specs.Costs.{kind_line, kind_lines, part_name, cost_line, part_line, place_words};
ghost use Rattle.jobs.specs.Stands.{sink_state};
ghost use Rattle.jobs.specs.Endings.{LinesEnd};
ghost use Rattle.cost_jobs.specs.Kinds.{kind_name, kind_bytes};

use command_line::{Line, Message, Piece, Refusal, Report, Status};
use goat_io::Sink;
use jobs::put_message;
use song_costs::{Cause, Costs, PART_NAMES, PARTS, PartCost, Place};

/// A kind of bytes in an image, and their sum.
#[derive(Clone, Copy)]
enum Kind {
    Player,
    Orders,
    Patterns,
    Instruments,
    Wave,
    Pulse,
    Filter,
    Speed,
    Frequencies,
    Image,
}

/// The kinds, in the order in which they are told.
const KINDS: [Kind; 10] = [
    Kind::Player,
    Kind::Orders,
    Kind::Patterns,
    Kind::Instruments,
    Kind::Wave,
    Kind::Pulse,
    Kind::Filter,
    Kind::Speed,
    Kind::Frequencies,
    Kind::Image,
];

impl Kind {
    /// What it is called.
    fn name(self) -> &'static str
        ensures name { result.now ≡ kind_name self }
        ensures short { length result.now ≤ 12 }
    {
        match self {
            Kind::Player => "player",
            Kind::Orders => "orderlists",
            Kind::Patterns => "patterns",
            Kind::Instruments => "instruments",
            Kind::Wave => "wave table",
            Kind::Pulse => "pulse table",
            Kind::Filter => "filter table",
            Kind::Speed => "speed table",
            Kind::Frequencies => "frequencies",
            Kind::Image => "image",
        }
    }

    /// How many bytes of it there are.
    fn bytes(self, costs: &Costs) -> u64
        ensures { result ≡ kind_bytes costs.now self }
    {
        match self {
            Kind::Player => u64::from(costs.player),
            Kind::Orders => u64::from(costs.orders),
            Kind::Patterns => u64::from(costs.patterns),
            Kind::Instruments => u64::from(costs.instruments),
            Kind::Wave => u64::from(costs.wave),
            Kind::Pulse => u64::from(costs.pulse),
            Kind::Filter => u64::from(costs.filter),
            Kind::Speed => u64::from(costs.speed),
            Kind::Frequencies => u64::from(costs.frequencies),
            Kind::Image => costs.sum(),
        }
    }
}

/// Prints what a song costs.
///
/// # Errors
///
/// The sink fails; or out of memory.
pub fn show_costs<K: Sink>(
    costs: &Costs,
    told: &[PartCost],
    line: &mut Line,
    out: &mut K,
) -> Result<Report<'static>, Refusal<'static>>
    requires { All (λ cost. cost.part < PARTS) told.now }
    ensures { LinesEnd (kind_lines costs.now ++ map part_line told.now) (last_word result)
        (sink_state (K.written out.old) (K.faults out.old))
        (sink_state (K.written out.new) (K.faults out.new)) }
{
    show_kinds(costs, line, out)?;
    show_parts(told, line, out)
}

/// Prints a line for each kind of bytes, and for their sum.
///
/// # Errors
///
/// The sink fails; or out of memory.
fn show_kinds<K: Sink>(
    costs: &Costs,
    line: &mut Line,
    out: &mut K,
) -> Result<Report<'static>, Refusal<'static>>
    ensures { LinesEnd (kind_lines costs.now) (last_word result)
        (sink_state (K.written out.old) (K.faults out.old))
        (sink_state (K.written out.new) (K.faults out.new)) }
{
    for kind in &KINDS {
        let message = kind_message(kind.name(), kind.bytes(costs));
        put_message(&message, line, out)?;
    }
    Ok(Report::Shown)
}

/// Prints a line for each part.
///
/// # Errors
///
/// The sink fails; or out of memory.
fn show_parts<K: Sink>(
    told: &[PartCost],
    line: &mut Line,
    out: &mut K,
) -> Result<Report<'static>, Refusal<'static>>
    requires { All (λ cost. cost.part < PARTS) told.now }
    ensures { LinesEnd (map part_line told.now) (last_word result)
        (sink_state (K.written out.old) (K.faults out.old))
        (sink_state (K.written out.new) (K.faults out.new)) }
{
    for cost in told {
        put_message(&part_message(cost), line, out)?;
    }
    Ok(Report::Shown)
}

/// The line of a kind of bytes.
fn kind_message(name: &'static str, bytes: u64) -> Message<'static>
    requires { length name.now ≤ 12 }
    ensures { line_of result.pieces ≡ kind_line name.now bytes }
{
    Message::new(
        Status::Done,
        &[
            Piece::Words(name),
            Piece::Words(" "),
            Piece::Number(bytes),
            Piece::Words(" bytes"),
        ],
    )
}

/// The name of a part.
fn part_name(part: u8) -> &'static str
    requires { part < PARTS }
    ensures name { result.now ≡ part_name part }
    ensures short { length result.now ≤ 24 }
{
    name_in(&PART_NAMES, part)
}

/// The name with this number among names.
fn name_in(names: &'static [&'static str], number: u8) -> &'static str
    requires { number < length names.now }
    ensures { result.now ≡ get_or (map (λ name. name.now) names.now) number [] }
{
    names[usize::from(number)]
}

/// The line of a part.
fn part_message(cost: &PartCost) -> Message<'static>
    requires { cost.now.part < PARTS }
    ensures { line_of result.pieces ≡ part_line cost.now }
{
    match cost.cause {
        Cause::InSong(
            Place::InOrder {
                subtune,
                channel,
                place,
            },
        ) => order_message(cost, subtune, channel, place),
        Cause::InSong(Place::InPattern { pattern, row }) => row_message(cost, pattern, row),
        Cause::InSong(Place::InInstrument { instrument }) => {
            place_message(cost, "instrument ", instrument)
        }
        Cause::InSong(Place::InWaveTable { row }) => place_message(cost, "wave row ", row),
        Cause::SkipOption => option_message(cost, "SKIP"),
        Cause::SpeedOption => option_message(cost, "SPEED"),
    }
}

/// The line of a part that a place of an orderlist needs.
fn order_message(cost: &PartCost, subtune: u8, channel: u8, place: u8) -> Message<'static>
    requires { cost.now.part < PARTS }
    ensures { line_of result.pieces ≡
        cost_line cost.now.part cost.now.bytes (place_words (InOrder subtune channel place)) }
{
    Message::new(
        Status::Done,
        &[
            Piece::Words(part_name(cost.part)),
            Piece::Words(" "),
            Piece::Number(u64::from(cost.bytes)),
            Piece::Words(" bytes, "),
            Piece::Words("subtune "),
            Piece::Number(u64::from(subtune)),
            Piece::Words(" channel "),
            Piece::Number(u64::from(channel)),
            Piece::Words(" place "),
            Piece::Byte(place),
        ],
    )
}

/// The line of a part that a row of a pattern needs.
fn row_message(cost: &PartCost, pattern: u8, row: u8) -> Message<'static>
    requires { cost.now.part < PARTS }
    ensures { line_of result.pieces ≡
        cost_line cost.now.part cost.now.bytes (place_words (InPattern pattern row)) }
{
    Message::new(
        Status::Done,
        &[
            Piece::Words(part_name(cost.part)),
            Piece::Words(" "),
            Piece::Number(u64::from(cost.bytes)),
            Piece::Words(" bytes, "),
            Piece::Words("pattern "),
            Piece::Byte(pattern),
            Piece::Words(" row "),
            Piece::Byte(row),
        ],
    )
}

/// The line of a part that a place with one number needs.
fn place_message(cost: &PartCost, words: &'static str, number: u8) -> Message<'static>
    requires part { cost.now.part < PARTS }
    requires words { length words.now ≤ 11 }
    ensures { line_of result.pieces ≡
        cost_line cost.now.part cost.now.bytes (words.now ∷ byte_digits number ∷ []) }
{
    Message::new(
        Status::Done,
        &[
            Piece::Words(part_name(cost.part)),
            Piece::Words(" "),
            Piece::Number(u64::from(cost.bytes)),
            Piece::Words(" bytes, "),
            Piece::Words(words),
            Piece::Byte(number),
        ],
    )
}

/// The line of a part that an option asks for.
fn option_message(cost: &PartCost, word: &'static str) -> Message<'static>
    requires part { cost.now.part < PARTS }
    requires word { length word.now ≤ 5 }
    ensures { line_of result.pieces ≡ cost_line cost.now.part cost.now.bytes (word.now ∷ []) }
{
    Message::new(
        Status::Done,
        &[
            Piece::Words(part_name(cost.part)),
            Piece::Words(" "),
            Piece::Number(u64::from(cost.bytes)),
            Piece::Words(" bytes, "),
            Piece::Words(word),
        ],
    )
}
