//! Where the variables stand.

ghost use Rattle.std.specs.Prelude.{◌≡◌, ◌≢◌, ◌≤◌, ◌<◌, ◌/◌, ◌%◌, ℕ, length, slice_index};
ghost use Rattle.scope_lines.specs.Readings.{holds_in};
ghost use Rattle.player_memory.specs.Labels.{is_shared};
ghost use Rattle.variable_places.specs.Places.{has_byte, voice_of, base_of, position_in, voice_labels, field_count};
ghost use Rattle.variable_places.specs.Places.{other_labels, other_count, own_place, field_at, free_place, funk_place};
ghost use Rattle.variable_places.specs.Places.{shared_place, voice_place, place_of, variable_count};

use crate::standing::{is_standing, position_in, standing_count};
use player_memory::labels::{FUNK_ONE, FUNK_TWO, VARIABLES};
use player_memory::variables::{SHARED_VARIABLES, VOICE_VARIABLES};
use scope_lines::Conditions;

/// The place of each variable, by its label, counted from the first byte, 0 for one that has none; and how many places
/// there are, holes among them.
#[derive(Clone, Copy, Debug)]
pub struct Places {
    pub places: [u8; 113],
    pub count: u8,
}

/// Whether a label is one of a byte of all voices.
fn is_shared(label: u16) -> bool
    ensures { result ≡ is_shared label }
{
    label < VARIABLES && (label >= 105 || label == 90 || label == 97 || label == 104)
}

/// The voice of a voice's byte.
fn voice_of(label: u16) -> u8
    ensures voice { result ≡ voice_of label }
    ensures three { result < 3 }
{
    (label % 21 / 7) as u8
}

/// The label of the first voice's byte.
fn base_of(label: u16) -> u16
    ensures { result ≡ base_of label }
{
    label - 7 * u16::from(voice_of(label))
}

/// Whether a variable has a byte.
#[tactic(auto, unfolding(crate::specs::Places::has_byte, crate::specs::Places::asks, crate::specs::Places::shared_rows, crate::specs::Places::voice_rows))]
fn has_byte(conditions: Conditions, label: u16) -> bool
    requires { label < VARIABLES }
    ensures { result ≡ has_byte (holds_in conditions.0) label }
{
    if is_shared(label) {
        is_standing(conditions, &SHARED_VARIABLES, label)
    } else {
        is_standing(conditions, &VOICE_VARIABLES, base_of(label))
    }
}

/// How many fields each voice has.
#[tactic(auto, unfolding(crate::specs::Places::voice_labels, crate::specs::Places::voice_rows))]
fn field_count(conditions: Conditions) -> u8
    ensures count { result ≡ field_count (holds_in conditions.0) }
    ensures most { result ≤ 34 }
{
    standing_count(conditions, &VOICE_VARIABLES)
}

/// How many bytes there are of all voices, but for the funk tempos.
#[tactic(auto, unfolding(crate::specs::Places::other_labels, crate::specs::Places::shared_rows))]
fn other_count(conditions: Conditions) -> u8
    ensures count { result ≡ other_count (holds_in conditions.0) }
    ensures most { result ≤ 9 }
{
    standing_count(conditions, &SHARED_VARIABLES[..9])
}

/// The place of a voice's byte.
fn own_place(field: u8, voice: u8) -> u8
    requires few { field ≤ 34 }
    requires voices { voice < 3 }
    ensures place { result ≡ own_place field voice }
    ensures most { result < 113 }
{
    21 * (field / 7) + field % 7 + 7 * voice
}

/// The free place of a number, where the voices have so many fields.
#[tactic(auto, unfolding(crate::specs::Places::free_places))]
fn free_place(fields: u8, number: u8) -> u8
    ensures place { result ≡ free_place fields number }
    ensures most { result < 113 }
{
    let mut left = number;
    for place in 0..113u8 {
        if 7 * (place / 21) + place % 7 >= fields {
            if left == 0 {
                return place;
            }
            left -= 1;
        }
    }
    0
}

/// The first place behind all bytes but the funk tempos.
#[tactic(auto, unfolding(crate::specs::Places::funk_place))]
fn funk_place(conditions: Conditions, fields: u8) -> u8
    requires fields { fields ≡ field_count (holds_in conditions.0) }
    requires few { fields ≤ 34 }
    ensures place { result ≡ funk_place (holds_in conditions.0) }
    ensures most { result ≤ 113 }
{
    let voices = own_place(fields.saturating_sub(1), 2) + 1;
    let count = other_count(conditions);
    let others = if count == 0 {
        0
    } else {
        free_place(fields, count - 1) + 1
    };
    voices.max(others)
}

/// The place of a byte of all voices.
#[tactic(auto, unfolding(crate::specs::Places::other_labels, crate::specs::Places::shared_rows))]
fn shared_place(conditions: Conditions, fields: u8, funk: u8, label: u16) -> u8
    requires fields { fields ≡ field_count (holds_in conditions.0) }
    requires funk { funk ≡ funk_place (holds_in conditions.0) }
    requires room { funk ≤ 113 }
    ensures { result ≡ shared_place (holds_in conditions.0) label }
{
    match label {
        FUNK_ONE => funk,
        FUNK_TWO => funk + 1,
        _ => free_place(
            fields,
            position_in(conditions, &SHARED_VARIABLES[..9], label),
        ),
    }
}

/// The place of a voice's byte, by its label.
#[tactic(auto, unfolding(crate::specs::Places::voice_labels, crate::specs::Places::voice_rows))]
fn voice_place(conditions: Conditions, label: u16) -> u8
    ensures { result ≡ voice_place (holds_in conditions.0) label }
{
    let field = position_in(conditions, &VOICE_VARIABLES, base_of(label));
    own_place(field, voice_of(label))
}

/// The place of a variable.
#[tactic(auto, unfolding(crate::specs::Places::place_of))]
fn place_of(conditions: Conditions, fields: u8, funk: u8, label: u16) -> u8
    requires variable { label < VARIABLES }
    requires fields { fields ≡ field_count (holds_in conditions.0) }
    requires funk { funk ≡ funk_place (holds_in conditions.0) }
    requires room { funk ≤ 113 }
    ensures { result ≡ place_of (holds_in conditions.0) label }
{
    if !has_byte(conditions, label) {
        0
    } else if is_shared(label) {
        shared_place(conditions, fields, funk, label)
    } else {
        voice_place(conditions, label)
    }
}

/// The places of the variables where these conditions hold.
#[tactic(auto, unfolding(crate::specs::Places::variable_count))]
pub fn variable_places(conditions: Conditions) -> Places
    ensures places { (label : ℕ) → label < VARIABLES →
        slice_index result.places label ≡ place_of (holds_in conditions.0) label }
    ensures count { result.count ≡ variable_count (holds_in conditions.0) }
{
    let fields = field_count(conditions);
    let funk = funk_place(conditions, fields);
    let mut places = [0; 113];
    for label in 0..VARIABLES {
        places[usize::from(label)] = place_of(conditions, fields, funk, label);
    }
    let count = if has_byte(conditions, FUNK_ONE) {
        funk + 2
    } else {
        funk
    };
    Places { places, count }
}
