//! The bytes with which an image's variables begin, by their labels and in the order of their places.

ghost use Rattle.std.specs.Prelude.{◌≡◌, ◌+◌, ◌/◌, ◌%◌, ◌≤◌, length, slice_index, slice_set, IfOk};
ghost use Rattle.player_memory.specs.declared.labels.TheConstants.{VARIABLES};
ghost use Rattle.player_memory.specs.Starting.{Begins};
ghost use Rattle.kept_lines.specs.Starts.{start_of};
ghost use Rattle.player_image.specs.Images.{numbered, HaveNoPattern, label_at, byte_of, placed};

use base::{ByteList, NoMemory};
use kept_lines::start_of;
use play_model::Options;
use player_memory::labels::{
    FUNK_ONE, FUNK_TWO, GATE, INSTRUMENT, ORDER_HIGH, ORDER_LOW, TEMPO, TICK, VIB_DELAY, VOLUME,
};
use std::alloc::Global;

/// Sets the bytes of a voice that don't begin with 0. They stand `behind` bytes behind those of the first voice, and the
/// voice's orderlist has this address.
fn begin_voice(variables: &mut [u8; 113], behind: usize, order: u16, tempo: u8)
    requires { behind ≤ 14 }
    ensures { variables.new ≡
        slice_set (slice_set (slice_set (slice_set (slice_set (slice_set (slice_set variables.old
        (ORDER_LOW + behind) (order % 256)) (ORDER_HIGH + behind) (order / 256))
        (TICK + behind) 1) (INSTRUMENT + behind) 1) (VIB_DELAY + behind) 255)
        (GATE + behind) 0xFE) (TEMPO + behind) tempo }
{
    variables[ORDER_LOW as usize + behind] = (order % 256) as u8;
    variables[ORDER_HIGH as usize + behind] = (order / 256) as u8;
    variables[TICK as usize + behind] = 1;
    variables[INSTRUMENT as usize + behind] = 1;
    variables[VIB_DELAY as usize + behind] = 255;
    variables[GATE as usize + behind] = 0xfe;
    variables[TEMPO as usize + behind] = tempo;
}

/// The bytes with which the variables begin, each at its label, where the orderlists of the first subtune have these
/// addresses.
pub fn start_variables(options: &Options, orders: [u16; 3]) -> [u8; 113]
    ensures begin { Begins numbered (start_of options.now).tempo (start_of options.now).funk
        (λ voice. slice_index orders voice) (slice_index result) }
    ensures unplayed { HaveNoPattern (slice_index result) }
    ensures size { length result ≡ VARIABLES }
{
    let start = start_of(options);
    let mut variables = [0; 113];
    begin_voice(&mut variables, 0, orders[0], start.tempo);
    begin_voice(&mut variables, 7, orders[1], start.tempo);
    begin_voice(&mut variables, 14, orders[2], start.tempo);
    variables[VOLUME as usize] = 15;
    variables[FUNK_ONE as usize] = start.funk;
    variables[FUNK_TWO as usize] = start.tempo;
    variables
}

/// The byte at a place: that of the first label that has it, 0 where none has.
fn byte_at(variables: &[u8; 113], places: &[u8; 113], place: u8) -> u8
    ensures { result ≡ byte_of variables.now (label_at (slice_index places.now) place) }
{
    for label in 0..113 {
        if places[label] == place {
            return variables[label];
        }
    }
    0
}

/// Bytes that are given by their labels, in the order of their places, of which there are so many.
///
/// # Errors
///
/// Out of memory.
pub fn placed(
    alloc: Global,
    variables: &[u8; 113],
    places: &[u8; 113],
    count: u8,
) -> Result<ByteList, NoMemory>
    ensures { IfOk result (λ bytes. bytes ≡ placed (slice_index places.now) count variables.now) }
{
    let mut bytes = ByteList::new(alloc);
    for place in 0..count {
        bytes.push(byte_at(variables, places, place))?;
    }
    Ok(bytes)
}
