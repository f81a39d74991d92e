//! The filter step: one row of the filter program, or one frame of it.

ghost use Rattle.std.specs.Prelude.{◌≡◌};
ghost use Rattle.play_model.specs.LookUps.{look_ups_of};
ghost use Rattle.play_model.specs.FilterStep.{filter_set, filter_cutoff, filter_slide, filter_row, filter_step};

use crate::tables::{following_row, next_row};
use play_model::CommonState;
use song_model::{Song, TableName, TableRow};

/// The filter step, the first thing in a frame: the filter program's row begins, or goes on for a frame.
#[tactic(auto, unfolding(play_model::specs::FilterStep::filter_step))]
pub fn filter_step(common: &mut CommonState, song: &Song)
    ensures { common.new ≡ filter_step (look_ups_of song.now) common.old }
{
    if common.filter_ptr != 0 {
        let row = song.row_or_zero(TableName::Filter, common.filter_ptr);
        filter_row(common, song, row);
    }
}

/// What the program's row does in this frame.
fn filter_row(common: &mut CommonState, song: &Song, row: TableRow)
    ensures { common.new ≡ filter_row (look_ups_of song.now) row common.old }
{
    let time = common.filter_time;
    if time == 0 && row.left >= 0x80 {
        let following = following_row(song, TableName::Filter, u16::from(common.filter_ptr));
        filter_set(common, song, row, following);
    } else if time == 0 && row.left == 0 {
        filter_cutoff(common, song, row);
    } else {
        filter_slide(common, song, row, if time == 0 { row.left } else { time });
    }
}

/// Sets the filter's kind and its control, and the cutoff where the row after it is `$00`.
fn filter_set(common: &mut CommonState, song: &Song, row: TableRow, following: TableRow)
    ensures { common.new ≡ filter_set (look_ups_of song.now) row following common.old }
{
    let here = u16::from(common.filter_ptr);
    common.filter_type = row.left & 0x70;
    common.filter_control = row.right;
    if following.left == 0 {
        common.cutoff = following.right;
        common.filter_ptr = next_row(song, TableName::Filter, here + 1);
    } else {
        common.filter_ptr = next_row(song, TableName::Filter, here);
    }
}

/// Sets the cutoff.
fn filter_cutoff(common: &mut CommonState, song: &Song, row: TableRow)
    ensures { common.new ≡ filter_cutoff (look_ups_of song.now) row common.old }
{
    let here = u16::from(common.filter_ptr);
    common.cutoff = row.right;
    common.filter_ptr = next_row(song, TableName::Filter, here);
}

/// One frame of a slide of the cutoff, which lasts as many frames as `time` says.
fn filter_slide(common: &mut CommonState, song: &Song, row: TableRow, time: u8)
    ensures { common.new ≡ filter_slide (look_ups_of song.now) row time common.old }
{
    let here = u16::from(common.filter_ptr);
    let cutoff = common.cutoff;
    let left = time.wrapping_sub(1);
    common.cutoff = cutoff.wrapping_add(row.right);
    common.filter_time = left;
    if left == 0 {
        common.filter_ptr = next_row(song, TableName::Filter, here);
    }
}
