//! The rules on orderlists: each names stored patterns, and never ends.

ghost use Rattle.std.specs.Prelude.{◌≡◌, ℕ, ◌≤◌, length, All, IfSome, IfNone, IfErr, OnOk};
ghost use Rattle.base.specs.FirstBad.{IsFirstBad};
ghost use Rattle.play_model.specs.Playable.{IsFirst, HasOrder};
ghost use Rattle.usage.specs.Search.{IsNowhere, IsStoredByte, IsSubtuneOf, FailsAt, FailsIn, FailsBy};

use play_model::Unplayable;
use song_model::{Order, Song, Subtune};

/// A rule on the orderlists of playable subtunes.
#[derive(Clone, Copy)]
pub(crate) enum OrderRule {
    /// Each pattern that is named is stored.
    NamesStored,
    /// The restart position is the place of an entry, and a pattern stands from there to the end.
    NeverEnds,
}

/// The place of the first byte that names a pattern above these many.
fn first_missing(entries: &[u8], patterns: usize) -> Option<u8>
    requires { length entries.now ≤ 254 }
    ensures found { IfSome result (IsFirstBad (IsStoredByte patterns) entries.now) }
    ensures none { IfNone result (All (IsStoredByte patterns) entries.now) }
{
    for (i, byte) in entries.iter().enumerate() {
        if *byte < 0xd0 && usize::from(*byte) >= patterns {
            return Some(i as u8);
        }
    }
    None
}

/// Looks whether an orderlist keeps the rule that it names stored patterns.
///
/// # Errors
///
/// The first pattern that it names and that isn't stored.
fn check_names(song: &Song, subtune: u8, channel: u8, order: &Order) -> Result<(), Unplayable>
    requires { HasOrder song.now subtune channel order.now }
    ensures found { IfErr result
        (IsFirst (FailsAt OrderRule.NamesStored song.now subtune channel)) }
    ensures none { OnOk result
        (IsNowhere (FailsAt OrderRule.NamesStored song.now subtune channel)) }
{
    let entries = order.entries.as_slice();
    match first_missing(entries, song.patterns.as_slice().len()) {
        Some(place) => Err(Unplayable::MissingPattern {
            subtune,
            channel,
            place,
            pattern: entries[usize::from(place)],
        }),
        None => Ok(()),
    }
}

/// Looks whether an orderlist keeps the rule that it never ends.
///
/// # Errors
///
/// It doesn't.
fn check_end(song: &Song, subtune: u8, channel: u8, order: &Order) -> Result<(), Unplayable>
    requires { HasOrder song.now subtune channel order.now }
    ensures found { IfErr result (IsFirst (FailsAt OrderRule.NeverEnds song.now subtune channel)) }
    ensures none { OnOk result (IsNowhere (FailsAt OrderRule.NeverEnds song.now subtune channel)) }
{
    // Named in the contract alone.
    let _song = song;
    if order.sound() {
        Ok(())
    } else {
        Err(Unplayable::BadRestart { subtune, channel })
    }
}

/// Looks whether an orderlist keeps a rule.
///
/// # Errors
///
/// The first place where it breaks the rule.
fn check_order(
    song: &Song,
    rule: OrderRule,
    subtune: u8,
    channel: u8,
    order: &Order,
) -> Result<(), Unplayable>
    requires { HasOrder song.now subtune channel order.now }
    ensures found { IfErr result (IsFirst (FailsAt rule song.now subtune channel)) }
    ensures none { OnOk result (IsNowhere (FailsAt rule song.now subtune channel)) }
{
    match rule {
        OrderRule::NamesStored => check_names(song, subtune, channel, order),
        OrderRule::NeverEnds => check_end(song, subtune, channel, order),
    }
}

/// Looks whether the orderlists of a subtune keep a rule, if it can be played.
///
/// # Errors
///
/// The first place where one of them breaks it.
fn check_subtune(
    song: &Song,
    rule: OrderRule,
    number: u8,
    subtune: &Subtune,
) -> Result<(), Unplayable>
    requires { IsSubtuneOf song.now number subtune.now }
    ensures found { IfErr result (IsFirst (FailsIn rule song.now number)) }
    ensures none { OnOk result (IsNowhere (FailsIn rule song.now number)) }
{
    if !subtune.is_playable() {
        return Ok(());
    }
    check_order(song, rule, number, 1, &subtune.one)?;
    check_order(song, rule, number, 2, &subtune.two)?;
    check_order(song, rule, number, 3, &subtune.three)
}

/// Looks whether the orderlists of all playable subtunes keep a rule.
///
/// # Errors
///
/// The first place where one of them breaks it.
#[tactic(auto, using(crate::proofs::OrderRules::first_in_song))]
pub(crate) fn check_orders(song: &Song, rule: OrderRule) -> Result<(), Unplayable>
    ensures found { IfErr result (IsFirst (FailsBy rule song.now)) }
    ensures none { OnOk result (IsNowhere (FailsBy rule song.now)) }
{
    let subtunes = song.subtunes.as_slice();
    for (i, subtune) in subtunes.iter().enumerate() {
        check_subtune(song, rule, i as u8 + 1, subtune)?;
    }
    Ok(())
}
