//! The walk along an orderlist, a play at a time.

ghost use Rattle.std.specs.Prelude.{◌≡◌, ℕ, ◌+◌, ◌<◌, ◌≤◌, ◌↔◌, length, slice_index};
ghost use Rattle.std.specs.Prelude.{slice_index_or, IsTrue};
ghost use Rattle.song_model.specs.Walk.{transpose_after, repeat_after, no_step, played};
ghost use Rattle.song_model.specs.Endless.{IsEndless, IsPatternByte};
ghost use Rattle.song_model.specs.Places.{first_place, restarted, place_of};
ghost use Rattle.song_model.specs.WalkRest.{plays_from, places_from, coming_plays, coming_places, IsSameRest, IsOnWalk};

use crate::{Order, OrderPlace, Step};

impl Order {
    /// Whether the restart position is the place of an entry, and a pattern stands from there to the end.
    pub fn sound(&self) -> bool
        ensures { IsTrue result ↔ IsEndless self.now }
    {
        let entries = self.entries.as_slice();
        let restart = usize::from(self.restart);
        restart < entries.len() && entries[restart..].iter().any(|byte| *byte < 0xd0)
    }

    /// The place of play 0: the first entry, no transpose and no repeat.
    #[tactic(auto, unfolding(crate::specs::Places::place_of))]
    pub fn first(&self) -> OrderPlace
        ensures { result ≡ place_of self.now 0 }
    {
        OrderPlace {
            place: 0,
            transpose: 0,
            repeat: 0,
        }
    }

    /// The play at a place that `first` or `step` has given, and the place of the play after it.
    /// While a pattern has plays left the place stays on it, and the repeat is one less; after the
    /// last entry it is the restart position.
    pub fn step(&self, at: OrderPlace) -> (Step, OrderPlace)
        requires endless { IsEndless self.now }
        requires place { (i : ℕ) × (at ≡ place_of self.now i) }
        ensures step { (i : ℕ) → at ≡ place_of self.now i → result.0 ≡ played self.now i }
        ensures place { (i : ℕ) → at ≡ place_of self.now i → result.1 ≡ place_of self.now (i + 1) }
    {
        let here = self.next_pattern(at);
        (self.play_at(here), self.after_play(here))
    }

    /// The play of the pattern at this place.
    fn play_at(&self, here: OrderPlace) -> Step
        requires inside { here.place < length self.now.entries }
        requires pattern { IsPatternByte (slice_index self.now.entries here.place) }
        ensures { result ≡ slice_index_or (plays_from self.now.entries here) 0 no_step }
    {
        Step {
            pattern: self.entries.as_slice()[usize::from(here.place)],
            transpose: here.transpose,
        }
    }

    /// The place of the next pattern, in this round or in the next one.
    fn next_pattern(&self, at: OrderPlace) -> OrderPlace
        requires endless { IsEndless self.now }
        requires on_walk { IsOnWalk self.now at }
        ensures inside { result.place < length self.now.entries }
        ensures pattern { IsPatternByte (slice_index self.now.entries result.place) }
        ensures play { slice_index_or (coming_plays self.now at) 0 no_step ≡
            slice_index_or (plays_from self.now.entries result) 0 no_step }
        ensures place { slice_index_or (coming_places self.now at) 0 first_place ≡
            slice_index_or (places_from self.now.entries result) 0 first_place }
    {
        let here = self.along(at);
        if usize::from(here.place) < self.entries.as_slice().len() {
            return here;
        }
        let mut again = here;
        again.place = self.restart;
        self.along(again)
    }

    /// Goes along to the next pattern, or to the end.
    fn along(&self, from: OrderPlace) -> OrderPlace
        requires { from.place ≤ length self.now.entries }
        ensures inside { result.place ≤ length self.now.entries }
        ensures pattern { result.place < length self.now.entries →
            IsPatternByte (slice_index self.now.entries result.place) }
        ensures rest { IsSameRest self.now.entries from result }
    {
        let entries = self.entries.as_slice();
        let end = entries.len() as u8;
        let mut transpose = from.transpose;
        let mut repeat = from.repeat;
        for place in from.place..end {
            let byte = entries[usize::from(place)];
            if byte < 0xd0 {
                return OrderPlace {
                    place,
                    transpose,
                    repeat,
                };
            }
            transpose = transpose_after(byte, transpose);
            repeat = repeat_after(byte, repeat);
        }
        OrderPlace {
            place: end,
            transpose,
            repeat,
        }
    }

    /// Where the walk stands after a play of the pattern at this place.
    fn after_play(&self, here: OrderPlace) -> OrderPlace
        requires inside { here.place < length self.now.entries }
        requires pattern { IsPatternByte (slice_index self.now.entries here.place) }
        ensures { result ≡ restarted self.now
            (slice_index_or (places_from self.now.entries here) 0 first_place) }
    {
        let end = self.entries.as_slice().len();
        let mut after = here;
        if after.repeat > 0 {
            after.repeat -= 1;
            return after;
        }
        after.place += 1;
        if usize::from(after.place) == end {
            after.place = self.restart;
        }
        after
    }
}

/// The transpose after a byte, in half tones.
fn transpose_after(byte: u8, transpose: i8) -> i8
    ensures { result ≡ transpose_after byte transpose }
{
    if byte < 0xe0 {
        transpose
    } else {
        (i16::from(byte) - 0xf0) as i8
    }
}

/// The repeat after a byte.
fn repeat_after(byte: u8, repeat: u8) -> u8
    ensures { result ≡ repeat_after byte repeat }
{
    match byte {
        0x00..=0xcf => 0,
        0xd0..=0xdf => byte - 0xd0,
        _ => repeat,
    }
}
