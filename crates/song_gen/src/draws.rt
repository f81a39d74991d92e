//! Numbers that are drawn one after the other.

ghost use Rattle.std.specs.Prelude.{◌≡◌, ◌<◌, ◌≤◌};
ghost use Rattle.song_gen.specs.Draws.{next, draw};

/// Where the drawing stands: the last number of the generator.
#[derive(Clone, Copy, Debug, PartialEq, Eq)]
pub(crate) struct Draws {
    /// That number.
    pub number: u64,
}

impl Draws {
    /// The next draw, below a limit of at most 256.
    #[tactic(auto, unfolding(crate::specs::Draws::draw, crate::specs::Draws::after, crate::specs::Draws::next))]
    pub fn below(&mut self, limit: u64) -> u8
        requires some { 0 < limit }
        requires most { limit ≤ 256 }
        ensures drawn { result ≡ draw self.old.number 0 limit }
        ensures small { result < limit }
        ensures next { self.new.number ≡ next self.old.number }
    {
        self.number = self
            .number
            .wrapping_mul(6_364_136_223_846_793_005)
            .wrapping_add(1_442_695_040_888_963_407);
        ((self.number >> 33) % limit) as u8
    }
}
