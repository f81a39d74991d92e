//! How a song is played: what is left out of a frame, and how often the play call comes.

ghost use Rattle.std.specs.Prelude.{◌≡◌, ◌↔◌, true, false, IsNone, IfSome};
ghost use Rattle.play_model.specs.declared.options.System.TheVariants.{Pal};
ghost use Rattle.play_model.specs.Speeds.{IsSpeed, picture_cycles, timer_value};
ghost use Rattle.play_model.specs.State.{no_options, at_speed};

use std::marker::Model;

/// The highest speed of a player.
pub const HIGHEST_SPEED: u8 = 4;

/// How often the play call comes in the time of one picture: 1 to 4.
#[derive(Clone, Copy, Debug, PartialEq, Eq)]
pub struct Speed {
    calls: u8,
}

impl Model for Speed {
    ghost use Rattle.std.specs.Prelude.{ℕ};
    ghost use Rattle.play_model.specs.Speeds.{IsSpeed};

    ghost Value = { ℕ };

    ghost view = { λ speed. speed.calls };

    ghost inverse = { λ n. record { calls = n } };

    ghost invariant = { λ speed. IsSpeed speed.calls };
}

impl Speed {
    /// The speed of this many play calls; none for 0 and above 4.
    pub fn new(calls: u8) -> Option<Speed>
        ensures none { IsNone result ↔ ¬ IsSpeed calls }
        ensures some { IfSome result (λ speed. speed ≡ calls) }
    {
        if calls == 0 || calls > HIGHEST_SPEED {
            return None;
        }
        Some(Speed { calls })
    }

    /// The play calls in the time of one picture.
    pub fn calls(self) -> u8
        ensures calls { result ≡ self }
        ensures range { IsSpeed result }
    {
        self.calls
    }
}

/// Whose pictures a speed counts: those of a C64 for the PAL system, some 50 a second, or for NTSC, some 60.
#[derive(Clone, Copy, Debug, PartialEq, Eq)]
pub enum System {
    Pal,
    Ntsc,
}

impl System {
    /// The cycles of a picture.
    fn picture_cycles(self) -> u16
        ensures { result ≡ picture_cycles self }
    {
        match self {
            System::Pal => 63 * 312,
            System::Ntsc => 65 * 263,
        }
    }
}

/// How a song is played: which steps of a frame are left out where a row is fetched or done, to save time, how often
/// the play call comes, and on which system. No frame depends on the system, only the timer that calls for it and what a
/// file says of itself.
#[derive(Clone, Copy, Debug, PartialEq, Eq)]
pub struct Options {
    /// The effect step is left out at tick 0.
    pub skip_effects: bool,
    /// The pulse step is left out where the row is fetched.
    pub skip_pulse: bool,
    /// The pulse step is left out at tick 0 between two patterns: the next row is the first of its pattern.
    pub skip_first: bool,
    /// The play calls in the time of one picture: 1 to 4.
    pub speed: Speed,
    /// The system whose pictures these are.
    pub system: System,
}

impl Options {
    /// Nothing is left out of a frame: the word `none`.
    pub fn none(speed: Speed) -> Options
        ensures { result ≡ at_speed speed }
    {
        Options {
            skip_effects: false,
            skip_pulse: false,
            skip_first: false,
            speed,
            system: System::Pal,
        }
    }

    /// The effect step is left out at tick 0: the word `effects`.
    pub fn effects(speed: Speed) -> Options
        ensures { result ≡ record (at_speed speed) { skip_effects = true } }
    {
        Options {
            skip_effects: true,
            ..Options::none(speed)
        }
    }

    /// The pulse step is left out where the row is fetched: the word `pulse`.
    pub fn pulse(speed: Speed) -> Options
        ensures { result ≡ record (at_speed speed) { skip_pulse = true } }
    {
        Options {
            skip_pulse: true,
            ..Options::none(speed)
        }
    }

    /// Both of these steps are left out there: the word `both`.
    pub fn both(speed: Speed) -> Options
        ensures { result ≡ record (at_speed speed) { skip_effects = true; skip_pulse = true } }
    {
        Options {
            skip_effects: true,
            skip_pulse: true,
            ..Options::none(speed)
        }
    }

    /// What `both` leaves out, and the pulse step at tick 0 between two patterns: this project's reading of what
    /// GoatTracker leaves out by default. The word `all`.
    pub fn all(speed: Speed) -> Options
        ensures { result ≡
            record (at_speed speed) { skip_effects = true; skip_pulse = true; skip_first = true } }
    {
        Options {
            skip_first: true,
            ..Options::both(speed)
        }
    }

    /// These options on the PAL system; none for a speed of 0 and above 4.
    pub fn new(skip_effects: bool, skip_pulse: bool, skip_first: bool, speed: u8) -> Option<Options>
        ensures none { IsNone result ↔ ¬ IsSpeed speed }
        ensures some { IfSome result (λ o. o ≡ record {
          skip_effects = skip_effects;
          skip_pulse = skip_pulse;
          skip_first = skip_first;
          speed = speed;
          system = Pal;
        }) }
    {
        let speed = Speed::new(speed)?;
        Some(Options {
            skip_effects,
            skip_pulse,
            skip_first,
            speed,
            system: System::Pal,
        })
    }

    /// What the timer is set to for the speed, on the system: the cycles from one play call to the next, less 1.
    pub fn timer_value(self) -> u16
        ensures { result ≡ timer_value self.system self.speed }
    {
        self.system.picture_cycles() / u16::from(self.speed.calls()) - 1
    }

    /// The same on this system.
    pub fn on(self, system: System) -> Options
        ensures { result ≡ record self { system = system } }
    {
        Options { system, ..self }
    }
}

impl Default for Options {
    /// Nothing is left out of a frame, at one play call in the time of a picture, on the PAL system.
    fn default() -> Options
        ensures { result ≡ no_options }
    {
        Options::none(Speed { calls: 1 })
    }
}
