//! The first place at which a song's state comes again.

ghost use Rattle.std.specs.Prelude.{◌≡◌, ℕ, ◌<◌, ◌≤◌, None};
ghost use Rattle.song_length.specs.Plays.{Lead};
ghost use Rattle.song_length.specs.Coming.{HasRepeat, IsFirstMeeting};

use sid_run::Runner;

/// Plays a song once more whose state comes again.
fn play_on(runner: &mut Runner)
    requires running { runner.old.stopped ≡ None }
    requires repeats { HasRepeat runner.old.play runner.old.machine }
    ensures led { Lead runner.old.play 1 runner.old.machine runner.new.machine }
    ensures repeats { HasRepeat runner.old.play runner.new.machine }
    ensures address { runner.new.play ≡ runner.old.play }
    ensures running { runner.new.stopped ≡ None }
{
    match runner.play() {
        Ok(_registers) => {}
        Err(_reason) => unreachable!(),
    }
}

/// Plays such a song so often.
pub fn advance(runner: &mut Runner, plays: u32)
    requires running { runner.old.stopped ≡ None }
    requires repeats { HasRepeat runner.old.play runner.old.machine }
    ensures led { Lead runner.old.play plays runner.old.machine runner.new.machine }
    ensures address { runner.new.play ≡ runner.old.play }
    ensures running { runner.new.stopped ≡ None }
{
    let mut left = plays;
    while left > 0 {
        play_on(&mut *runner);
        left -= 1;
    }
}

/// After how many plays the states of a song are those that come behind a later one of its states, from which another runner
/// begins: the first place at which it is so, up to the most.
pub fn first_place(one: &mut Runner, other: &mut Runner, most: u32) -> Option<u32>
    requires running { (one.old.stopped ≡ None) × (other.old.stopped ≡ None) }
    requires address { other.old.play ≡ one.old.play }
    requires repeats { HasRepeat one.old.play one.old.machine }
    requires later { HasRepeat one.old.play other.old.machine }
    ensures { IsFirstMeeting one.old.play one.old.machine other.old.machine most result }
{
    let mut from = 0;
    while !one.machine().is_same(other.machine()) {
        if from == most {
            return None;
        }
        play_on(&mut *one);
        play_on(&mut *other);
        from += 1;
    }
    Some(from)
}
