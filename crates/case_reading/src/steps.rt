//! Songs that are made from a number, and the steps of a packed file.

use crate::answer::Answer;
use crate::machine::byte_of;
use case_text::{Names, Wrong, first_word, number_of};
use sid_run::Runner;
use song_gen::generate;
use std::alloc::Global;

/// The file of the song that is made from a number.
pub fn generated(alloc: Global, number: &str) -> Result<Vec<u8>, Wrong> {
    let is_digits = number.bytes().all(|byte| byte.is_ascii_digit());
    let number = match number.parse::<u64>() {
        Ok(number) if is_digits => number,
        _ => return Err(Wrong::BadLine),
    };
    let Ok(song) = generate(alloc, number) else {
        return Err(Wrong::NoMemory);
    };
    match gts5::write(alloc, &song) {
        Ok(file) => Ok(file),
        Err(_) => Err(Wrong::NoMemory),
    }
}

/// The steps of init and so many plays of a subtune, counted from 0, of a PSID file.
fn subtune_steps(alloc: Global, file: &[u8], subtune: u8, frames: u32) -> Option<u64> {
    let psid = psid::read(alloc, file).ok()?;
    let mut runner = Runner::load(alloc, &psid).ok()?;
    let _registers = runner.init(subtune).ok()?;
    let mut steps = u64::from(runner.spent());
    for _ in 0..frames {
        let _registers = runner.play().ok()?;
        steps = steps.saturating_add(u64::from(runner.spent()));
    }
    Some(steps)
}

/// The steps of so many subtunes, each loaded anew.
fn all_steps(alloc: Global, file: &[u8], subtunes: u8, frames: u32) -> Result<u64, Wrong> {
    let mut steps = 0u64;
    for subtune in 0..subtunes {
        match subtune_steps(alloc, file, subtune, frames) {
            Some(more) => steps = steps.saturating_add(more),
            None => return Err(Wrong::Differs("a call doesn't return")),
        }
    }
    Ok(steps)
}

/// The steps of so many subtunes of a file, as a text.
pub fn count<N: Names>(alloc: Global, names: &N, rest: &str) -> Result<Answer, Wrong> {
    let (name, rest) = first_word(rest);
    let (subtunes, frames) = first_word(rest);
    let file = names.named(name).ok_or(Wrong::BadLine)?;
    let steps = all_steps(alloc, file, byte_of(subtunes)?, number_of(frames)?)?;
    Answer::line(alloc, &format!(in alloc; "{steps} steps")?)
}
