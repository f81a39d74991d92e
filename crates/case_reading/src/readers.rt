//! What the readers of songs, PSID files and scripts say of a file by themselves.

use crate::answer::Answer;
use case_text::{Names, Wrong};
use edit_history::Session;
use edit_script::{MOST_BYTES as MOST_SCRIPT, Script, ScriptFault, parse, run};
use gts5::{MOST_BYTES as MOST_SONG, SongFault};
use psid::PsidFault;
use song_model::Song;
use std::alloc::Global;
use std::fmt;

/// A fault, as it is told.
fn told<T: fmt::Display>(alloc: Global, fault: &T) -> Result<Answer, Wrong> {
    let text = format!(in alloc; "{fault}")?;
    Answer::line(alloc, &text)
}

/// What the reader of songs says of a file.
pub fn read_song<N: Names>(alloc: Global, names: &N, name: &str) -> Result<Answer, Wrong> {
    let file = names.named(name).ok_or(Wrong::BadLine)?;
    if file.len() > MOST_SONG {
        return Err(Wrong::BadLine);
    }
    match gts5::read(alloc, file) {
        Ok(_) => Answer::line(alloc, "a song"),
        Err(SongFault::NoMemory) => Err(Wrong::NoMemory),
        Err(fault) => told(alloc, &fault),
    }
}

/// What the reader of PSID files says of a file.
pub fn read_psid<N: Names>(alloc: Global, names: &N, name: &str) -> Result<Answer, Wrong> {
    let file = names.named(name).ok_or(Wrong::BadLine)?;
    match psid::read(alloc, file) {
        Ok(_) => Answer::line(alloc, "a PSID file"),
        Err(PsidFault::NoMemory) => Err(Wrong::NoMemory),
        Err(fault) => told(alloc, &fault),
    }
}

/// What the reader of scripts says of a file, or what is said of its commands in an empty song.
pub fn read_script<N: Names>(alloc: Global, names: &N, name: &str) -> Result<Answer, Wrong> {
    let file = names.named(name).ok_or(Wrong::BadLine)?;
    if file.len() > MOST_SCRIPT {
        return Err(Wrong::BadLine);
    }
    match parse(alloc, file) {
        Ok(script) => done(alloc, &script),
        Err(ScriptFault::NoMemory) => Err(Wrong::NoMemory),
        Err(fault) => told(alloc, &fault),
    }
}

/// What is said of a script's commands in an empty song.
fn done(alloc: Global, script: &Script) -> Result<Answer, Wrong> {
    let mut session = Session::new(alloc, Song::empty(alloc));
    match run(&mut session, script) {
        Ok(()) => Answer::line(alloc, "done"),
        Err(fault) => told(alloc, &fault),
    }
}
