//! The files of a case, by name.

use crate::parts::Parts;
use crate::steps::generated;
use case_text::{Names, Wrong, bytes_of, first_word, number_of};
use std::alloc::Global;
use std::collections::BTreeMap;

/// What a line puts into the folder.
#[derive(Clone, Copy)]
pub enum Put {
    /// A file, or other bytes in it.
    File(Change),
    /// A song that is spelled by its parts.
    Song,
    /// A part of that song, by its place in the format.
    Part(usize),
    /// The song that is made from a number.
    Generated,
}

/// What a line does to a file.
#[derive(Clone, Copy)]
pub enum Change {
    /// Puts it.
    New,
    /// Adds bytes to its end.
    More,
    /// Writes bytes over those from an offset on.
    Set,
    /// Keeps so many of its first bytes.
    Cut,
    /// Adds a line to its end.
    Line,
}

/// The files of a case, by name, and the songs among them that are spelled by their parts.
#[derive(Drop)]
pub struct Desk {
    alloc: Global,
    files: BTreeMap<String, Vec<u8>>,
    songs: BTreeMap<String, Parts>,
    /// The name of the song of the last `parts` line.
    last: Option<String>,
}

impl Names for Desk {
    fn named(&self, name: &str) -> Option<&[u8]> {
        match self.files.get(name) {
            Some(bytes) => Some(bytes.as_slice()),
            None => None,
        }
    }
}

impl Desk {
    /// No files.
    pub fn new(alloc: Global) -> Desk {
        Desk {
            alloc,
            files: BTreeMap::new(alloc),
            songs: BTreeMap::new(alloc),
            last: None,
        }
    }

    /// The same files and songs again.
    pub fn copy(&self) -> Result<Desk, Wrong> {
        let mut copy = Desk::new(self.alloc);
        copy.add_files(&self.files)?;
        copy.add_songs(&self.songs)?;
        Ok(copy)
    }

    /// Puts copies of files.
    fn add_files(&mut self, files: &BTreeMap<String, Vec<u8>>) -> Result<(), Wrong> {
        for (name, bytes) in files.iter() {
            self.put(name, bytes.clone()?)?;
        }
        Ok(())
    }

    /// Puts copies of songs.
    fn add_songs(&mut self, songs: &BTreeMap<String, Parts>) -> Result<(), Wrong> {
        for (name, song) in songs.iter() {
            self.put_song(name, song.copy(self.alloc)?)?;
        }
        Ok(())
    }

    /// The files, by name.
    pub fn files(&self) -> &BTreeMap<String, Vec<u8>> {
        &self.files
    }

    /// Puts a file, in place of one that has the name.
    pub fn put(&mut self, name: &str, bytes: Vec<u8>) -> Result<(), Wrong> {
        let name = String::from_str(self.alloc, name)?;
        self.files.insert(name, bytes)?;
        Ok(())
    }

    /// Puts the parts of a song, in place of one that has the name.
    fn put_song(&mut self, name: &str, song: Parts) -> Result<(), Wrong> {
        let name = String::from_str(self.alloc, name)?;
        self.songs.insert(name, song)?;
        Ok(())
    }

    /// Takes a line that puts or changes a file.
    pub fn take(&mut self, put: Put, rest: &str) -> Result<(), Wrong> {
        match put {
            Put::File(change) => self.change(change, rest),
            Put::Song => self.begin_song(rest),
            Put::Part(part) => self.set_part(part, rest),
            Put::Generated => self.generate(rest),
        }
    }

    /// Puts or changes a file.
    fn change(&mut self, change: Change, rest: &str) -> Result<(), Wrong> {
        let (name, rest) = first_word(rest);
        let bytes = self.changed(change, name, rest)?;
        self.put(name, bytes)
    }

    /// The bytes of a file that is put or changed.
    fn changed(&self, change: Change, name: &str, rest: &str) -> Result<Vec<u8>, Wrong> {
        match change {
            Change::New => bytes_of(self.alloc, self, rest),
            Change::More => self.with_more(name, rest),
            Change::Set => self.with_set(name, rest),
            Change::Cut => self.with_cut(name, rest),
            Change::Line => self.with_line(name, rest),
        }
    }

    /// A copy of the file that has the name.
    fn file(&self, name: &str) -> Result<Vec<u8>, Wrong> {
        match self.files.get(name) {
            Some(bytes) => Ok(bytes.clone()?),
            None => Err(Wrong::BadLine),
        }
    }

    /// The file with bytes more.
    fn with_more(&self, name: &str, rest: &str) -> Result<Vec<u8>, Wrong> {
        let mut bytes = self.file(name)?;
        let added = bytes_of(self.alloc, self, rest)?;
        bytes.extend_from_slice(&added)?;
        Ok(bytes)
    }

    /// The file with bytes written over those from an offset on.
    fn with_set(&self, name: &str, rest: &str) -> Result<Vec<u8>, Wrong> {
        let (offset, rest) = first_word(rest);
        let place = number_of(offset)? as usize;
        let over = bytes_of(self.alloc, self, rest)?;
        let mut bytes = self.file(name)?;
        write_over(&mut bytes, place, &over)?;
        Ok(bytes)
    }

    /// So many of the file's first bytes.
    fn with_cut(&self, name: &str, rest: &str) -> Result<Vec<u8>, Wrong> {
        let length = number_of(rest)? as usize;
        let mut bytes = self.file(name)?;
        if length > bytes.len() {
            return Err(Wrong::BadLine);
        }
        bytes.truncate(length);
        Ok(bytes)
    }

    /// The file, or none, with a line more.
    fn with_line(&self, name: &str, line: &str) -> Result<Vec<u8>, Wrong> {
        let mut bytes = Vec::new(self.alloc);
        bytes.extend_from_slice(self.named(name).unwrap_or(&[]))?;
        bytes.extend_from_slice(line.as_bytes())?;
        bytes.push(b'\n')?;
        Ok(bytes)
    }

    /// Puts a song of silence, or one with the parts of another song.
    fn begin_song(&mut self, rest: &str) -> Result<(), Wrong> {
        let (name, other) = first_word(rest);
        let song = self.song_like(other)?;
        self.put(name, song.file(self.alloc)?)?;
        self.put_song(name, song)?;
        self.last = Some(name.to_string(self.alloc)?);
        Ok(())
    }

    /// The parts of another song, or those of a song of silence.
    fn song_like(&self, other: &str) -> Result<Parts, Wrong> {
        if other.is_empty() {
            return Parts::silent(self.alloc);
        }
        match self.songs.get(other) {
            Some(song) => song.copy(self.alloc),
            None => Err(Wrong::BadLine),
        }
    }

    /// Takes a part of the song of the last `parts` line.
    fn set_part(&mut self, part: usize, rest: &str) -> Result<(), Wrong> {
        let bytes = bytes_of(self.alloc, self, rest)?;
        let Some(last) = &self.last else {
            return Err(Wrong::BadLine);
        };
        let Some(song) = self.songs.get_mut(last.as_str()) else {
            return Err(Wrong::BadLine);
        };
        song.set(part, bytes);
        let file = song.file(self.alloc)?;
        let name = last.clone()?;
        self.put(&name, file)
    }

    /// Puts the song that is made from a number.
    fn generate(&mut self, rest: &str) -> Result<(), Wrong> {
        let (name, number) = first_word(rest);
        let file = generated(self.alloc, number)?;
        self.put(name, file)
    }
}

/// Writes bytes over those from a place on, and no further than they go.
fn write_over(bytes: &mut [u8], first: usize, over: &[u8]) -> Result<(), Wrong> {
    let mut place = first;
    for byte in over {
        match bytes.get_mut(place) {
            Some(old) => *old = *byte,
            None => return Err(Wrong::BadLine),
        }
        place = place.saturating_add(1);
    }
    Ok(())
}
