//! The top call: words, files and the sink.

ghost use Rattle.std.specs.Prelude.{◌≡◌, ◌≢◌, ℕ, ◌+◌, ◌-◌, List, [], ◌∷◌, Option, Some, IfSome};
ghost use Rattle.goat_io.specs.Written.{told_with_piece};
ghost use Rattle.song_model.specs.declared.songs.Song.{Song};
ghost use Rattle.song_model.specs.Canonical.{canonical};
ghost use Rattle.command_line.specs.Words.{texts, Job as Asked};
ghost use Rattle.command_line.specs.Forms.{IsNoForm, WordsOf};
ghost use Rattle.command_line.specs.RegisterText.{register_text};
ghost use Rattle.jobs.specs.Due.{IsDue, IsOneOf, instead};
ghost use Rattle.jobs.specs.Stands.{folder_state, sink_state, RunStands, Counted};
ghost use Rattle.jobs.specs.Answers.{HoldsDone, IsOrdinary, IsPrinted, IsBeforeWriting, ComesAbout, ComesWhere};
ghost use Rattle.jobs.specs.Answers.{SinkCounted, RunsPacked, AssemblesListing, AsksToMake, AsksToJoin, HoldsJoined};
ghost use Rattle.jobs.specs.Answers.{AsksToMeasure, TellsForEver, RunsRepeating};
ghost use Rattle.psid.specs.declared.header.Psid.{Psid};
ghost use Rattle.jobs.specs.Jobs.{stages};
ghost use Rattle.jobs.specs.Outcome.{files_after};
ghost use Rattle.jobs.specs.Packed.{raw_file};
ghost use Rattle.jobs.specs.Traces.{first_traces};
ghost use Rattle.play_model.specs.declared.options.Options.{Options};
ghost use Rattle.command_line.specs.Last.{last_word};
ghost use Rattle.jobs.specs.Endings.{RunEnds};

use crate::commands::perform;
use command_line::{Line, Piece, Refusal, Report, Status, USAGE, WordsFault, parse_words};
use goat_io::{Folder, Sink};
use jobs::{print, want_memory};
use std::alloc::Global;

/// Does all that the program does, and answers its exit status, the number of a [`Status`].
///
/// The words are those of the command line without the program's name. What a run prints goes to the sink line by
/// line; a line that tells of the ending comes after all else that the run does.
pub fn goat<F: Folder, K: Sink>(alloc: Global, words: &[String], folder: &mut F, out: &mut K) -> u8
    // After status 0 the job was done: a file that was packed plays its song, whatever else is in memory.
    ensures headline { IfSome (F.files folder.old) (λ files. result ≡ 0 →
        HoldsDone (texts words.now) files (F.files folder.new)) }

    // Where no device fails and memory is found, the outcome comes about; what is due comes, or one of the statuses
    // in its place.
    ensures outcome { IfSome (F.files folder.old) (λ files. IsOrdinary result →
        ComesAbout (texts words.now) files result (K.written out.old) (K.written out.new)
        (F.files folder.new)) }
    ensures due { IfSome (F.files folder.old) (λ files. (status : ℕ) (output : Option (List ℕ)) →
        IsDue (texts words.now) files status output → IsOneOf (status ∷ instead output) result) }
    ensures usage { ComesWhere (IsNoForm (texts words.now)) result 1 (10 ∷ 14 ∷ []) }

    // A packed file that is run prints its song's trace, with the options that it was packed with.
    ensures packed { IfSome (F.files folder.old) (λ files. (song : Song) (options : Options)
        (subtune frames : ℕ) → RunsPacked (texts words.now) files song options subtune frames →
        IsOneOf (0 ∷ 4 ∷ 10 ∷ 14 ∷ []) result × (result ≡ 0 →
        K.written out.new ≡ told_with_piece (K.written out.old)
        (register_text (first_traces options song (subtune - 1) (frames + 1))))) }

    // The listing of an image is assembled to that image again, behind its address.
    ensures listed { IfSome (F.files folder.old) (λ files. (origin : ℕ) (image output : List ℕ) →
        AssemblesListing (texts words.now) files origin image output →
        IsOneOf (0 ∷ 4 ∷ 9 ∷ 10 ∷ 14 ∷ []) result × (result ≡ 0 → F.files folder.new ≡
        Some (files_after files (Some (output, raw_file origin image))))) }

    // The script that shows a song makes it of the empty song.
    ensures shown { IfSome (F.files folder.old) (λ files. (song : Song) (output : List ℕ) →
        AsksToMake (texts words.now) files song output →
        IsOneOf (0 ∷ 4 ∷ 9 ∷ 10 ∷ 14 ∷ []) result × (result ≡ 0 → F.files folder.new ≡
        Some (files_after files (Some (output, canonical song))))) }

    // A joined song can be played, and plays what both songs play, with any options.
    ensures joined { IfSome (F.files folder.old) (λ files. (first second : Song) (output : List ℕ) →
        AsksToJoin (texts words.now) files first second output → result ≡ 0 →
        HoldsJoined files first second output (F.files folder.new)) }

    // What is told of a subtune that repeats holds for every call that there will ever be, and a run of it meets no stop.
    ensures measured { IfSome (F.files folder.old) (λ files. (psid : Psid) (calls : ℕ) →
        AsksToMeasure (texts words.now) files psid calls → result ≡ 0 →
        TellsForEver psid calls (K.written out.old) (K.written out.new)) }
    ensures returning { IfSome (F.files folder.old) (λ files. RunsRepeating (texts words.now) files → result ≢ 13) }

    // A job without stages, help, version or a self test, asks for nothing but memory and the sink.
    ensures fileless { (job : Asked) → WordsOf (texts words.now) job → stages job ≡ [] →
        IsOneOf (0 ∷ 10 ∷ 14 ∷ []) result }

    // Where all lines were printed each count of the folder rises with its own status and with no other; the sink's
    // always.
    ensures counted { IsPrinted result →
        Counted result (F.counts folder.old) (F.counts folder.new) }
    ensures sink_counted { SinkCounted result (K.faults out.old) (K.faults out.new) }

    // What stands after it, whether the folder tells its files or not, and however it ends.
    ensures files_stay { IsBeforeWriting result → F.files folder.new ≡ F.files folder.old }
    ensures stands { RunStands (texts words.now) result
        (folder_state (F.files folder.old) (F.counts folder.old))
        (folder_state (F.files folder.new) (F.counts folder.new))
        (sink_state (K.written out.old) (K.faults out.old))
        (sink_state (K.written out.new) (K.faults out.new)) }
{
    answer(alloc, words, folder, out)
}

/// Takes room for the lines, does the job, and prints the last line.
fn answer<F: Folder, K: Sink>(alloc: Global, words: &[String], folder: &mut F, out: &mut K) -> u8
    ensures { RunStands (texts words.now) result
        (folder_state (F.files folder.old) (F.counts folder.old))
        (folder_state (F.files folder.new) (F.counts folder.new))
        (sink_state (K.written out.old) (K.faults out.old))
        (sink_state (K.written out.new) (K.faults out.new)) }
{
    let Ok(mut line) = Line::with_room(alloc, words) else {
        return want_memory(out);
    };
    let ended = run(alloc, words, folder, &mut line, out);
    print(&ended, &mut line, out)
}

/// Does what the words ask for, but for the last line.
fn run<'a, F: Folder, K: Sink>(
    alloc: Global,
    words: &'a [String],
    folder: &mut F,
    line: &mut Line,
    out: &mut K,
) -> Result<Report<'a>, Refusal<'a>>
    ensures { RunEnds (texts words.now) (last_word result)
        (folder_state (F.files folder.old) (F.counts folder.old))
        (folder_state (F.files folder.new) (F.counts folder.new))
        (sink_state (K.written out.old) (K.faults out.old))
        (sink_state (K.written out.new) (K.faults out.new)) }
{
    match parse_words(words) {
        Ok(job) => perform(alloc, &job, folder, line, out),
        Err(WordsFault) => Err(Refusal::says(Status::Usage, &[Piece::Words(USAGE)])),
    }
}
