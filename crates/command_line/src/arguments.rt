//! What single words of the command line spell.

ghost use Rattle.std.specs.Prelude.{◌≡◌, ℕ, Bool, MatchResult};
ghost use Rattle.std.specs.Prelude.{List, [], ◌∷◌};
ghost use Rattle.play_model.specs.declared.options.Options.{Options as Chosen};
ghost use Rattle.play_model.specs.declared.options.System.{System as Timing};
ghost use Rattle.command_line.specs.declared.chip.Chip.{Chip as Sid};
ghost use Rattle.command_line.specs.Forms.{AreTwoNames, AreThreeNames};
ghost use Rattle.command_line.specs.Words.{texts, format_word, IsAddressWord, IsZeroPageWord, IsNumberWord};
ghost use Rattle.command_line.specs.Words.{IsCountWord, IsSpeedWord, system_word, chip_word};
ghost use Rattle.command_line.specs.Words.{AreOptionWords, ArePackOptionWords};

use crate::chip::Chip;
use crate::words::WordsFault;
use play_model::{HIGHEST_SPEED, Options, Speed, System};

/// The greatest number of a subtune that may be asked for.
pub const SUBTUNE_LIMIT: u64 = 255;

/// The most frames that may be asked for.
pub const FRAME_LIMIT: u64 = 100_000;

/// The most plays of a subtune that may be measured.
pub const MEASURE_LIMIT: u64 = 1_000_000;

/// The most plays that may be drawn.
pub const CHART_LIMIT: u64 = 100_000;

/// The names of a file that is read and of a file that is written.
///
/// # Errors
///
/// The words aren't two, or one of them is empty.
pub fn two_names(arguments: &[String]) -> Result<(&str, &str), WordsFault>
    ensures { MatchResult result
        (λ names. AreTwoNames (texts arguments.now) names.0.now names.1.now)
        (λ _. (input output : List ℕ) → ¬ AreTwoNames (texts arguments.now) input output) }
{
    let [input, output] = arguments else {
        return Err(WordsFault);
    };
    if input.is_empty() || output.is_empty() {
        return Err(WordsFault);
    }
    Ok((input.as_str(), output.as_str()))
}

/// The names of two files that are read and of a file that is written.
///
/// # Errors
///
/// The words aren't three, or one of them is empty.
pub fn three_names(arguments: &[String]) -> Result<(&str, &str, &str), WordsFault>
    ensures { MatchResult result
        (λ names. AreThreeNames (texts arguments.now) names.0.now names.1.now names.2.now)
        (λ _. (input other output : List ℕ) → ¬ AreThreeNames (texts arguments.now) input other output) }
{
    let [input, other, output] = arguments else {
        return Err(WordsFault);
    };
    if input.is_empty() || other.is_empty() || output.is_empty() {
        return Err(WordsFault);
    }
    Ok((input.as_str(), other.as_str(), output.as_str()))
}

/// Whether a word for the format of a packed file says PSID.
///
/// # Errors
///
/// The word is neither `psid` nor `raw`.
pub fn is_psid(word: &str) -> Result<bool, WordsFault>
    ensures { MatchResult result (λ psid. word.now ≡ format_word psid) (λ _. (psid : Bool) →
        ¬ (word.now ≡ format_word psid)) }
{
    match word {
        "psid" => Ok(true),
        "raw" => Ok(false),
        _ => Err(WordsFault),
    }
}

/// The number of at most `limit` that a word spells in decimal.
///
/// # Errors
///
/// The word has another byte than a digit, or a leading zero, or the number is above the limit.
pub fn decimal_of(word: &str, limit: u64) -> Result<u64, WordsFault>
    ensures { MatchResult result (IsNumberWord limit word.now) (λ _. (number : ℕ) →
        ¬ IsNumberWord limit word.now number) }
{
    let Ok(number) = word.parse::<u64>() else {
        return Err(WordsFault);
    };
    let mut digits = itoa::Buffer::new();
    if number <= limit && digits.format(number) == word {
        Ok(number)
    } else {
        Err(WordsFault)
    }
}

/// The number from 1 to `limit` that a word spells in decimal.
///
/// # Errors
///
/// The word has another byte than a digit, or a leading zero, or the number is 0 or above the limit.
pub fn count_of(word: &str, limit: u64) -> Result<u64, WordsFault>
    ensures { MatchResult result (IsCountWord limit word.now) (λ _. (number : ℕ) →
        ¬ IsCountWord limit word.now number) }
{
    let number = decimal_of(word, limit)?;
    if number == 0 {
        return Err(WordsFault);
    }
    Ok(number)
}

/// The address that four hexadecimal digits spell: a multiple of 256 from `$0800` to `$CF00`.
///
/// # Errors
///
/// The word isn't four hexadecimal digits, or the address isn't allowed.
pub fn address_of(word: &str) -> Result<u16, WordsFault>
    ensures { MatchResult result (IsAddressWord word.now) (λ _. (address : ℕ) →
        ¬ IsAddressWord word.now address) }
{
    let mut bytes = [0u8; 2];
    if hex::decode_to_slice(word, &mut bytes).is_err() {
        return Err(WordsFault);
    }
    let address = u16::from_be_bytes(bytes);
    if address % 256 == 0 && 0x0800 <= address && address <= 0xcf00 {
        Ok(address)
    } else {
        Err(WordsFault)
    }
}

/// The zero page byte that two hexadecimal digits spell, `$02` to `$FE`.
///
/// # Errors
///
/// The word isn't two hexadecimal digits, or the byte isn't allowed.
pub fn zero_page_of(word: &str) -> Result<u8, WordsFault>
    ensures { MatchResult result (IsZeroPageWord word.now) (λ _. (zero_page : ℕ) →
        ¬ IsZeroPageWord word.now zero_page) }
{
    let mut bytes = [0u8; 1];
    if hex::decode_to_slice(word, &mut bytes).is_err() {
        return Err(WordsFault);
    }
    let [zero_page] = bytes;
    if 0x02 <= zero_page && zero_page <= 0xfe {
        Ok(zero_page)
    } else {
        Err(WordsFault)
    }
}

/// The speed that a digit spells, 1 to 4.
///
/// # Errors
///
/// The word is another.
fn speed_of(word: &str) -> Result<Speed, WordsFault>
    ensures { MatchResult result (IsSpeedWord word.now) (λ _. (speed : ℕ) →
        ¬ IsSpeedWord word.now speed) }
{
    let calls = decimal_of(word, u64::from(HIGHEST_SPEED))?;
    match Speed::new(calls as u8) {
        Some(speed) => Ok(speed),
        None => Err(WordsFault),
    }
}

/// How a song is played: a word for what is left out of a frame, and a digit for the speed, 1 to 4.
///
/// # Errors
///
/// One of them is another word.
pub fn said_options(skip: &str, speed: &str) -> Result<Options, WordsFault>
    ensures { MatchResult result (AreOptionWords (skip.now ∷ speed.now ∷ [])) (λ _.
        (options : Chosen) → ¬ AreOptionWords (skip.now ∷ speed.now ∷ []) options) }
{
    let speed = speed_of(speed)?;
    match skip {
        "none" => Ok(Options::none(speed)),
        "effects" => Ok(Options::effects(speed)),
        "pulse" => Ok(Options::pulse(speed)),
        "both" => Ok(Options::both(speed)),
        "all" => Ok(Options::all(speed)),
        _ => Err(WordsFault),
    }
}

/// How a song is played: no words, or `SKIP SPEED`.
///
/// # Errors
///
/// They are neither none nor two, or one of them is another word.
pub fn options_of(words: &[String]) -> Result<Options, WordsFault>
    ensures { MatchResult result (AreOptionWords (texts words.now)) (λ _. (options : Chosen) →
        ¬ AreOptionWords (texts words.now) options) }
{
    match words {
        [] => Ok(Options::default()),
        [skip, speed] => said_options(skip.as_str(), speed.as_str()),
        _ => Err(WordsFault),
    }
}

/// The system that a word names.
///
/// # Errors
///
/// The word is neither `pal` nor `ntsc`.
fn system_of(word: &str) -> Result<System, WordsFault>
    ensures { MatchResult result (λ system. word.now ≡ system_word system) (λ _.
        (system : Timing) → ¬ (word.now ≡ system_word system)) }
{
    match word {
        "pal" => Ok(System::Pal),
        "ntsc" => Ok(System::Ntsc),
        _ => Err(WordsFault),
    }
}

/// The SID that a word names.
///
/// # Errors
///
/// The word is neither `6581` nor `8580`.
fn chip_of(word: &str) -> Result<Chip, WordsFault>
    ensures { MatchResult result (λ chip. word.now ≡ chip_word chip) (λ _. (chip : Sid) →
        ¬ (word.now ≡ chip_word chip)) }
{
    match word {
        "6581" => Ok(Chip::Mos6581),
        "8580" => Ok(Chip::Mos8580),
        _ => Err(WordsFault),
    }
}

/// How a song is played that is packed, and for which SID it is made, by the words `SKIP SPEED SYSTEM CHIP`.
///
/// # Errors
///
/// One of them is another word.
fn told_options(
    skip: &str,
    speed: &str,
    system: &str,
    chip: &str,
) -> Result<(Options, Chip), WordsFault>
    ensures { MatchResult result
        (λ told. ArePackOptionWords (skip.now ∷ speed.now ∷ system.now ∷ chip.now ∷ []) told.0 told.1)
        (λ _. (options : Chosen) (sid : Sid) →
        ¬ ArePackOptionWords (skip.now ∷ speed.now ∷ system.now ∷ chip.now ∷ []) options sid) }
{
    let options = said_options(skip, speed)?;
    let system = system_of(system)?;
    let chip = chip_of(chip)?;
    Ok((options.on(system), chip))
}

/// How a song is played that is packed, and for which SID it is made: no words, `SKIP SPEED`, or
/// `SKIP SPEED SYSTEM CHIP`.
///
/// # Errors
///
/// They are of another number, or one of them is another word.
pub fn pack_options_of(words: &[String]) -> Result<(Options, Chip), WordsFault>
    ensures { MatchResult result (λ told. ArePackOptionWords (texts words.now) told.0 told.1) (λ _.
        (options : Chosen) (sid : Sid) → ¬ ArePackOptionWords (texts words.now) options sid) }
{
    match words {
        [skip, speed, system, chip] => told_options(
            skip.as_str(),
            speed.as_str(),
            system.as_str(),
            chip.as_str(),
        ),
        _ => Ok((options_of(words)?, Chip::Mos6581)),
    }
}
