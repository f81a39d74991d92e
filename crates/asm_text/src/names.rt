//! The names of instructions in text: the one place where their letters stand.

ghost use Rattle.std.specs.Prelude.{◌≡◌, ◌<◌, IfSome, length, position};
ghost use Rattle.asm_text.specs.Names.{name_at, is_name_of, letters_of, is_spelled, named};

use cpu6502::Mnemonic;

/// The name of an instruction, and how it is written.
#[derive(Clone, Copy, Debug)]
pub struct Name {
    /// The instruction.
    pub mnemonic: Mnemonic,
    /// Its three capital letters.
    pub letters: [u8; 3],
}

/// Names, each in brackets: the instruction and its letters.
macro_rules! names {
    ($([$mnemonic:ident $first:literal $second:literal $third:literal])*) => {
        [$(Name { mnemonic: Mnemonic::$mnemonic, letters: [$first, $second, $third] }),*]
    };
}

/// The names of all instructions, as the MOS 6502 programming manual writes them.
pub const NAMES: [Name; 56] = names! {
    [Adc b'A' b'D' b'C'] [And b'A' b'N' b'D'] [Asl b'A' b'S' b'L'] [Bcc b'B' b'C' b'C']
    [Bcs b'B' b'C' b'S'] [Beq b'B' b'E' b'Q'] [Bit b'B' b'I' b'T'] [Bmi b'B' b'M' b'I']
    [Bne b'B' b'N' b'E'] [Bpl b'B' b'P' b'L'] [Brk b'B' b'R' b'K'] [Bvc b'B' b'V' b'C']
    [Bvs b'B' b'V' b'S'] [Clc b'C' b'L' b'C'] [Cld b'C' b'L' b'D'] [Cli b'C' b'L' b'I']
    [Clv b'C' b'L' b'V'] [Cmp b'C' b'M' b'P'] [Cpx b'C' b'P' b'X'] [Cpy b'C' b'P' b'Y']
    [Dec b'D' b'E' b'C'] [Dex b'D' b'E' b'X'] [Dey b'D' b'E' b'Y'] [Eor b'E' b'O' b'R']
    [Inc b'I' b'N' b'C'] [Inx b'I' b'N' b'X'] [Iny b'I' b'N' b'Y'] [Jmp b'J' b'M' b'P']
    [Jsr b'J' b'S' b'R'] [Lda b'L' b'D' b'A'] [Ldx b'L' b'D' b'X'] [Ldy b'L' b'D' b'Y']
    [Lsr b'L' b'S' b'R'] [Nop b'N' b'O' b'P'] [Ora b'O' b'R' b'A'] [Pha b'P' b'H' b'A']
    [Php b'P' b'H' b'P'] [Pla b'P' b'L' b'A'] [Plp b'P' b'L' b'P'] [Rol b'R' b'O' b'L']
    [Ror b'R' b'O' b'R'] [Rti b'R' b'T' b'I'] [Rts b'R' b'T' b'S'] [Sbc b'S' b'B' b'C']
    [Sec b'S' b'E' b'C'] [Sed b'S' b'E' b'D'] [Sei b'S' b'E' b'I'] [Sta b'S' b'T' b'A']
    [Stx b'S' b'T' b'X'] [Sty b'S' b'T' b'Y'] [Tax b'T' b'A' b'X'] [Tay b'T' b'A' b'Y']
    [Tsx b'T' b'S' b'X'] [Txa b'T' b'X' b'A'] [Txs b'T' b'X' b'S'] [Tya b'T' b'Y' b'A']
};

/// The letters of a name.
pub(crate) fn letters_of(mnemonic: Mnemonic) -> [u8; 3]
    ensures { result ≡ letters_of mnemonic }
{
    let names: &'static [Name] = &NAMES;
    let Some(place) = place_of(mnemonic, names) else {
        unreachable!();
    };
    name_at(place).letters
}

/// The name at a place of the table.
fn name_at(place: usize) -> Name
    requires { place < length NAMES }
    ensures { result ≡ name_at place }
{
    // Borrowed, so that a look-up doesn't copy the table.
    let names: &'static [Name] = &NAMES;
    names[place]
}

/// The first place of a name among names.
fn place_of(mnemonic: Mnemonic, names: &[Name]) -> Option<usize>
    ensures place { result ≡ position (is_name_of mnemonic) names.now }
    ensures bound { IfSome result (λ place. place < length names.now) }
{
    names.iter().position(|name| name.mnemonic == mnemonic)
}

/// The instruction that three letters name.
pub(crate) fn named(first: u8, second: u8, third: u8) -> Option<Mnemonic>
    ensures { result ≡ named first second third }
{
    let names: &'static [Name] = &NAMES;
    let place = place_spelled(first, second, third, names)?;
    Some(name_at(place).mnemonic)
}

/// The first place of a name with these letters among names.
fn place_spelled(first: u8, second: u8, third: u8, names: &[Name]) -> Option<usize>
    ensures place { result ≡ position (is_spelled first second third) names.now }
    ensures bound { IfSome result (λ place. place < length names.now) }
{
    names
        .iter()
        .position(|name| is_spelled(*name, first, second, third))
}

/// Whether a name has these letters.
fn is_spelled(name: Name, first: u8, second: u8, third: u8) -> bool
    ensures { result ≡ is_spelled first second third name }
{
    let [one, two, three] = name.letters;
    one == first && two == second && three == third
}
