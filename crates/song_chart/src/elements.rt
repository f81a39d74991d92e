//! The writer of elements.

ghost use Rattle.std.specs.Prelude.{◌≡◌, ◌++◌, map, OnOk};
ghost use Rattle.std.specs.List.{flat_map};
ghost use Rattle.song_chart.specs.Elements.{piece_text, pieces_text, attribute_text, element_text};
ghost use Rattle.song_chart.specs.Pieces.{piece_of, attribute_of, element_of};

use base::{ByteList, NoMemory};

/// A piece of a text.
#[derive(Clone, Copy)]
pub(crate) enum Piece<'a> {
    /// Words, none of whose signs XML gives a meaning; or the text of elements.
    Words(&'a [u8]),
    /// A number, in decimal.
    Number(u64),
}

/// Adds a piece.
fn put_piece(out: &mut ByteList, piece: Piece) -> Result<(), NoMemory>
    ensures { OnOk result (out.new ≡ out.old ++ piece_text (piece_of piece.entry)) }
{
    match piece {
        Piece::Words(words) => out.extend(words),
        Piece::Number(number) => {
            let mut digits = itoa::Buffer::new();
            out.extend(digits.format(number).as_bytes())
        }
    }
}

/// Adds pieces, one behind the other.
pub(crate) fn put_pieces(out: &mut ByteList, pieces: &[Piece]) -> Result<(), NoMemory>
    ensures { OnOk result (out.new ≡ out.old ++ pieces_text (map piece_of pieces.now)) }
{
    for piece in pieces {
        put_piece(&mut *out, *piece)?;
    }
    Ok(())
}

/// Adds the attributes of an element.
fn put_attributes(out: &mut ByteList, attributes: &[(&str, Piece)]) -> Result<(), NoMemory>
    ensures { OnOk result (out.new ≡ out.old ++ flat_map attribute_text (map attribute_of attributes.now)) }
{
    for (name, value) in attributes {
        put_attribute(&mut *out, name, *value)?;
    }
    Ok(())
}

/// Adds an attribute.
fn put_attribute(out: &mut ByteList, name: &str, value: Piece) -> Result<(), NoMemory>
    ensures { OnOk result (out.new ≡ out.old ++ attribute_text (name.now, piece_of value.entry)) }
{
    out.extend(b" ")?;
    out.extend(name.as_bytes())?;
    out.extend(b"=\"")?;
    put_piece(&mut *out, value)?;
    out.extend(b"\"")
}

/// Adds an element with this name, these attributes, and these pieces inside.
///
/// # Errors
///
/// Out of memory.
#[tactic(auto, unfolding(crate::specs::Elements::element_text))]
pub(crate) fn put_element(
    out: &mut ByteList,
    name: &str,
    attributes: &[(&str, Piece)],
    inside: &[Piece],
) -> Result<(), NoMemory>
    ensures { OnOk result (out.new ≡ out.old ++ element_text (element_of name.now attributes.now inside.now)) }
{
    out.extend(b"<")?;
    out.extend(name.as_bytes())?;
    put_attributes(&mut *out, attributes)?;
    out.extend(b">")?;
    put_pieces(&mut *out, inside)?;
    out.extend(b"</")?;
    out.extend(name.as_bytes())?;
    out.extend(b">\n")
}
