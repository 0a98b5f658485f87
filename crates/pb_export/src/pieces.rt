//! Bytes as a list of pieces.

ghost use Rattle.std.specs.Prelude.{◌≡◌, ◌++◌, ◌∷◌, [], OnOk};
ghost use Rattle.hex.specs.Hex.{encode_lower};
ghost use Rattle.pb_export.specs.Pieces.{joined, piece_bytes};

use pb_scenario::push_number;
use std::alloc::AllocError;

/// A piece of a text or of a file.
#[derive(Clone, Copy)]
pub(crate) enum Piece<'a> {
    /// Bytes as they are.
    Text(&'a [u8]),
    /// A number in decimal digits.
    Number(u64),
    /// Octets, each as two lower-case hex digits.
    Hex(&'a [u8]),
    /// The low 16 bits of a number, the low octet first.
    Half(u64),
    /// The low 32 bits of a number, the low octet first.
    Word(u64),
}

/// Appends pieces.
#[tactic(auto, using(crate::proofs::Appending::joined_cons))]
pub(crate) fn push_pieces(text: &mut Vec<u8>, pieces: &[Piece<'_>]) -> Result<(), AllocError>
    ensures { OnOk result (text.new.items ≡ text.old.items ++ joined pieces.now) }
{
    for piece in pieces {
        push_piece(text, *piece)?;
    }
    Ok(())
}

/// Appends a piece.
fn push_piece(text: &mut Vec<u8>, piece: Piece<'_>) -> Result<(), AllocError>
    ensures { OnOk result (text.new.items ≡ text.old.items ++ piece_bytes piece.entry) }
{
    match piece {
        Piece::Text(bytes) => text.extend_from_slice(bytes),
        Piece::Number(number) => push_number(text, number),
        Piece::Hex(octets) => push_hex(text, octets),
        Piece::Half(number) => {
            let half = (number % 65_536) as u16;
            text.extend_from_slice(&half.to_le_bytes())
        }
        Piece::Word(number) => {
            let word = (number % 4_294_967_296) as u32;
            text.extend_from_slice(&word.to_le_bytes())
        }
    }
}

/// Appends octets, each as two lower-case hex digits.
fn push_hex(text: &mut Vec<u8>, octets: &[u8]) -> Result<(), AllocError>
    ensures { OnOk result (text.new.items ≡ text.old.items ++ encode_lower octets.now) }
{
    for octet in octets {
        push_octet(text, *octet)?;
    }
    Ok(())
}

/// Appends an octet as two lower-case hex digits.
fn push_octet(text: &mut Vec<u8>, octet: u8) -> Result<(), AllocError>
    ensures { OnOk result (text.new.items ≡ text.old.items ++ encode_lower (octet ∷ [])) }
{
    let mut digits = [0; 2];
    hex::encode_to_slice([octet].as_slice(), &mut digits).unwrap();
    text.extend_from_slice(&digits)
}
