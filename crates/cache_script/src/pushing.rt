// Bytes and tokens that are said.
ghost use Rattle.std.specs.Prelude.{◌≡◌, ◌∷◌, [], ◌<◌, ◌/◌, ◌%◌, flat_map, length};
ghost use Rattle.cache_model.specs.Tokens.{hex_digit, byte_text, token_text};
ghost use Rattle.cache_script.specs.Pushing.{Pushes, PushesEscapes, PushesPiece};

use crate::tokens::{are_plain, is_plain_byte, plain_count};
use std::alloc::AllocError;

/// Adds some bytes. Where memory is wanted for them, nothing is added.
pub fn push_bytes(out: &mut Vec<u8>, bytes: &[u8]) -> Result<(), AllocError>
    ensures { Pushes bytes.now out.old.items out.new.items result }
{
    out.extend_from_slice(bytes)
}

// A hexadecimal digit.
fn hex_digit(n: u8) -> u8
    requires { n < 16 }
    ensures { result ≡ hex_digit n }
{
    if n < 10 { b'0' + n } else { b'a' - 10 + n }
}

// Adds a byte as a percent sign and two hexadecimal digits.
fn push_escape(out: &mut Vec<u8>, byte: u8) -> Result<(), AllocError>
    ensures { Pushes (37 ∷ hex_digit (byte / 16) ∷ hex_digit (byte % 16) ∷ []) out.old.items out.new.items result }
{
    push_bytes(out, &[b'%', hex_digit(byte / 16), hex_digit(byte % 16)])
}

// Adds the bytes at the front that don't stand for themselves, each as an escape, and says how many.
fn push_escapes(out: &mut Vec<u8>, bytes: &[u8]) -> Result<usize, AllocError>
    ensures { PushesEscapes bytes.now out.old.items out.new.items result }
{
    for (at, byte) in bytes.iter().enumerate() {
        if is_plain_byte(*byte) {
            return Ok(at);
        }
        push_escape(out, *byte)?;
    }
    Ok(bytes.len())
}

// Adds the first bytes as a part of a token, and says how many: those that stand for themselves, or those that don't.
fn push_piece(out: &mut Vec<u8>, bytes: &[u8]) -> Result<usize, AllocError>
    requires { 0 < length bytes.now }
    ensures { PushesPiece bytes.now out.old.items out.new.items result }
{
    let count = plain_count(bytes);
    if count == 0 {
        return push_escapes(out, bytes);
    }
    push_bytes(out, &bytes[..count])?;
    Ok(count)
}

// Adds some bytes as parts of a token.
fn push_pieces(out: &mut Vec<u8>, bytes: &[u8]) -> Result<(), AllocError>
    ensures { Pushes (flat_map byte_text bytes.now) out.old.items out.new.items result }
{
    let mut rest = bytes;
    while !rest.is_empty() {
        let count = push_piece(out, rest)?;
        rest = &rest[count..];
    }
    Ok(())
}

/// Adds some bytes as a token. Where memory is wanted for it, a part of it is added.
pub fn push_token(out: &mut Vec<u8>, bytes: &[u8]) -> Result<(), AllocError>
    ensures { Pushes (token_text bytes.now) out.old.items out.new.items result }
{
    match bytes {
        [] => push_bytes(out, b"%."),
        [_, ..] if are_plain(bytes) => push_bytes(out, bytes),
        [_, ..] => push_pieces(out, bytes),
    }
}
