// Tokens that are read: how the bytes of keys and values are written in lines.
ghost use Rattle.std.specs.Prelude.{◌≡◌, ◌*◌, ◌<◌, ◌≤◌, ◌++◌, drop, length, option_map, MatchOption, IfOk, IfSome, OnOk, IfErr, None};
ghost use Rattle.std.specs.List.{prefix_len, list_all};
ghost use Rattle.std.specs.Char.{is_digit};
ghost use Rattle.cache_model.specs.Tokens.{is_plain_byte, token_value, pieces_value};
ghost use Rattle.cache_model.specs.Lines.{key_refusal, value_refusal};
ghost use Rattle.cache_model.specs.Limits.{IsKeyLength, IsValueLength};
ghost use Rattle.cache_script.specs.Pieces.{hex_value, escape_at, escaped, front, Cuts, HasNoPiece, AddsNothing, AddsFront};
ghost use Rattle.cache_script.specs.Tokens.{first_token};
ghost use Rattle.cache_script.specs.Refusals.{refusal_of};
ghost use Rattle.cache_script.specs.declared.faults.LineFault.TheVariants.{Memory};

use crate::LineFault;
use crate::words::Words;
use cache_model::{KEY_LIMIT, Key, VALUE_LIMIT, Value};
use std::alloc::{AllocError, Global};
use std::marker::Model;

/// Whether a byte stands for itself.
pub fn is_plain_byte(byte: u8) -> bool
    ensures { result ≡ is_plain_byte byte }
{
    33 <= byte && byte <= 126 && byte != b'%'
}

/// Whether each byte stands for itself. No byte ends the loop early, so that many are looked at in one step.
pub fn are_plain(bytes: &[u8]) -> bool
    ensures { result ≡ list_all is_plain_byte bytes.now }
{
    let mut all = true;
    for byte in bytes {
        all &= is_plain_byte(*byte);
    }
    all
}

/// How many bytes at the front stand for themselves.
pub fn plain_count(bytes: &[u8]) -> usize
    ensures count { result ≡ prefix_len is_plain_byte bytes.now }
    ensures within { result ≤ length bytes.now }
{
    for (at, byte) in bytes.iter().enumerate() {
        if !is_plain_byte(*byte) {
            return at;
        }
    }
    bytes.len()
}

// Whether a byte is a hexadecimal digit. It is worked out without a choice, since a long value has many.
fn is_hex(byte: u8) -> bool
    ensures { result ≡ is_digit byte 16 }
{
    (b'0' <= byte) & (byte <= b'9')
        | (b'A' <= byte) & (byte <= b'F')
        | (b'a' <= byte) & (byte <= b'f')
}

// The value of a hexadecimal digit: the digits begin at 48, and the letters at 65 and 97.
fn hex_value(byte: u8) -> Option<u8>
    ensures { result ≡ hex_value byte }
{
    if is_hex(byte) {
        Some(byte % 16 + 9 * (byte / 64))
    } else {
        None
    }
}

// The byte that an escape at the front stands for, where one stands there.
fn escape_at(bytes: &[u8]) -> Option<u8>
    ensures { result ≡ escape_at bytes.now }
{
    let [b'%', high, low, ..] = bytes else {
        return None;
    };
    Some(16 * hex_value(*high)? + hex_value(*low)?)
}

// How many escapes stand at the front, one behind another.
fn escapes_count(bytes: &[u8]) -> usize
    ensures count { result ≡ length (escaped bytes.now) }
    ensures within { 3 * result ≤ length bytes.now }
{
    let mut rest = bytes;
    let mut count = 0;
    while let Some(_) = escape_at(rest) {
        rest = &rest[3..];
        count += 1;
    }
    count
}

// What is left behind the first piece of some bytes, and how many bytes the piece stands for: a run of bytes that stand
// for themselves, or of escapes.
#[derive(Drop)]
struct Cut<'a> {
    count: usize,
    rest: &'a [u8],
}

// Cuts off the first piece of some bytes, where there is one.
fn cut_piece(bytes: &[u8]) -> Option<Cut<'_>>
    ensures { MatchOption result (HasNoPiece bytes.now) (λ cut. Cuts bytes.now (front bytes.now) cut.count cut.rest.now) }
{
    let plain = plain_count(bytes);
    if plain > 0 {
        let rest = &bytes[plain..];
        return Some(Cut { count: plain, rest });
    }
    let escapes = escapes_count(bytes);
    if escapes == 0 {
        return None;
    }
    let rest = &bytes[3 * escapes..];
    Some(Cut {
        count: escapes,
        rest,
    })
}

// How many bytes the pieces of a token stand for, where they are pieces.
fn pieces_count(pieces: &[u8]) -> Option<usize>
    ensures { result ≡ option_map length (pieces_value pieces.now) }
{
    let mut rest = pieces;
    let mut count = 0;
    while let Some(cut) = cut_piece(rest) {
        count += cut.count;
        rest = cut.rest;
    }
    if rest.is_empty() { Some(count) } else { None }
}

// Adds the bytes that the escapes at the front stand for.
fn push_escaped(out: &mut Vec<u8>, bytes: &[u8]) -> Result<(), AllocError>
    ensures { OnOk result (out.new.items ≡ out.old.items ++ escaped bytes.now) }
{
    let mut rest = bytes;
    while let Some(byte) = escape_at(rest) {
        out.push(byte)?;
        rest = &rest[3..];
    }
    Ok(())
}

// Adds the bytes that the escapes at the front stand for, and says how many.
fn push_escapes(out: &mut Vec<u8>, bytes: &[u8]) -> Result<usize, AllocError>
    ensures added { OnOk result (out.new.items ≡ out.old.items ++ escaped bytes.now) }
    ensures count { IfOk result (λ count. count ≡ length (escaped bytes.now)) }
    ensures within { IfOk result (λ count. 3 * count ≤ length bytes.now) }
{
    let before = out.len();
    push_escaped(out, bytes)?;
    Ok(out.len() - before)
}

// Adds the bytes that the first piece stands for, where there is one, and gives what stands behind it.
fn push_piece<'a>(out: &mut Vec<u8>, bytes: &'a [u8]) -> Result<Option<&'a [u8]>, AllocError>
    ensures { IfOk result (λ rest. MatchOption rest (AddsNothing bytes.now out.old.items out.new.items) (λ rest. AddsFront bytes.now out.old.items out.new.items rest.now)) }
{
    let plain = plain_count(bytes);
    if plain > 0 {
        out.extend_from_slice(&bytes[..plain])?;
        return Ok(Some(&bytes[plain..]));
    }
    let escapes = push_escapes(out, bytes)?;
    if escapes == 0 {
        return Ok(None);
    }
    Ok(Some(&bytes[3 * escapes..]))
}

// Adds the bytes that the pieces of a token stand for.
fn push_pieces(out: &mut Vec<u8>, pieces: &[u8]) -> Result<(), AllocError>
    ensures { OnOk result (IfSome (pieces_value pieces.now) (λ bytes. out.new.items ≡ out.old.items ++ bytes)) }
{
    let mut rest = pieces;
    while let Some(behind) = push_piece(out, rest)? {
        rest = behind;
    }
    Ok(())
}

// How many bytes a token stands for, where it is one.
fn token_count(word: &[u8]) -> Option<usize>
    ensures { result ≡ option_map length (token_value word.now) }
{
    if word.is_empty() {
        return None;
    }
    if word == b"%.".as_slice() {
        return Some(0);
    }
    if are_plain(word) {
        return Some(word.len());
    }
    pieces_count(word)
}

/// A word that is a token. It is seen as the bytes that it stands for.
#[derive(Drop)]
pub struct Token<'a> {
    word: &'a [u8],
    // How many bytes it stands for.
    count: usize,
}

impl<'a> Model for Token<'a> {
    ghost use Rattle.std.specs.Prelude.{List, ℕ};
    ghost use Rattle.cache_script.specs.Tokens.{bytes_behind, IsToken};

    ghost Value = { List ℕ };

    ghost view = { λ token. bytes_behind token.word.now };

    ghost invariant = { λ token. IsToken token.word.now token.count };
}

impl<'a> Token<'a> {
    /// The token that a word is, where it is one.
    pub fn of(word: &'a [u8]) -> Option<Token<'a>>
        ensures { result ≡ token_value word.now }
    {
        match token_count(word) {
            Some(count) => Some(Token { word, count }),
            None => None,
        }
    }

    /// Why it is refused as a key, where it is.
    pub fn key_fault(&self) -> Option<LineFault>
        ensures { option_map refusal_of result ≡ key_refusal self.now }
    {
        if 1 <= self.count && self.count <= KEY_LIMIT {
            None
        } else {
            Some(LineFault::Key(self.count))
        }
    }

    /// Why it is refused as a value, where it is.
    pub fn value_fault(&self) -> Option<LineFault>
        ensures { option_map refusal_of result ≡ value_refusal self.now }
    {
        if self.count <= VALUE_LIMIT {
            None
        } else {
            Some(LineFault::Value(self.count))
        }
    }

    // The word, where it stands for itself.
    fn literal(&self) -> Option<&[u8]>
        ensures { IfSome result (λ word. word.now ≡ self.now) }
    {
        if self.count == self.word.len() {
            Some(self.word)
        } else {
            None
        }
    }

    // The bytes that it stands for.
    fn decoded(&self, alloc: Global) -> Result<Vec<u8>, AllocError>
        ensures { IfOk result (λ bytes. bytes.items ≡ self.now) }
    {
        let mut bytes = Vec::with_capacity(alloc, self.count)?;
        if self.count > 0 {
            push_pieces(&mut bytes, self.word)?;
        }
        Ok(bytes)
    }

    /// The key that it stands for.
    pub fn key(&self, alloc: Global) -> Result<Key, LineFault>
        requires { IsKeyLength (length self.now) }
        ensures key { IfOk result (λ key. key ≡ self.now) }
        ensures memory { IfErr result (λ fault. fault ≡ Memory) }
    {
        if let Some(word) = self.literal() {
            return key_of(alloc, word);
        }
        match self.decoded(alloc) {
            Ok(bytes) => key_of(alloc, &bytes),
            Err(_) => Err(LineFault::Memory),
        }
    }

    /// The value that it stands for.
    pub fn value(&self, alloc: Global) -> Result<Value, LineFault>
        requires { IsValueLength (length self.now) }
        ensures value { IfOk result (λ value. value ≡ self.now) }
        ensures memory { IfErr result (λ fault. fault ≡ Memory) }
    {
        if let Some(word) = self.literal() {
            return value_of(alloc, word);
        }
        match self.decoded(alloc) {
            Ok(bytes) => value_of(alloc, &bytes),
            Err(_) => Err(LineFault::Memory),
        }
    }
}

fn key_of(alloc: Global, bytes: &[u8]) -> Result<Key, LineFault>
    requires { IsKeyLength (length bytes.now) }
    ensures key { IfOk result (λ key. key ≡ bytes.now) }
    ensures memory { IfErr result (λ fault. fault ≡ Memory) }
{
    Key::of(alloc, bytes).map_err(|_| LineFault::Memory)
}

fn value_of(alloc: Global, bytes: &[u8]) -> Result<Value, LineFault>
    requires { IsValueLength (length bytes.now) }
    ensures value { IfOk result (λ value. value ≡ bytes.now) }
    ensures memory { IfErr result (λ fault. fault ≡ Memory) }
{
    Value::of(alloc, bytes).map_err(|_| LineFault::Memory)
}

impl<'a> Words<'a> {
    /// Reads the next word as a token, where it is one.
    pub fn token(&mut self) -> Option<Token<'a>>
        ensures token { result ≡ first_token self.old }
        ensures left { self.new ≡ drop 1 self.old }
    {
        match self.next() {
            Some(word) => Token::of(word),
            None => None,
        }
    }
}
