// Numbers and lifespans that are read.
ghost use Rattle.std.specs.Prelude.{◌≡◌, ◌+◌, ◌*◌, option_map, if◌then◌else◌, Some, None};
ghost use Rattle.std.specs.Char.{digit_value, is_digit};
ghost use Rattle.cache_model.specs.Plain.{capped};
ghost use Rattle.cache_model.specs.Lines.{number_of, lifespan_of, ttl_of};
ghost use Rattle.cache_script.specs.Spans.{capped_span};

use crate::words::Words;
use cache_model::Lifespan;

/// The most digits of a number.
const DIGITS: usize = 20;

// A number with a digit behind it, or the greatest where it is larger.
fn add_digit(number: u64, byte: u8) -> Option<u64>
    ensures { result ≡ (if is_digit byte 10 then Some (capped (number * 10 + digit_value byte)) else None) }
{
    match byte {
        b'0'..=b'9' => Some(
            number
                .saturating_mul(10)
                .saturating_add(u64::from(byte - b'0')),
        ),
        _ => None,
    }
}

/// The number that some digits write, or the greatest where it is larger.
pub fn number_of(word: &[u8]) -> Option<u64>
    ensures { result ≡ option_map capped (number_of word.now) }
{
    if word.is_empty() || word.len() > DIGITS {
        return None;
    }
    let mut number = 0;
    for byte in word {
        number = add_digit(number, *byte)?;
    }
    Some(number)
}

// The lifespan that a word writes, with the greatest number of units where it is larger.
fn lifespan_of(word: &[u8]) -> Option<Lifespan>
    ensures { result ≡ option_map capped_span (lifespan_of word.now) }
{
    match word {
        [b'-', digits @ ..] => {
            number_of(digits)?;
            Some(Lifespan::Endless)
        }
        _ => Some(Lifespan::Of(number_of(word)?)),
    }
}

/// The lifespan behind a value, with the greatest number of units where it is larger.
pub fn ttl_of(words: &mut Words<'_>) -> Option<Lifespan>
    ensures { result ≡ option_map capped_span (ttl_of words.old) }
{
    let Some(name) = words.next() else {
        return Some(Lifespan::Endless);
    };
    let Some(units) = words.next() else {
        return None;
    };
    if name == b"ttl".as_slice() && words.is_done() {
        lifespan_of(units)
    } else {
        None
    }
}
