// The words that a run is started with.
ghost use Rattle.std.specs.Prelude.{◌≡◌, ◌^◌, ◌<◌, ◌≤◌, [], ◌∷◌, length, map, string_bytes, IfSome, true, Some, None, if◌then◌else◌};
ghost use Rattle.std.specs.List.{list_all};
ghost use Rattle.std.specs.Char.{is_ascii_digit};
ghost use Rattle.cache_cli.specs.Words.{words_moment, is_moment, number_of};

/// Moments are below this one.
const MOMENTS: u64 = 1 << 61;

/// The most digits of a moment.
const DIGITS: usize = 19;

/// The moment that the words give, where they are just `--at` and one.
pub fn moment_of(words: &[String]) -> Option<u64>
    ensures moment { result ≡ words_moment (map string_bytes words.now) }
    ensures below { IfSome result (λ moment. moment < 2 ^ 61) }
{
    match words {
        [name, digits] if name.as_str() == "--at" => number_of(digits.as_str()),
        _ => None,
    }
}

// Whether each byte is a decimal digit.
fn are_digits(text: &str) -> bool
    ensures { result ≡ list_all is_ascii_digit text.now }
{
    text.as_bytes().iter().all(|byte| byte.is_ascii_digit())
}

// The moment of some digits, None where they are none.
fn number_of(digits: &str) -> Option<u64>
    ensures number { result ≡ (if is_moment digits.now then Some (number_of digits.now) else None) }
    ensures below { IfSome result (λ moment. moment < 2 ^ 61) }
{
    if digits.is_empty() || digits.len() > DIGITS || !are_digits(digits) {
        return None;
    }
    let moment = value_of(digits);
    if moment < MOMENTS { Some(moment) } else { None }
}

// The number of one to nineteen decimal digits.
fn value_of(digits: &str) -> u64
    requires digits { list_all is_ascii_digit digits.now ≡ true }
    requires some { 1 ≤ length digits.now }
    requires short { length digits.now ≤ 19 }
    ensures { result ≡ number_of digits.now }
{
    digits.parse::<u64>().unwrap_or(0)
}
