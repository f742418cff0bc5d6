// A line's words.
ghost use Rattle.std.specs.Prelude.{◌≡◌, ◌≢◌, MatchOption, MatchBool, drop, []};
ghost use Rattle.std.specs.List.{slice_get};
ghost use Rattle.std.specs.Option.{option_copied};
ghost use Rattle.cache_model.specs.Lines.{Lacks, IsFirst, words_of};

use memchr::memchr;
use std::marker::Model;

/// Where the first such byte stands.
pub fn first_of(bytes: &[u8], separator: u8) -> Option<usize>
    ensures { MatchOption result (Lacks separator bytes.now) (λ at. IsFirst separator bytes.now at) }
{
    memchr(separator, bytes)
}

/// The words of a line that aren't read yet.
#[derive(Drop)]
pub struct Words<'a> {
    // What stands behind the last space that was read, where there was one.
    rest: Option<&'a [u8]>,
}

impl<'a> Model for Words<'a> {
    ghost use Rattle.std.specs.Prelude.{List, ℕ};
    ghost use Rattle.cache_script.specs.Words.{words_left};

    ghost Value = { List (List ℕ) };

    ghost view = { λ words. words_left words.rest };
}

impl<'a> Words<'a> {
    /// All words of a line.
    pub fn of(line: &'a [u8]) -> Words<'a>
        ensures { result ≡ words_of line.now }
    {
        Words { rest: Some(line) }
    }

    /// Reads the next word, where there is one.
    pub fn next(&mut self) -> Option<&'a [u8]>
        ensures word { option_copied result ≡ slice_get self.old 0 }
        ensures left { self.new ≡ drop 1 self.old }
    {
        let rest = self.rest?;
        let Some(end) = first_of(rest, b' ') else {
            self.rest = None;
            return Some(rest);
        };
        self.rest = Some(&rest[end + 1..]);
        Some(&rest[..end])
    }

    /// Whether each word was read.
    pub fn is_done(&self) -> bool
        ensures { MatchBool result (self.now ≡ []) (self.now ≢ []) }
    {
        self.rest.is_none()
    }
}
