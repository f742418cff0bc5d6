// What the definitions of tokens come to together: the contract is a fact, and the body is empty.
ghost use Rattle.std.specs.Prelude.{◌≡◌, ◌<◌, ℕ, List, Some};
ghost use Rattle.std.specs.List.{All};
ghost use Rattle.cache_model.specs.Tokens.{token_value, token_text};

/// What is said as a token is read as the same bytes.
pub fn tokens_are_read_as_said()
    ensures { (bytes : List ℕ) → All (λ byte. byte < 256) bytes → token_value (token_text bytes) ≡ Some bytes }
{}
