//! The tokens of a text, parted by spaces.

ghost use Rattle.std.specs.Prelude.{◌≡◌, length};
ghost use Rattle.std.specs.List.{list_any};
ghost use Rattle.std.specs.Str.{bytes_eq};
ghost use Rattle.tk_scope.specs.Scope.{is_within, tokens_of};

/// Returns how many tokens the text has, counting repeated ones.
pub(crate) fn token_count(text: &str) -> usize
    ensures { result ≡ length (tokens_of text.now) }
{
    text.split(' ').count()
}

/// Returns whether each token of the text is a token of the other text.
pub(crate) fn are_tokens_within(text: &str, other: &str) -> bool
    ensures { result ≡ is_within text.now other.now }
{
    text.split(' ').all(|token| has_token(other, token))
}

fn has_token(text: &str, token: &str) -> bool
    ensures { result ≡ list_any (bytes_eq token.now) (tokens_of text.now) }
{
    text.split(' ').any(|t| token == t)
}
