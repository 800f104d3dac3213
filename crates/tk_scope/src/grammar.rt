//! The grammar of a scope: `scope-token *( SP scope-token )`.

ghost use Rattle.std.specs.Prelude.{◌≡◌};
ghost use Rattle.std.specs.List.{list_all};
ghost use Rattle.tk_scope.specs.Scope.{is_scope_byte, is_token, tokens_of};

/// Returns whether the text is one or more tokens, with one space between each two.
pub(crate) fn is_list_of_tokens(text: &str) -> bool
    ensures { result ≡ list_all is_token (tokens_of text.now) }
{
    text.split(' ').all(is_token)
}

/// Returns whether the text is one token.
fn is_token(token: &str) -> bool
    ensures { result ≡ is_token token.now }
{
    !token.is_empty() && are_scope_bytes(token)
}

fn are_scope_bytes(text: &str) -> bool
    ensures { result ≡ list_all is_scope_byte text.now }
{
    text.bytes().all(is_scope_byte)
}

fn is_scope_byte(byte: u8) -> bool
    ensures { result ≡ is_scope_byte byte }
{
    matches!(byte, 0x21 | 0x23..=0x5b | 0x5d..=0x7e)
}
