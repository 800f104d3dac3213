//! The reply over a connection that stays open: `keep_open`.

ghost use Rattle.std.specs.Prelude.{◌≡◌, ◌+◌, ◌<◌, ◌≤◌, ◌++◌, List, ℕ, length, take, drop};
ghost use Rattle.std.specs.Prelude.{IfNone, IfSome, true};
ghost use Rattle.tk_edge.specs.OpenReply as spec;

/// The line that says that a connection ends.
const CLOSING_LINE: &[u8] = b"Connection: close\r\n";

/// Takes the line `Connection: close` out of the reply that begins at `start` (RFC 9112, 9.3). A
/// reply without that line stays as it is, as does what is before the reply. `start` is at most
/// the length of `replies`.
pub fn keep_open(replies: &mut Vec<u8>, start: usize)
    requires { start ≤ length replies.old.items }
    ensures { (without : List ℕ)
        × spec.IsOpenReply (drop start replies.old.items) without
        × (replies.new.items ≡ take start replies.old.items ++ without) }
{
    if let Some(at) = closing_line_at(&replies[start..]) {
        cut(replies, start + at);
    }
}

// Returns the place of the first closing line of a reply.
fn closing_line_at(reply: &[u8]) -> Option<usize>
    ensures some { IfSome result (spec.IsFirstAt reply.now) }
    ensures none { IfNone result (spec.HasNone reply.now) }
    ensures within { IfSome result (λ at. at + length spec.closing_line ≤ length reply.now) }
{
    for at in 0..reply.len() {
        if is_closing_at(reply, at) {
            return Some(at);
        }
    }
    None
}

// Returns whether a closing line is at a place. The test of its first byte spares most places the
// other one.
fn is_closing_at(reply: &[u8], at: usize) -> bool
    requires { at < length reply.now }
    ensures value { result ≡ spec.says_at reply.now at }
    ensures within { result ≡ true → at + length spec.closing_line ≤ length reply.now }
{
    if reply[at] != b'C' {
        return false;
    }
    reply[at..].starts_with(CLOSING_LINE)
}

// Takes the line at a place out.
fn cut(replies: &mut Vec<u8>, at: usize)
    requires { at + length spec.closing_line ≤ length replies.old.items }
    ensures { replies.new.items
        ≡ take at replies.old.items ++ drop (at + length spec.closing_line) replies.old.items }
{
    let count = replies.len() - CLOSING_LINE.len();
    replies.copy_within(at + CLOSING_LINE.len().., at);
    replies.truncate(count);
}
