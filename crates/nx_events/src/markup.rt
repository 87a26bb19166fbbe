//! Comments and processing instructions (XML 1.0, 2.5 and 2.6).

ghost use Rattle.std.specs.Prelude.{◌≡◌, ◌==◌, ◌≤◌, length, slice_index_or};
ghost use Rattle.nx_events.specs.Markup.{has_loose_hyphen, is_bad_comment, ends_target, is_target_of_length, is_bad_pi};

use crate::front::begins_with_space;
use crate::reference::name_len;

fn goes_on_with_hyphen(bytes: &[u8]) -> bool
    ensures { result ≡ (slice_index_or bytes.now 0 45 == 45) }
{
    match bytes {
        [] => true,
        [first, ..] => *first == b'-',
    }
}

// Whether some `-` is the last or has another behind it.
#[tactic(auto, unfolding(crate::specs::Markup::has_loose_hyphen))]
fn has_loose_hyphen(bytes: &[u8]) -> bool
    ensures { result ≡ has_loose_hyphen bytes.now }
{
    let mut rest = bytes;
    while let [first, others @ ..] = rest {
        if *first == b'-' && goes_on_with_hyphen(others) {
            return true;
        }
        rest = others;
    }
    false
}

/// Whether a comment has `--` in its content, or `-` at its end.
#[tactic(auto, unfolding(crate::specs::Markup::is_bad_comment))]
pub(crate) fn is_bad_comment(bytes: &[u8]) -> bool
    ensures { result ≡ is_bad_comment bytes.now }
{
    if bytes.len() < 7 {
        return has_loose_hyphen(&[]);
    }
    has_loose_hyphen(&bytes[4..bytes.len() - 3])
}

fn ends_target(bytes: &[u8]) -> bool
    ensures { result ≡ ends_target bytes.now }
{
    begins_with_space(bytes) || bytes.starts_with(b"?>")
}

fn is_target_of_length(n: usize, bytes: &[u8]) -> bool
    requires { n ≤ length bytes.now }
    ensures { result ≡ is_target_of_length n bytes.now }
{
    let (target, rest) = bytes.split_at(n);
    n != 0 && !target.contains(&b':') && !target.eq_ignore_ascii_case(b"xml") && ends_target(rest)
}

/// Whether a processing instruction has no target of its own.
#[tactic(auto, unfolding(crate::specs::Markup::is_bad_pi))]
pub(crate) fn is_bad_pi(bytes: &[u8]) -> bool
    ensures { result ≡ is_bad_pi bytes.now }
{
    let content = if bytes.len() < 2 { &[] } else { &bytes[2..] };
    !is_target_of_length(name_len(content), content)
}
