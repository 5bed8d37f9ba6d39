//! How deep brackets nest.
ghost use Rattle.std.specs.Prelude.{◌≤◌, ◌<◌, length, IfSome, IfNone};
ghost use Rattle.fc_syntax.specs.Limits.{standard_limits};
ghost use Rattle.fc_model.specs.ReadFaults.{NestsWithin};
ghost use Rattle.fc_read_parts.specs.Seen.{seen, seen_all};
ghost use Rattle.fc_reader.specs.Nested.{IsDeepBefore, IsPart, IsTooDeep, StepsTo};

use fc_read_parts::{Terminal, Tokens};
use fc_syntax::Limits;
use std::alloc::Global;

/// The level behind a token, none where it is a bracket that nests too deep.
fn level_behind(token: Terminal<'_>, level: usize) -> Option<usize>
    requires { level ≤ standard_limits.brackets }
    ensures none { IfNone result (IsTooDeep (seen token.entry) level) }
    ensures some { IfSome result (λ next. StepsTo (seen token.entry) level next) }
    ensures bounded { IfSome result (λ next. next ≤ standard_limits.brackets) }
{
    match token {
        Terminal::Open => {
            if level >= Limits::standard().brackets as usize {
                return None;
            }
            Some(level + 1)
        }
        Terminal::Close => Some(level.saturating_sub(1)),
        _ => Some(level),
    }
}

/// How many tokens stand behind the first bracket that nests too deep.
fn behind_deep_bracket(alloc: Global, tokens: &[Terminal<'_>]) -> Option<usize>
    ensures none { IfNone result (NestsWithin (seen_all tokens.now)) }
    ensures some { IfSome result (λ n. IsDeepBefore (seen_all tokens.now) n) }
    ensures inside { IfSome result (λ n. n < length tokens.now) }
{
    let mut level = 0;
    let mut rest = Tokens::new(alloc, tokens);
    'each: loop {
        let Some(token) = rest.next() else {
            return None;
        };
        let Some(next) = level_behind(token, level) else {
            return Some(rest.left());
        };
        level = next;
    }
}

/// The tokens up to and with the first bracket that nests too deep, and whether there is one. The readers work on these alone,
/// so that they never go deeper.
pub fn up_to_deep_bracket<'a, 'b>(
    alloc: Global,
    tokens: &'b [Terminal<'a>],
) -> (&'b [Terminal<'a>], bool)
    ensures { IsPart (seen_all tokens.now) (seen_all result.0.now) result.1 }
{
    match behind_deep_bracket(alloc, tokens) {
        None => (tokens, false),
        Some(behind) => (&tokens[..tokens.len() - behind], true),
    }
}
