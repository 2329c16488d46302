//! The refusal of a statement by a rule.
ghost use Rattle.std.specs.Prelude.{◌≡◌, Some, None, if◌then◌else◌};
ghost use Rattle.f77_uses.specs.Refused.{at};

use f77_ast::program::Listed;
use f77_ast::refusal::Refusal;
use f77_ast::rule::Rule;

/// The refusal of a statement by a rule, where it breaks it.
pub fn refused_if(breaks: bool, listed: &Listed, rule: Rule) -> Option<Refusal>
    ensures { result ≡ (if breaks then Some (at listed.now rule) else None) }
{
    if breaks {
        Some(Refusal::new(listed.card.line, rule))
    } else {
        None
    }
}
