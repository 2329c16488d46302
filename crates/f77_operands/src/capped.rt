//! Numbers of operands that don't wrap: one past the limit is kept as one more than may be.
ghost use Rattle.std.specs.Prelude.{◌≡◌, ◌+◌, length};
ghost use Rattle.f77_operands.specs.Capped.{capped};

use f77_ast::limits::MOST_OPERANDS;

/// The sum of two numbers, or MOST_OPERANDS + 1 where it is more.
pub fn plus(one: u32, other: u32) -> u32
    ensures { result ≡ capped (one + other) }
{
    one.saturating_add(other).min(MOST_OPERANDS + 1)
}

/// The number of items of a list, or MOST_OPERANDS + 1 where it is more.
pub fn count<T>(list: &[T]) -> u32
    ensures { result ≡ capped (length list.now) }
{
    u32::try_from(list.len())
        .unwrap_or(MOST_OPERANDS + 1)
        .min(MOST_OPERANDS + 1)
}
