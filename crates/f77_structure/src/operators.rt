//! Operators by their operands (ANSI X3.9-1978, section 6.1.1).
ghost use Rattle.std.specs.Prelude.{◌≡◌};
ghost use Rattle.f77_structure.specs.Values.{is_sign, is_arithmetic};

use f77_ast::expr::Op;

/// Whether an operator is `+` or `-` before its operand.
pub fn is_sign(operator: Op) -> bool
    ensures { result ≡ is_sign operator }
{
    match operator {
        Op::Plus => true,
        Op::Neg => true,
        Op::Not => false,
        Op::Add => false,
        Op::Sub => false,
        Op::Mul => false,
        Op::Div => false,
        Op::Pow => false,
        Op::Cat => false,
        Op::Rel(_) => false,
        Op::And => false,
        Op::Or => false,
        Op::Eqv => false,
        Op::Neqv => false,
    }
}

/// Whether an operator is `+`, `-`, `*`, `/` or `**` between two operands.
pub fn is_arithmetic(operator: Op) -> bool
    ensures { result ≡ is_arithmetic operator }
{
    match operator {
        Op::Plus => false,
        Op::Neg => false,
        Op::Not => false,
        Op::Add => true,
        Op::Sub => true,
        Op::Mul => true,
        Op::Div => true,
        Op::Pow => true,
        Op::Cat => false,
        Op::Rel(_) => false,
        Op::And => false,
        Op::Or => false,
        Op::Eqv => false,
        Op::Neqv => false,
    }
}
