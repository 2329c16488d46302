//! Parts of statements in which something may be broken, and lists of them.
ghost use Rattle.std.specs.Prelude.{◌≡◌};
ghost use Rattle.f77_kinds.specs.Breaches.{any_of};
ghost use Rattle.f77_kinds.specs.Statements as spec;
ghost use Rattle.f77_uses.specs.Tables.{told_by};

use crate::breach::{Breach, clash_if, either, miscount_if, no_breach};
use crate::forms::{is_assumed_size, is_whole};
use crate::found::{Found, expr_found, member_found, name_found, operand_breach};
use crate::kinds::{fits, kinds_differ};
use f77_ast::data::{DataConstant, DataGroup, DataValue, Repeat};
use f77_ast::expr::{Expr, Kind, Ref};
use f77_ast::limits::MOST_DIMENSIONS;
use f77_ast::specification::{
    Bound, CommonGroup, Declarator, EquivalenceGroup, ImplicitRule, Length, NamedConstant,
    TypeSpec, TypedDeclarator,
};
use f77_uses::tables::Tables;

/// A part of a statement in which something may be broken.
pub trait Judged {
    ghost use Rattle.f77_kinds.specs.declared.breach.Breach.{Breach};
    ghost use Rattle.f77_leaves.specs.Declarations.{Declarations};
    ghost use Rattle.f77_uses.specs.Tables.{told_by};

    ghost breach_of: { Declarations → Self → Breach };

    /// What is broken in it, in a unit with these tables.
    fn breach(&self, tables: &Tables) -> Breach
        ensures { result ≡ breach_of (told_by tables.now) self.now };
}

impl<T: Judged> Judged for Option<T> {
    ghost use Rattle.f77_kinds.specs.Breaches.{if_there};

    ghost breach_of = { λ unit. if_there (T.breach_of unit) };

    fn breach(&self, tables: &Tables) -> Breach {
        match self {
            None => no_breach(),
            Some(part) => part.breach(tables),
        }
    }
}

/// What is broken in some parts.
pub fn breach_in<T: Judged>(tables: &Tables, parts: &[T]) -> Breach
    ensures { result ≡ any_of (T.breach_of (told_by tables.now)) parts.now }
{
    let mut breach = no_breach();
    for part in parts {
        breach = either(breach, part.breach(tables));
    }
    breach
}

impl Judged for Expr {
    ghost use Rattle.f77_kinds.specs.Statements.{integer_breach};

    ghost breach_of = { integer_breach };

    /// What is broken in an expression that is to be an INTEGER, as most are that parts of statements have.
    fn breach(&self, tables: &Tables) -> Breach {
        operand_breach(Kind::Integer, expr_found(tables, self))
    }
}

/// What is broken in the condition of an IF or ELSE IF.
pub fn condition_breach(tables: &Tables, condition: &Expr) -> Breach
    ensures { result ≡ spec.condition_breach (told_by tables.now) condition.now }
{
    operand_breach(Kind::Logical, expr_found(tables, condition))
}

/// What is broken in the actual arguments of a CALL, each by itself.
pub fn actuals_breach(tables: &Tables, args: &[Expr]) -> Breach
    ensures { result ≡ any_of (spec.actual_breach (told_by tables.now)) args.now }
{
    let mut breach = no_breach();
    for arg in args {
        let found = expr_found(tables, arg);
        breach = either(breach, found.breach);
    }
    breach
}

/// Whether something is no value for what is of this kind: the name of an array, or of another kind.
fn is_no_value(taker: Option<Kind>, value: Found) -> bool
    ensures { result ≡ spec.is_no_value taker value }
{
    is_whole(value.form) || kinds_differ(taker, value.kind)
}

/// What is broken in a value that something of this kind takes.
pub fn value_breach(taker: Option<Kind>, value: Found) -> Breach
    ensures { result ≡ spec.value_breach taker value }
{
    either(value.breach, clash_if(is_no_value(taker, value)))
}

impl Judged for Length {
    ghost use Rattle.f77_kinds.specs.Statements.{length_breach};

    ghost breach_of = { length_breach };

    /// What is broken in a length (section 8.4.2).
    fn breach(&self, tables: &Tables) -> Breach {
        match self {
            Length::Digits(_) => no_breach(),
            Length::Paren(expr) => expr.breach(tables),
            Length::Asterisk => no_breach(),
        }
    }
}

impl Judged for TypeSpec {
    ghost use Rattle.f77_kinds.specs.Statements.{type_breach};

    ghost breach_of = { type_breach };

    /// What is broken in a type (sections 8.4.1, 8.4.2 and 8.5).
    fn breach(&self, tables: &Tables) -> Breach {
        match self {
            TypeSpec::Integer => no_breach(),
            TypeSpec::Logical => no_breach(),
            TypeSpec::Character(length) => length.breach(tables),
        }
    }
}

impl Judged for Bound {
    ghost use Rattle.f77_kinds.specs.Statements.{dimension_breach};

    ghost breach_of = { dimension_breach };

    /// What is broken in the bounds of a dimension (section 5.1.1.1).
    fn breach(&self, tables: &Tables) -> Breach {
        either(self.low.breach(tables), self.high.breach(tables))
    }
}

impl Judged for Declarator {
    ghost use Rattle.f77_kinds.specs.Statements.{declarator_breach};

    ghost breach_of = { declarator_breach };

    /// What is broken in a declared name with its bounds (section 5.1.1).
    fn breach(&self, tables: &Tables) -> Breach {
        either(
            breach_in(tables, self.bounds.as_slice()),
            miscount_if(self.bounds.len() > MOST_DIMENSIONS),
        )
    }
}

impl Judged for TypedDeclarator {
    ghost use Rattle.f77_kinds.specs.Statements.{entity_breach};

    ghost breach_of = { entity_breach };

    /// What is broken in an entity of a type statement (section 8.4).
    fn breach(&self, tables: &Tables) -> Breach {
        either(self.declarator.breach(tables), self.length.breach(tables))
    }
}

impl Judged for CommonGroup {
    ghost use Rattle.f77_kinds.specs.Statements.{group_breach};

    ghost breach_of = { group_breach };

    /// What is broken in a group of COMMON (section 8.3).
    fn breach(&self, tables: &Tables) -> Breach {
        breach_in(tables, self.members.as_slice())
    }
}

impl Judged for Ref {
    ghost use Rattle.f77_kinds.specs.Statements.{member_breach};

    ghost breach_of = { member_breach };

    /// What is broken in a member of EQUIVALENCE or DATA (sections 8.2.2 and 9.1).
    fn breach(&self, tables: &Tables) -> Breach {
        let found = member_found(tables, self);
        either(found.breach, clash_if(is_assumed_size(found.form)))
    }
}

impl Judged for EquivalenceGroup {
    ghost use Rattle.f77_kinds.specs.Statements.{equivalence_breach};

    ghost breach_of = { equivalence_breach };

    /// What is broken in a list of EQUIVALENCE (section 8.2).
    fn breach(&self, tables: &Tables) -> Breach {
        breach_in(tables, self.members.as_slice())
    }
}

impl Judged for NamedConstant {
    ghost use Rattle.f77_kinds.specs.Statements.{constant_breach};

    ghost breach_of = { constant_breach };

    /// What is broken in a constant of PARAMETER (section 8.6).
    fn breach(&self, tables: &Tables) -> Breach {
        value_breach(tables.kind_of(&self.name), expr_found(tables, &self.value))
    }
}

impl Judged for ImplicitRule {
    ghost use Rattle.f77_kinds.specs.Statements.{rule_breach};

    ghost breach_of = { rule_breach };

    /// What is broken in the type of a rule of IMPLICIT (section 8.5).
    fn breach(&self, tables: &Tables) -> Breach {
        self.typ.breach(tables)
    }
}

/// Whether a name may be a repeat: it is INTEGER, and no array whose last upper bound is `*`.
fn is_repeat(found: Found) -> bool
    ensures { result ≡ spec.is_repeat found }
{
    !is_assumed_size(found.form) && fits(Kind::Integer, found.kind)
}

impl Judged for Repeat {
    ghost use Rattle.f77_kinds.specs.Statements.{repeat_breach};

    ghost breach_of = { repeat_breach };

    /// What is broken in a repeat of DATA (section 9.1).
    fn breach(&self, tables: &Tables) -> Breach {
        match self {
            Repeat::Digits(_) => no_breach(),
            Repeat::Named(name) => clash_if(!is_repeat(name_found(tables, name))),
        }
    }
}

impl Judged for DataConstant {
    ghost use Rattle.f77_kinds.specs.Statements.{data_constant_breach};

    ghost breach_of = { data_constant_breach };

    /// What is broken in a constant of DATA (section 9.1).
    fn breach(&self, tables: &Tables) -> Breach {
        match self {
            DataConstant::Int(_) => no_breach(),
            DataConstant::Truth(_) => no_breach(),
            DataConstant::Chars(_) => no_breach(),
            DataConstant::Named(name) => clash_if(is_assumed_size(name_found(tables, name).form)),
        }
    }
}

impl Judged for DataValue {
    ghost use Rattle.f77_kinds.specs.Statements.{data_value_breach};

    ghost breach_of = { data_value_breach };

    /// What is broken in a value of DATA (section 9.1).
    fn breach(&self, tables: &Tables) -> Breach {
        either(self.repeat.breach(tables), self.constant.breach(tables))
    }
}

impl Judged for DataGroup {
    ghost use Rattle.f77_kinds.specs.Statements.{data_breach};

    ghost breach_of = { data_breach };

    /// What is broken in a group of DATA (section 9.1).
    fn breach(&self, tables: &Tables) -> Breach {
        either(
            breach_in(tables, self.targets.as_slice()),
            breach_in(tables, self.values.as_slice()),
        )
    }
}
