//! What an expression is, and where it may be.
ghost use Rattle.std.specs.Prelude.{◌≡◌};
ghost use Rattle.std.specs.Option.{option_copied, is_some};
ghost use Rattle.f77_kinds.specs.Found as spec;
ghost use Rattle.f77_kinds.specs.Statements as places;
ghost use Rattle.f77_uses.specs.Tables.{told_by, known_in};

use crate::kinds::fits;
use f77_ast::expr::Kind;
use f77_ast::name::Name;
use f77_ast::specification::Bound;
use f77_leaves::meant::Meant;
use f77_uses::tables::Tables;

/// What an expression is.
#[derive(Clone, Copy, Debug, PartialEq, Eq)]
pub enum Form {
    /// The name of a variable; dummy arguments and results are that too.
    Variable,
    /// The name of a constant.
    Constant,
    /// The name of an array without subscripts.
    Array,
    /// The name of an array whose last upper bound is `*`, without subscripts.
    AssumedSize,
    /// An element of an array.
    Element,
    /// A reference of an intrinsic function.
    Function,
    /// Something called, with a substring's bounds or without.
    Call,
    /// A substring of something that isn't called.
    Substring,
    /// A literal, an operation, or an expression in parentheses.
    Value,
}

/// Whether it is the name of an array without subscripts.
pub fn is_whole(form: Form) -> bool
    ensures { result ≡ spec.is_whole form }
{
    match form {
        Form::Variable => false,
        Form::Constant => false,
        Form::Array => true,
        Form::AssumedSize => true,
        Form::Element => false,
        Form::Function => false,
        Form::Call => false,
        Form::Substring => false,
        Form::Value => false,
    }
}

/// Whether it is the name of an array whose last upper bound is `*`, without subscripts.
pub fn is_assumed_size(form: Form) -> bool
    ensures { result ≡ spec.is_assumed_size form }
{
    match form {
        Form::Variable => false,
        Form::Constant => false,
        Form::Array => false,
        Form::AssumedSize => true,
        Form::Element => false,
        Form::Function => false,
        Form::Call => false,
        Form::Substring => false,
        Form::Value => false,
    }
}

/// Whether the last upper bound is `*`.
fn is_open_last(bounds: &[Bound]) -> bool
    ensures { result ≡ spec.is_open_last bounds.now }
{
    match bounds.last() {
        None => false,
        Some(bound) => bound.high.is_none(),
    }
}

/// What the name of an array with these bounds is.
fn whole_form(bounds: &[Bound]) -> Form
    ensures { result ≡ spec.whole_form bounds.now }
{
    if is_open_last(bounds) {
        Form::AssumedSize
    } else {
        Form::Array
    }
}

/// What the name of something without bounds is.
fn scalar_form(is_constant: bool) -> Form
    ensures { result ≡ spec.scalar_form is_constant }
{
    if is_constant {
        Form::Constant
    } else {
        Form::Variable
    }
}

/// What a name without a list is.
pub fn name_form(tables: &Tables, name: &Name) -> Form
    ensures { result ≡ spec.name_form (known_in tables.now.names name.now) }
{
    match tables.names.bounds(name) {
        None => scalar_form(tables.names.has_value(name)),
        Some(bounds) => whole_form(bounds.as_slice()),
    }
}

/// What a name with a list is.
pub fn listed_form(meaning: Meant) -> Form
    ensures { result ≡ spec.listed_form meaning }
{
    match meaning {
        Meant::Element => Form::Element,
        Meant::Function(_) => Form::Function,
        Meant::Call => Form::Call,
    }
}

/// Whether a substring may be taken of it: of a CHARACTER variable or element. Of that of a call nothing is said yet.
pub fn has_substrings(form: Form, given: Option<Kind>) -> bool
    ensures { result ≡ spec.has_substrings form given }
{
    match form {
        Form::Variable => fits(Kind::Character, given),
        Form::Constant => false,
        Form::Array => false,
        Form::AssumedSize => false,
        Form::Element => fits(Kind::Character, given),
        Form::Function => false,
        Form::Call => true,
        Form::Substring => false,
        Form::Value => false,
    }
}

/// What a substring of it is: that of something called counts as called.
pub fn part_form(form: Form) -> Form
    ensures { result ≡ spec.part_form form }
{
    match form {
        Form::Variable => Form::Substring,
        Form::Constant => Form::Substring,
        Form::Array => Form::Substring,
        Form::AssumedSize => Form::Substring,
        Form::Element => Form::Substring,
        Form::Function => Form::Substring,
        Form::Call => Form::Call,
        Form::Substring => Form::Substring,
        Form::Value => Form::Substring,
    }
}

/// Whether it may be assigned to: a variable, an element or a substring.
pub fn is_assignable(form: Form) -> bool
    ensures { result ≡ places.is_assignable form }
{
    match form {
        Form::Variable => true,
        Form::Constant => false,
        Form::Array => false,
        Form::AssumedSize => false,
        Form::Element => true,
        Form::Function => false,
        Form::Call => false,
        Form::Substring => true,
        Form::Value => false,
    }
}

/// Whether it is a variable.
pub fn is_variable(form: Form) -> bool
    ensures { result ≡ places.is_variable form }
{
    match form {
        Form::Variable => true,
        Form::Constant => false,
        Form::Array => false,
        Form::AssumedSize => false,
        Form::Element => false,
        Form::Function => false,
        Form::Call => false,
        Form::Substring => false,
        Form::Value => false,
    }
}

/// Whether READ may set it: a variable, an element, or an array whose last upper bound isn't `*`.
pub fn is_readable(form: Form) -> bool
    ensures { result ≡ places.is_readable form }
{
    match form {
        Form::Variable => true,
        Form::Constant => false,
        Form::Array => true,
        Form::AssumedSize => false,
        Form::Element => true,
        Form::Function => false,
        Form::Call => false,
        Form::Substring => false,
        Form::Value => false,
    }
}
