//! Statements that begin with a type.

use f77_ast::name::Name;
use f77_ast::specification::TypedDeclarator;
use sqlite_items::Items;

/// What follows a type.
#[derive(Drop)]
pub enum Typed {
    /// `FUNCTION` name `(` [list(name)] `)`.
    Function(Name, Items<Name>),
    /// list(decl), or list(decl [`*` len]).
    Entities(Items<TypedDeclarator>),
}
