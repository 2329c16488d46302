//! Statements (ANSI X3.9-1978, sections 8 to 15).

use crate::data::DataGroup;
use crate::expr::{Expr, Ref};
use crate::name::Name;
use crate::specification::{
    CommonGroup, Declarator, EquivalenceGroup, ImplicitRule, NamedConstant, SaveEntry, TypeSpec,
    TypedDeclarator,
};
use hyb_base::bytes::Bytes;
use sqlite_items::{Boxed, Items};

/// label: 1 to 5 digits, not all 0, read without leading zeros: 1 to 99,999 (ANSI X3.9-1978, section 3.4).
pub type Label = u32;

/// The control of a DO or an implied DO: name `=` expr `,` expr [`,` expr]
/// (ANSI X3.9-1978, sections 11.10 and 12.8.2.3).
#[derive(Drop)]
pub struct LoopControl {
    /// The DO-variable.
    pub variable: Name,
    /// The initial parameter.
    pub first: Expr,
    /// The terminal parameter.
    pub last: Expr,
    /// The incrementation parameter; where it is left out, 1.
    pub increment: Option<Expr>,
}

/// What STOP shows: 1 to 5 digits or a character constant (ANSI X3.9-1978, section 11.12).
#[derive(Drop)]
pub enum StopCode {
    /// 1 to 5 digits.
    Digits(u32),
    /// a character constant of at least one character.
    Chars(Bytes),
}

/// item: expr; `(` list(item) `,` name `=` expr `,` expr [`,` expr] `)`
/// (ANSI X3.9-1978, sections 12.8.2 and 12.8.2.3).
#[derive(Drop)]
pub enum Item {
    /// expr; of READ, a ref.
    Plain(Expr),
    /// an implied-DO list: `(` list(item) `,` name `=` expr `,` expr [`,` expr] `)`.
    Implied(Items<Item>, LoopControl),
}

/// A statement without its label. Each variant holds the parts of its spelling in order.
///
/// The executable statements are those from `Assign` to `Read`.
#[derive(Drop)]
pub enum Stmt {
    /// Assign: ref `=` expr (section 10).
    Assign {
        /// ref, what is assigned to.
        target: Ref,
        /// expr, what it becomes.
        value: Expr,
    },
    /// Do: `DO` label [`,`] name `=` expr `,` expr [`,` expr] (section 11.10).
    Do {
        /// label of the terminal statement.
        terminal: Label,
        /// name `=` expr `,` expr [`,` expr].
        control: LoopControl,
    },
    /// Continue: `CONTINUE` (section 11.11).
    Continue,
    /// Return: `RETURN` (section 15.8).
    Return,
    /// Else: `ELSE` (section 11.8).
    Else,
    /// EndIf: `ENDIF` (section 11.9).
    EndIf,
    /// End: `END` (section 11.14).
    End,
    /// Stop: `STOP` [1 to 5 digits or a character constant] (section 11.12).
    Stop(Option<StopCode>),
    /// Goto: `GOTO` label (section 11.1).
    Goto(Label),
    /// ComputedGoto: `GOTO(` list(label) `)` [`,`] expr (section 11.2).
    ComputedGoto {
        /// list(label), the places to go on at for 1, 2 and so on.
        labels: Items<Label>,
        /// expr, which of them.
        index: Expr,
    },
    /// ArithmeticIf: `IF(` expr `)` label `,` label `,` label (section 11.4).
    ArithmeticIf {
        /// expr, whose sign decides.
        value: Expr,
        /// label for a value below 0.
        negative: Label,
        /// label for 0.
        zero: Label,
        /// label for a value above 0.
        positive: Label,
    },
    /// LogicalIf: `IF(` expr `)` and one of Assign, Continue, Goto, ComputedGoto, ArithmeticIf, Call, Return,
    /// Stop, Print, Read (section 11.5).
    LogicalIf {
        /// expr, whether the statement is run.
        condition: Expr,
        /// the statement.
        inner: Boxed<Stmt>,
    },
    /// BlockIf: `IF(` expr `)THEN` (section 11.6).
    BlockIf(Expr),
    /// ElseIf: `ELSEIF(` expr `)THEN` (section 11.7).
    ElseIf(Expr),
    /// Call: `CALL` name [`(` [list(expr)] `)`] (section 15.6.2.1).
    Call {
        /// name of the subroutine.
        name: Name,
        /// list(expr), the actual arguments, empty where there is no list.
        args: Items<Expr>,
    },
    /// Print: `PRINT*` [`,` list(item)]; `WRITE(*,*)` [list(item)] (section 12.8).
    Print(Items<Item>),
    /// Read: `READ*,` list(item); `READ(*,*)` list(item); its plain items are refs (section 12.8).
    Read(Items<Item>),
    /// Program: `PROGRAM` name (section 14.1).
    Program(Name),
    /// Subroutine: `SUBROUTINE` name [`(` [list(name)] `)`] (section 15.6.1).
    Subroutine {
        /// name.
        name: Name,
        /// list(name), the dummy arguments, empty where there is no list.
        dummies: Items<Name>,
    },
    /// Function: [typ] `FUNCTION` name `(` [list(name)] `)` (section 15.5.1).
    Function {
        /// typ of the result.
        typ: Option<TypeSpec>,
        /// name.
        name: Name,
        /// list(name), the dummy arguments.
        dummies: Items<Name>,
    },
    /// Declare: `INTEGER` list(decl); `LOGICAL` list(decl); `CHARACTER` [`*` len [`,`]] list(decl [`*` len])
    /// (sections 8.4.1 and 8.4.2).
    Declare {
        /// `INTEGER`; `LOGICAL`; `CHARACTER` [`*` len].
        typ: TypeSpec,
        /// list(decl), or list(decl [`*` len]) of CHARACTER.
        entities: Items<TypedDeclarator>,
    },
    /// Dimension: `DIMENSION` list(name `(` list(bound) `)`) (section 8.1).
    Dimension(Items<Declarator>),
    /// Common: `COMMON` and groups [`/` [name] `/`] list(decl), with [`,`] between; only the first may lack its
    /// slashes (section 8.3).
    Common(Items<CommonGroup>),
    /// Equivalence: `EQUIVALENCE` list of `(` ref `,` list(ref) `)`, without substrings (section 8.2).
    Equivalence(Items<EquivalenceGroup>),
    /// Parameter: `PARAMETER(` list(name `=` expr) `)` (section 8.6).
    Parameter(Items<NamedConstant>),
    /// Implicit: `IMPLICIT` list of typ `(` list(letter [`-` letter]) `)` (section 8.5).
    Implicit(Items<ImplicitRule>),
    /// Save: `SAVE` [list(name or `/` name `/`)]; it has no effect (section 8.9).
    Save(Items<SaveEntry>),
    /// Init: `DATA` and groups list(ref) `/` list([repeat `*`] const) `/`, with [`,`] between, without
    /// substrings (section 9.1).
    Init(Items<DataGroup>),
}
