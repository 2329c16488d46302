//! What is in a statement, in the order of its text: its literals, and its names, each with what it is there.
ghost use Rattle.std.specs.Prelude.{◌≡◌, ◌++◌, [], ◌∷◌, map, OnOk, IfOk};
ghost use Rattle.std.specs.List.{flat_map};
ghost use Rattle.std.specs.Option.{option_map};
ghost use Rattle.f77_leaves.specs.Leaves as spec;

use f77_ast::data::{DataConstant, DataGroup, DataValue, Repeat};
use f77_ast::expr::{Expr, Part, Ref};
use f77_ast::name::Name;
use f77_ast::specification::{
    Bound, CommonGroup, Declarator, EquivalenceGroup, ImplicitRule, Length, NamedConstant,
    SaveEntry, TypeSpec, TypedDeclarator,
};
use f77_ast::stmt::{Item, LoopControl, Stmt, StopCode};
use hyb_base::list::List;
use hyb_base::no_memory::NoMemory;
use sqlite_items::{Boxed, Items};
use std::alloc::Global;

/// What a name is where it is in a statement, by the text of the statement alone.
#[derive(Clone, Copy, Debug, PartialEq, Eq)]
pub enum Role {
    /// The name that PROGRAM or SUBROUTINE gives its unit.
    Heading,
    /// The name that FUNCTION gives its unit, and its result.
    Function,
    /// A dummy argument of SUBROUTINE or FUNCTION.
    Dummy,
    /// A name in a type statement, without bounds.
    Typed,
    /// A name with bounds, in a type statement or DIMENSION.
    Shaped,
    /// A member of COMMON, with bounds or without.
    Common,
    /// A common block's name, in COMMON or SAVE.
    Block,
    /// A member of EQUIVALENCE.
    Member,
    /// A name that takes values of DATA.
    Filled,
    /// The name of a constant in PARAMETER.
    Constant,
    /// A repeat between the slashes of DATA.
    Repeat,
    /// A constant between the slashes of DATA.
    Datum,
    /// A variable or an array in SAVE.
    Saved,
    /// The name after CALL.
    Called,
    /// What is assigned to.
    Target,
    /// An item of READ.
    Input,
    /// The variable of a DO or implied DO.
    Control,
    /// A reference anywhere else in an expression.
    Operand,
}

/// A name in a statement.
#[derive(Drop)]
pub struct Mention {
    /// The name.
    pub name: Name,
    /// What it is there.
    pub role: Role,
    /// Whether a list in parentheses follows it, of subscripts or arguments.
    pub listed: bool,
}

/// One of the literals and names of a statement.
#[derive(Drop)]
pub enum Leaf {
    /// A number or a logical constant, the digits of a length, or those of STOP.
    Literal,
    /// A character constant of this many characters.
    Text(usize),
    /// A name.
    Named(Mention),
}

/// What is in a statement, in order.
pub type Leaves = List<Leaf>;

/// Adds a name that nothing follows.
fn add_alone(name: &Name, role: Role, into: &mut Leaves) -> Result<(), NoMemory>
    ensures { OnOk result (into.new ≡ into.old ++ spec.names_leaves role (name.now ∷ [])) }
{
    into.push(Leaf::Named(Mention {
        name: name.copy(),
        role,
        listed: false,
    }))
}

/// Adds names of one role that nothing follows.
fn add_names(names: &[Name], role: Role, into: &mut Leaves) -> Result<(), NoMemory>
    ensures { OnOk result (into.new ≡ into.old ++ spec.names_leaves role names.now) }
{
    for name in names {
        add_alone(name, role, into)?;
    }
    Ok(())
}

/// Adds what is in an expression. Where it is nothing but a reference, that has this role.
#[cycle(leaves)]
fn add_expr(tree: &Expr, role: Role, into: &mut Leaves) -> Result<(), NoMemory>
    ensures { OnOk result (into.new ≡ into.old ++ spec.expr_leaves tree.now role) }
{
    match tree {
        Expr::Int(_value) => into.push(Leaf::Literal),
        Expr::Truth(_value) => into.push(Leaf::Literal),
        Expr::Chars(text) => into.push(Leaf::Text(text.len())),
        Expr::Ref(reference) => add_ref(reference, role, into),
        Expr::Unary(_op, operand) => add_expr(operand.get(), Role::Operand, into),
        Expr::Binary(_op, left, right) => {
            add_expr(left.get(), Role::Operand, into)?;
            add_expr(right.get(), Role::Operand, into)
        }
        Expr::Paren(inner) => add_expr(inner.get(), Role::Operand, into),
    }
}

/// Adds what is in a reference of this role.
#[cycle(leaves)]
fn add_ref(reference: &Ref, role: Role, into: &mut Leaves) -> Result<(), NoMemory>
    ensures { OnOk result (into.new ≡ into.old ++ spec.ref_leaves reference.now role) }
{
    into.push(Leaf::Named(Mention {
        name: reference.name.copy(),
        role,
        listed: reference.args.is_some(),
    }))?;
    add_args(&reference.args, into)?;
    add_part(&reference.part, into)
}

/// Adds what is in the subscripts or arguments of a reference.
#[cycle(leaves)]
fn add_args(args: &Option<Items<Expr>>, into: &mut Leaves) -> Result<(), NoMemory>
    ensures { OnOk result (into.new ≡ into.old ++ spec.operands_if (option_map (map spec.expr_leaves) args.now)) }
{
    match args {
        None => Ok(()),
        Some(args) => {
            for arg in args.as_slice() {
                add_expr(arg, Role::Operand, into)?;
            }
            Ok(())
        }
    }
}

/// Adds what is in the bounds of a substring.
#[cycle(leaves)]
fn add_part(part: &Option<Boxed<Part>>, into: &mut Leaves) -> Result<(), NoMemory>
    ensures { OnOk result (into.new ≡ into.old ++ spec.leaves_if (option_map spec.part_leaves part.now)) }
{
    match part {
        None => Ok(()),
        Some(part) => add_bounds(part.get(), into),
    }
}

/// Adds what is in the two bounds of a substring.
#[cycle(leaves)]
fn add_bounds(part: &Part, into: &mut Leaves) -> Result<(), NoMemory>
    ensures { OnOk result (into.new ≡ into.old ++ spec.part_leaves part.now) }
{
    add_bound(&part.low, into)?;
    add_bound(&part.high, into)
}

/// Adds what is in one bound of a substring.
#[cycle(leaves)]
fn add_bound(bound: &Option<Expr>, into: &mut Leaves) -> Result<(), NoMemory>
    ensures { OnOk result (into.new ≡ into.old ++ spec.operand_if (option_map spec.expr_leaves bound.now)) }
{
    match bound {
        None => Ok(()),
        Some(bound) => add_expr(bound, Role::Operand, into),
    }
}

/// Adds what is in an expression that is an operand and may be left out.
fn add_option(expr: &Option<Expr>, into: &mut Leaves) -> Result<(), NoMemory>
    ensures { OnOk result (into.new ≡ into.old ++ spec.option_leaves expr.now) }
{
    match expr {
        None => Ok(()),
        Some(expr) => add_expr(expr, Role::Operand, into),
    }
}

/// Adds what is in expressions that are operands.
fn add_exprs(exprs: &[Expr], into: &mut Leaves) -> Result<(), NoMemory>
    ensures { OnOk result (into.new ≡ into.old ++ flat_map spec.operand_leaves exprs.now) }
{
    for expr in exprs {
        add_expr(expr, Role::Operand, into)?;
    }
    Ok(())
}

/// Adds what is in references of one role.
fn add_refs(references: &[Ref], role: Role, into: &mut Leaves) -> Result<(), NoMemory>
    ensures { OnOk result (into.new ≡ into.old ++ spec.refs_leaves role references.now) }
{
    for reference in references {
        add_ref(reference, role, into)?;
    }
    Ok(())
}

/// Adds what is in the control of a DO or implied DO.
fn add_control(control: &LoopControl, into: &mut Leaves) -> Result<(), NoMemory>
    ensures { OnOk result (into.new ≡ into.old ++ spec.control_leaves control.now) }
{
    add_alone(&control.variable, Role::Control, into)?;
    add_expr(&control.first, Role::Operand, into)?;
    add_expr(&control.last, Role::Operand, into)?;
    add_option(&control.increment, into)
}

/// Adds what is in an item of a list of this role.
#[cycle(items)]
fn add_item(item: &Item, role: Role, into: &mut Leaves) -> Result<(), NoMemory>
    ensures { OnOk result (into.new ≡ into.old ++ spec.item_leaves item.now role) }
{
    match item {
        Item::Plain(expr) => add_expr(expr, role, into),
        Item::Implied(items, control) => {
            add_inner(items, role, into)?;
            add_control(control, into)
        }
    }
}

/// Adds what is in the items of an implied DO, in a list of this role.
#[cycle(items)]
fn add_inner(items: &Items<Item>, role: Role, into: &mut Leaves) -> Result<(), NoMemory>
    ensures { OnOk result (into.new ≡ into.old ++ spec.inner_leaves role (map spec.item_leaves items.now)) }
{
    for item in items.as_slice() {
        add_item(item, role, into)?;
    }
    Ok(())
}

/// Adds what is in a list of items of this role.
fn add_items(items: &[Item], role: Role, into: &mut Leaves) -> Result<(), NoMemory>
    ensures { OnOk result (into.new ≡ into.old ++ spec.items_leaves role items.now) }
{
    for item in items {
        add_item(item, role, into)?;
    }
    Ok(())
}

/// Adds what is in a length that may be left out.
fn add_length(length: &Option<Length>, into: &mut Leaves) -> Result<(), NoMemory>
    ensures { OnOk result (into.new ≡ into.old ++ spec.length_leaves length.now) }
{
    match length {
        None => Ok(()),
        Some(Length::Digits(_)) => into.push(Leaf::Literal),
        Some(Length::Paren(expr)) => add_expr(expr, Role::Operand, into),
        Some(Length::Asterisk) => Ok(()),
    }
}

/// Adds what is in a type.
fn add_type(typ: &TypeSpec, into: &mut Leaves) -> Result<(), NoMemory>
    ensures { OnOk result (into.new ≡ into.old ++ spec.type_leaves typ.now) }
{
    match typ {
        TypeSpec::Integer => Ok(()),
        TypeSpec::Logical => Ok(()),
        TypeSpec::Character(length) => add_length(length, into),
    }
}

/// Adds what is in a type that may be left out.
fn add_option_type(typ: &Option<TypeSpec>, into: &mut Leaves) -> Result<(), NoMemory>
    ensures { OnOk result (into.new ≡ into.old ++ spec.option_type_leaves typ.now) }
{
    match typ {
        None => Ok(()),
        Some(typ) => add_type(typ, into),
    }
}

/// Adds what is in bounds.
fn add_dimensions(bounds: &[Bound], into: &mut Leaves) -> Result<(), NoMemory>
    ensures { OnOk result (into.new ≡ into.old ++ flat_map spec.bound_leaves bounds.now) }
{
    for bound in bounds {
        add_option(&bound.low, into)?;
        add_option(&bound.high, into)?;
    }
    Ok(())
}

/// Adds a declared name of this role, and what is in its bounds.
fn add_declarator(declarator: &Declarator, role: Role, into: &mut Leaves) -> Result<(), NoMemory>
    ensures { OnOk result (into.new ≡ into.old ++ spec.declarator_leaves role declarator.now) }
{
    add_alone(&declarator.name, role, into)?;
    add_dimensions(declarator.bounds.as_slice(), into)
}

/// Adds declared names of one role.
fn add_declarators(
    declarators: &[Declarator],
    role: Role,
    into: &mut Leaves,
) -> Result<(), NoMemory>
    ensures { OnOk result (into.new ≡ into.old ++ flat_map (spec.declarator_leaves role) declarators.now) }
{
    for declarator in declarators {
        add_declarator(declarator, role, into)?;
    }
    Ok(())
}

/// What a name is in a type statement: it has bounds there, or not.
fn typed_role(bounds: &[Bound]) -> Role
    ensures { result ≡ spec.typed_role bounds.now }
{
    match bounds {
        [] => Role::Typed,
        [_, ..] => Role::Shaped,
    }
}

/// Adds what a type statement declares: a name with its bounds, and its length.
fn add_entity(entity: &TypedDeclarator, into: &mut Leaves) -> Result<(), NoMemory>
    ensures { OnOk result (into.new ≡ into.old ++ spec.entity_leaves entity.now) }
{
    let role = typed_role(entity.declarator.bounds.as_slice());
    add_declarator(&entity.declarator, role, into)?;
    add_length(&entity.length, into)
}

/// Adds what a type statement declares.
fn add_entities(entities: &[TypedDeclarator], into: &mut Leaves) -> Result<(), NoMemory>
    ensures { OnOk result (into.new ≡ into.old ++ flat_map spec.entity_leaves entities.now) }
{
    for entity in entities {
        add_entity(entity, into)?;
    }
    Ok(())
}

/// Adds the name of a common block, if it has one.
fn add_block(block: &Option<Name>, into: &mut Leaves) -> Result<(), NoMemory>
    ensures { OnOk result (into.new ≡ into.old ++ spec.block_leaves block.now) }
{
    match block {
        None => Ok(()),
        Some(name) => add_alone(name, Role::Block, into),
    }
}

/// Adds what is in groups of COMMON.
fn add_groups(groups: &[CommonGroup], into: &mut Leaves) -> Result<(), NoMemory>
    ensures { OnOk result (into.new ≡ into.old ++ flat_map spec.group_leaves groups.now) }
{
    for group in groups {
        add_block(&group.block, into)?;
        add_declarators(group.members.as_slice(), Role::Common, into)?;
    }
    Ok(())
}

/// Adds what is in the lists of EQUIVALENCE.
fn add_equivalences(groups: &[EquivalenceGroup], into: &mut Leaves) -> Result<(), NoMemory>
    ensures { OnOk result (into.new ≡ into.old ++ flat_map spec.member_leaves groups.now) }
{
    for group in groups {
        add_refs(group.members.as_slice(), Role::Member, into)?;
    }
    Ok(())
}

/// Adds what is in the constants of PARAMETER.
fn add_constants(constants: &[NamedConstant], into: &mut Leaves) -> Result<(), NoMemory>
    ensures { OnOk result (into.new ≡ into.old ++ flat_map spec.named_leaves constants.now) }
{
    for constant in constants {
        add_alone(&constant.name, Role::Constant, into)?;
        add_expr(&constant.value, Role::Operand, into)?;
    }
    Ok(())
}

/// Adds what is in the rules of IMPLICIT.
fn add_rules(rules: &[ImplicitRule], into: &mut Leaves) -> Result<(), NoMemory>
    ensures { OnOk result (into.new ≡ into.old ++ flat_map spec.rule_leaves rules.now) }
{
    for rule in rules {
        add_type(&rule.typ, into)?;
    }
    Ok(())
}

/// Adds the name in an entry of SAVE.
fn add_entry(entry: &SaveEntry, into: &mut Leaves) -> Result<(), NoMemory>
    ensures { OnOk result (into.new ≡ into.old ++ spec.entry_leaves entry.now) }
{
    match entry {
        SaveEntry::Entity(name) => add_alone(name, Role::Saved, into),
        SaveEntry::Block(name) => add_alone(name, Role::Block, into),
    }
}

/// Adds the names in the entries of SAVE.
fn add_entries(entries: &[SaveEntry], into: &mut Leaves) -> Result<(), NoMemory>
    ensures { OnOk result (into.new ≡ into.old ++ flat_map spec.entry_leaves entries.now) }
{
    for entry in entries {
        add_entry(entry, into)?;
    }
    Ok(())
}

/// Adds the repeat of a constant of DATA.
fn add_repeat(repeat: &Option<Repeat>, into: &mut Leaves) -> Result<(), NoMemory>
    ensures { OnOk result (into.new ≡ into.old ++ spec.repeat_leaves repeat.now) }
{
    match repeat {
        None => Ok(()),
        Some(Repeat::Digits(_)) => into.push(Leaf::Literal),
        Some(Repeat::Named(name)) => add_alone(name, Role::Repeat, into),
    }
}

/// Adds a constant of DATA.
fn add_constant(constant: &DataConstant, into: &mut Leaves) -> Result<(), NoMemory>
    ensures { OnOk result (into.new ≡ into.old ++ spec.constant_leaves constant.now) }
{
    match constant {
        DataConstant::Int(_) => into.push(Leaf::Literal),
        DataConstant::Truth(_) => into.push(Leaf::Literal),
        DataConstant::Chars(text) => into.push(Leaf::Text(text.len())),
        DataConstant::Named(name) => add_alone(name, Role::Datum, into),
    }
}

/// Adds the values of DATA.
fn add_values(values: &[DataValue], into: &mut Leaves) -> Result<(), NoMemory>
    ensures { OnOk result (into.new ≡ into.old ++ flat_map spec.value_leaves values.now) }
{
    for value in values {
        add_repeat(&value.repeat, into)?;
        add_constant(&value.constant, into)?;
    }
    Ok(())
}

/// Adds what is in the groups of DATA.
fn add_data(groups: &[DataGroup], into: &mut Leaves) -> Result<(), NoMemory>
    ensures { OnOk result (into.new ≡ into.old ++ flat_map spec.data_leaves groups.now) }
{
    for group in groups {
        add_refs(group.targets.as_slice(), Role::Filled, into)?;
        add_values(group.values.as_slice(), into)?;
    }
    Ok(())
}

/// Adds what STOP shows.
fn add_stop(code: &Option<StopCode>, into: &mut Leaves) -> Result<(), NoMemory>
    ensures { OnOk result (into.new ≡ into.old ++ spec.stop_leaves code.now) }
{
    match code {
        None => Ok(()),
        Some(StopCode::Digits(_)) => into.push(Leaf::Literal),
        Some(StopCode::Chars(text)) => into.push(Leaf::Text(text.len())),
    }
}

/// Adds what is in an assignment.
fn add_assignment(target: &Ref, value: &Expr, into: &mut Leaves) -> Result<(), NoMemory>
    ensures { OnOk result (into.new ≡ into.old ++ (spec.ref_leaves target.now Role.Target ++ spec.operand_leaves value.now)) }
{
    add_ref(target, Role::Target, into)?;
    add_expr(value, Role::Operand, into)
}

/// Adds what is in a CALL.
fn add_call(name: &Name, args: &[Expr], into: &mut Leaves) -> Result<(), NoMemory>
    ensures { OnOk result (into.new ≡ into.old ++ (spec.names_leaves Role.Called (name.now ∷ []) ++ flat_map spec.operand_leaves args.now)) }
{
    add_alone(name, Role::Called, into)?;
    add_exprs(args, into)
}

/// Adds what is in SUBROUTINE.
fn add_subroutine(name: &Name, dummies: &[Name], into: &mut Leaves) -> Result<(), NoMemory>
    ensures { OnOk result (into.new ≡ into.old ++ (spec.names_leaves Role.Heading (name.now ∷ []) ++ spec.names_leaves Role.Dummy dummies.now)) }
{
    add_alone(name, Role::Heading, into)?;
    add_names(dummies, Role::Dummy, into)
}

/// Adds what is in FUNCTION.
fn add_function(
    typ: &Option<TypeSpec>,
    name: &Name,
    dummies: &[Name],
    into: &mut Leaves,
) -> Result<(), NoMemory>
    ensures { OnOk result (into.new ≡ into.old ++ (spec.option_type_leaves typ.now ++ (spec.names_leaves Role.Function (name.now ∷ []) ++ spec.names_leaves Role.Dummy dummies.now))) }
{
    add_option_type(typ, into)?;
    add_alone(name, Role::Function, into)?;
    add_names(dummies, Role::Dummy, into)
}

/// Adds what is in a type statement.
fn add_declaration(
    typ: &TypeSpec,
    entities: &[TypedDeclarator],
    into: &mut Leaves,
) -> Result<(), NoMemory>
    ensures { OnOk result (into.new ≡ into.old ++ (spec.type_leaves typ.now ++ flat_map spec.entity_leaves entities.now)) }
{
    add_type(typ, into)?;
    add_entities(entities, into)
}

/// Adds what is in a statement.
fn add_statement(stmt: &Stmt, into: &mut Leaves) -> Result<(), NoMemory>
    ensures { OnOk result (into.new ≡ into.old ++ spec.leaves_of stmt.now) }
{
    match stmt {
        Stmt::Assign { target, value } => add_assignment(target, value, into),
        Stmt::Do { control, .. } => add_control(control, into),
        Stmt::Continue => Ok(()),
        Stmt::Return => Ok(()),
        Stmt::Else => Ok(()),
        Stmt::EndIf => Ok(()),
        Stmt::End => Ok(()),
        Stmt::Stop(code) => add_stop(code, into),
        Stmt::Goto(_) => Ok(()),
        Stmt::ComputedGoto { index, .. } => add_expr(index, Role::Operand, into),
        Stmt::ArithmeticIf { value, .. } => add_expr(value, Role::Operand, into),
        Stmt::LogicalIf { condition, inner } => {
            add_expr(condition, Role::Operand, into)?;
            add_statement(inner.get(), into)
        }
        Stmt::BlockIf(condition) => add_expr(condition, Role::Operand, into),
        Stmt::ElseIf(condition) => add_expr(condition, Role::Operand, into),
        Stmt::Call { name, args } => add_call(name, args.as_slice(), into),
        Stmt::Print(items) => add_items(items.as_slice(), Role::Operand, into),
        Stmt::Read(items) => add_items(items.as_slice(), Role::Input, into),
        Stmt::Program(name) => add_alone(name, Role::Heading, into),
        Stmt::Subroutine { name, dummies } => add_subroutine(name, dummies.as_slice(), into),
        Stmt::Function { typ, name, dummies } => {
            add_function(typ, name, dummies.as_slice(), into)
        }
        Stmt::Declare { typ, entities } => add_declaration(typ, entities.as_slice(), into),
        Stmt::Dimension(arrays) => add_declarators(arrays.as_slice(), Role::Shaped, into),
        Stmt::Common(groups) => add_groups(groups.as_slice(), into),
        Stmt::Equivalence(groups) => add_equivalences(groups.as_slice(), into),
        Stmt::Parameter(constants) => add_constants(constants.as_slice(), into),
        Stmt::Implicit(rules) => add_rules(rules.as_slice(), into),
        Stmt::Save(entries) => add_entries(entries.as_slice(), into),
        Stmt::Init(groups) => add_data(groups.as_slice(), into),
    }
}

/// What is in a statement, in the order of its text.
pub fn leaves_of(alloc: Global, stmt: &Stmt) -> Result<Leaves, NoMemory>
    ensures { IfOk result (λ leaves. leaves ≡ spec.leaves_of stmt.now) }
{
    let mut leaves = Leaves::new(alloc);
    add_statement(stmt, &mut leaves)?;
    Ok(leaves)
}
