//! Instructions as text: `Entity 0`, `Load`, `Binary Add`.

use f77_ast::code::Instr;
use f77_ast::expr::Op;
use hyb_base::bytes::Bytes;
use hyb_base::decimal::print_i64;
use hyb_base::no_memory::NoMemory;
use hyb_base::ops::{RedOp, Rel};

/// The name of a relational operator.
fn relation_name(relation: Rel) -> &'static [u8] {
    match relation {
        Rel::Eq => b"Eq".as_slice(),
        Rel::Ne => b"Ne".as_slice(),
        Rel::Lt => b"Lt".as_slice(),
        Rel::Le => b"Le".as_slice(),
        Rel::Gt => b"Gt".as_slice(),
        Rel::Ge => b"Ge".as_slice(),
    }
}

/// The name of an operator.
fn operator_name(op: Op) -> &'static [u8] {
    match op {
        Op::Plus => b"Plus".as_slice(),
        Op::Neg => b"Neg".as_slice(),
        Op::Not => b"Not".as_slice(),
        Op::Add => b"Add".as_slice(),
        Op::Sub => b"Sub".as_slice(),
        Op::Mul => b"Mul".as_slice(),
        Op::Div => b"Div".as_slice(),
        Op::Pow => b"Pow".as_slice(),
        Op::Cat => b"Cat".as_slice(),
        Op::Rel(relation) => relation_name(relation),
        Op::And => b"And".as_slice(),
        Op::Or => b"Or".as_slice(),
        Op::Eqv => b"Eqv".as_slice(),
        Op::Neqv => b"Neqv".as_slice(),
    }
}

/// The name of an accumulation's operator.
fn joining_name(op: RedOp) -> &'static [u8] {
    match op {
        RedOp::Add => b"Add".as_slice(),
        RedOp::Mul => b"Mul".as_slice(),
        RedOp::Max => b"Max".as_slice(),
        RedOp::Min => b"Min".as_slice(),
        RedOp::And => b"And".as_slice(),
        RedOp::Or => b"Or".as_slice(),
        RedOp::Eqv => b"Eqv".as_slice(),
        RedOp::Neqv => b"Neqv".as_slice(),
    }
}

/// The name of an instruction.
fn instr_name(instr: Instr) -> &'static [u8] {
    match instr {
        Instr::Lit(_) => b"Lit".as_slice(),
        Instr::Truth(_) => b"Truth".as_slice(),
        Instr::Text(_) => b"Text".as_slice(),
        Instr::Entity(_) => b"Entity".as_slice(),
        Instr::Index(_) => b"Index".as_slice(),
        Instr::Slice => b"Slice".as_slice(),
        Instr::SliceFrom => b"SliceFrom".as_slice(),
        Instr::Unary(_) => b"Unary".as_slice(),
        Instr::Binary(_) => b"Binary".as_slice(),
        Instr::Intrinsic(_, _) => b"Intrinsic".as_slice(),
        Instr::Bind => b"Bind".as_slice(),
        Instr::Enter(_, _) => b"Enter".as_slice(),
        Instr::Fix(_) => b"Fix".as_slice(),
        Instr::Load => b"Load".as_slice(),
        Instr::Store => b"Store".as_slice(),
        Instr::Accumulate(_) => b"Accumulate".as_slice(),
        Instr::Branch(_) => b"Branch".as_slice(),
        Instr::When => b"When".as_slice(),
        Instr::Jump(_) => b"Jump".as_slice(),
        Instr::Choose(_, _) => b"Choose".as_slice(),
        Instr::Sign(_) => b"Sign".as_slice(),
        Instr::Move => b"Move".as_slice(),
        Instr::Count(_) => b"Count".as_slice(),
        Instr::Next(_) => b"Next".as_slice(),
        Instr::CountItems(_) => b"CountItems".as_slice(),
        Instr::NextItems(_) => b"NextItems".as_slice(),
        Instr::Emit => b"Emit".as_slice(),
        Instr::EmitArray => b"EmitArray".as_slice(),
        Instr::Print => b"Print".as_slice(),
        Instr::Take => b"Take".as_slice(),
        Instr::TakeArray => b"TakeArray".as_slice(),
        Instr::Leave => b"Leave".as_slice(),
        Instr::Stop => b"Stop".as_slice(),
    }
}

/// Shows a blank and a word.
fn show_word(word: &[u8], into: &mut Bytes) -> Result<(), NoMemory> {
    into.push(b' ')?;
    into.push_slice(word)
}

/// Shows a blank and a number.
fn show_field(number: i64, into: &mut Bytes) -> Result<(), NoMemory> {
    into.push(b' ')?;
    print_i64(number, into)
}

/// Shows two numbers, each after a blank.
fn show_fields(first: i64, second: i64, into: &mut Bytes) -> Result<(), NoMemory> {
    show_field(first, into)?;
    show_field(second, into)
}

/// Shows what an instruction's name is followed by.
fn show_rest(instr: Instr, into: &mut Bytes) -> Result<(), NoMemory> {
    match instr {
        Instr::Lit(number) => show_field(number, into),
        Instr::Truth(holds) => show_word(
            if holds {
                b"true".as_slice()
            } else {
                b"false".as_slice()
            },
            into,
        ),
        Instr::Text(number) => show_field(i64::from(number), into),
        Instr::Entity(number) => show_field(i64::from(number), into),
        Instr::Index(count) => show_field(i64::from(count), into),
        Instr::Slice => Ok(()),
        Instr::SliceFrom => Ok(()),
        Instr::Unary(op) => show_word(operator_name(op), into),
        Instr::Binary(op) => show_word(operator_name(op), into),
        Instr::Intrinsic(function, count) => show_fields(
            i64::from(function),
            i64::from(count),
            into,
        ),
        Instr::Bind => Ok(()),
        Instr::Enter(first, count) => show_fields(i64::from(first), i64::from(count), into),
        Instr::Fix(number) => show_field(i64::from(number), into),
        Instr::Load => Ok(()),
        Instr::Store => Ok(()),
        Instr::Accumulate(op) => show_word(joining_name(op), into),
        Instr::Branch(number) => show_field(i64::from(number), into),
        Instr::When => Ok(()),
        Instr::Jump(number) => show_field(i64::from(number), into),
        Instr::Choose(first, count) => show_fields(i64::from(first), i64::from(count), into),
        Instr::Sign(number) => show_field(i64::from(number), into),
        Instr::Move => Ok(()),
        Instr::Count(number) => show_field(i64::from(number), into),
        Instr::Next(number) => show_field(i64::from(number), into),
        Instr::CountItems(number) => show_field(i64::from(number), into),
        Instr::NextItems(number) => show_field(i64::from(number), into),
        Instr::Emit => Ok(()),
        Instr::EmitArray => Ok(()),
        Instr::Print => Ok(()),
        Instr::Take => Ok(()),
        Instr::TakeArray => Ok(()),
        Instr::Leave => Ok(()),
        Instr::Stop => Ok(()),
    }
}

/// Shows an instruction.
pub fn show_instr(instr: Instr, into: &mut Bytes) -> Result<(), NoMemory> {
    into.push_slice(instr_name(instr))?;
    show_rest(instr, into)
}
