//! Postfix code: what a statement does, as instructions to an operand stack.
//!
//! docs/CODE.md has the code of a statement of each kind, and which step each instruction takes.
ghost use Rattle.std.specs.Prelude.{◌≡◌, []};

use crate::expr::Op;
use hyb_base::list::List;
use hyb_base::nums::Nums;
use hyb_base::ops::RedOp;
use hyb_base::words::Words;
use std::alloc::Global;

/// An instruction.
///
/// An operand is a value (an integer, a truth or a string of bytes), a place, or an actual argument. Entities and units
/// are named by their numbers, a statement by its place in its unit, from 0, and an instruction by its place among the
/// instructions of its unit, from 0. 'Past the statement' is where control goes on once a statement is done: at the end
/// of the iterations that end there, then at what `Code::nexts` has for it.
#[derive(Clone, Copy, Debug, PartialEq, Eq)]
pub enum Instr {
    /// Pushes an integer.
    Lit(i64),
    /// Pushes a truth.
    Truth(bool),
    /// Pushes a character constant, named by its place among the texts.
    Text(u32),
    /// Pushes the place of an entity: a variable or an array, or what a dummy argument is bound to.
    Entity(u32),
    /// Takes that number of subscripts, and makes the array below them the place of an element.
    Index(u8),
    /// Takes two bounds, and makes what is below them the place of a substring.
    Slice,
    /// Takes a lower bound, and makes what is below it the place of the substring from there to its last character.
    SliceFrom,
    /// Applies an operator to the operand on top.
    Unary(Op),
    /// Applies an operator to the two operands on top.
    Binary(Op),
    /// Applies an intrinsic function, by its number, to that number of operands.
    Intrinsic(u8, u16),
    /// Makes the operand on top an actual argument: a place, by reference, or a value.
    Bind,
    /// Enters a unit with that number of arguments. Where the unit is a function, its value is pushed when it is left.
    Enter(u32, u16),
    /// Fixes the bounds of a dummy array, an entity: takes those of each dimension, the lower one first, and no upper one
    /// where that is `*`.
    Fix(u32),
    /// Reads the place on top. A dummy argument that is bound to a value gives that value without a read.
    Load,
    /// Writes the value on top to the place below it.
    Store,
    /// Writes an accumulation: the place below takes its own value joined with the value on top.
    Accumulate(RedOp),
    /// Takes a truth, and moves: where it is false, to a statement, else past the statement.
    Branch(u32),
    /// Takes a truth, and moves: where it is false, past the statement, else to the next instruction.
    When,
    /// Moves to a statement.
    Jump(u32),
    /// Takes a number, and moves to the statement that it has among the targets, of which that number begin at that
    /// place; where it has none, past the statement.
    Choose(u32, u16),
    /// Takes a number, and moves to one of the three targets that begin at that place: the first where it is negative, the
    /// second where it is 0, the third where it is positive.
    Sign(u32),
    /// Moves past the statement.
    Move,
    /// Begins a DO, named by its ordinal in the file: takes its values, and fixes its count.
    Count(u32),
    /// Ends an iteration of a DO, named likewise, where it runs.
    Next(u32),
    /// Begins an implied DO: takes its values, and fixes its count. Where that is 0, goes on at an instruction.
    CountItems(u32),
    /// Ends an iteration of an implied DO. Where another is left, goes on at an instruction.
    NextItems(u32),
    /// Adds the value on top to the printed line.
    Emit,
    /// Adds the elements of the array on top to the printed line, each as an item, in the order of storage.
    EmitArray,
    /// Prints the line.
    Print,
    /// Writes the next number of the input to the place on top.
    Take,
    /// Writes the next numbers of the input to the elements of the array on top, in the order of storage.
    TakeArray,
    /// Leaves the unit; with the value on top, where it is a function.
    Leave,
    /// Ends the run.
    Stop,
}

/// The instructions, in order.
pub type Instrs = List<Instr>;

/// The code of a unit.
#[derive(Drop)]
pub struct Code {
    /// The instructions of all its statements.
    pub instrs: Instrs,
    /// For each statement the place of its first instruction.
    pub starts: Nums,
    /// For each statement the place of the executable statement at which control goes on once it is done: the next one,
    /// or, where that is an ELSE IF or ELSE, its END IF (ANSI X3.9-1978, sections 11.6 to 11.8).
    pub nexts: Nums,
    /// The statements among which `Choose` and `Sign` choose, by their places.
    pub targets: Nums,
    /// The character constants.
    pub texts: Words,
}

impl Code {
    /// The code of no statement. It takes no memory.
    pub fn new(alloc: Global) -> Code
        ensures instrs { result.instrs ≡ [] }
        ensures starts { result.starts ≡ [] }
        ensures nexts { result.nexts ≡ [] }
        ensures targets { result.targets ≡ [] }
        ensures texts { result.texts ≡ [] }
    {
        Code {
            instrs: Instrs::new(alloc),
            starts: Nums::new(alloc),
            nexts: Nums::new(alloc),
            targets: Nums::new(alloc),
            texts: Words::new(alloc),
        }
    }
}
