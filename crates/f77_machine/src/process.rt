//! Processes: one step at a time through the statements of a program.
ghost use Rattle.std.specs.Prelude.{◌≡◌, ◌+◌, ◌^◌, ◌<◌, ◌≤◌, drop, length, vec_capacity};
ghost use Rattle.f77_structure.specs.Units.{first_executable, listing_of, main_unit};
ghost use Rattle.f77_io.specs.Line.{text_of};
ghost use Rattle.f77_meaning.specs.Print.{or_blank};
ghost use Rattle.f77_meaning.specs.Sound.{IsSound};

mod control;

use crate::active::{ActiveLoop, is_variable_of_any};
use crate::assign::{Written, assigned};
use crate::begin::{Begun, begin};
use crate::evaluated::Evaluated;
use crate::listing::listing_of;
use crate::loops::loop_of_do;
use crate::print::{Printed, Printing, print_items};
use crate::reads::room_for;
use f77_ast::expr::{Expr, Ref};
use f77_ast::fault::Fault;
use f77_ast::program::{Loop, Program};
use f77_ast::step::Stepped;
use f77_ast::stmt::{Item, LoopControl, Stmt};
use f77_io::input::Input;
use f77_io::line::Line;
use f77_structure::units::{first_executable, main_unit, source_line, statement_at};
use hyb_base::cells::Cells;
use hyb_base::no_memory::NoMemory;
use sqlite_items::Items;
use std::alloc::Global;

/// What of its statement a process is at.
#[derive(Clone, Copy, Debug, PartialEq, Eq)]
pub enum Stage {
    /// The statement itself.
    Statement,
    /// The incrementation processing of the innermost active loop: the statement ends its range, and is done.
    Increment,
}

/// A process that runs a program: the statement at which it is, how far that is done, the answers to the reads of the
/// item or statement at which it is, and the active DO-loops, the outermost one first.
///
/// The room for answers and loops is reserved when the process is made, so a step takes no memory.
#[derive(Drop)]
pub struct Process {
    /// Its unit, counted from 0.
    unit: u32,
    /// The place of its statement in the unit, from 0.
    at: usize,
    /// What of the statement it is at.
    stage: Stage,
    /// The initial line of that statement.
    line: u32,
    /// How many items of the statement are done.
    items: usize,
    /// How many elements of the next item are done, where that is an array.
    cells: u32,
    /// The answers to the reads of the item or statement at which it is.
    answers: Vec<i64>,
    /// How many answers there is room for.
    room: usize,
    /// The active DO-loops, the outermost one first.
    active: Vec<ActiveLoop>,
    /// How many active loops there is room for.
    depth: usize,
    ghost reserved: { room ≤ vec_capacity answers },
    ghost nested: { depth ≤ vec_capacity active },
}

impl Process {
    ghost use Rattle.std.specs.Prelude.{◌≡◌, ◌+◌, ◌^◌, ◌<◌, ◌≤◌, ◌∷◌, ℕ, List, [], take, Option, None, Some, IfOk, IsTrue, length};
    ghost use Rattle.std.specs.List.{list_all};
    ghost use Rattle.hyb_base.specs.declared.ops.RedOp.{RedOp};
    ghost use Rattle.f77_ast.specs.Limits.{most_line_bytes};
    ghost use Rattle.f77_ast.specs.declared.program.Program.{Program};
    ghost use Rattle.f77_ast.specs.declared.step.Control.TheVariants.{Began};
    ghost use Rattle.f77_ast.specs.declared.step.Stepped.TheVariants.{Inner};
    ghost use Rattle.f77_structure.specs.HasMeaning.{expr_has_meaning, target_has_meaning, item_has_meaning, control_has_meaning, statement_has_meaning};
    ghost use Rattle.f77_structure.specs.Storage.{IsStorage};
    ghost use Rattle.f77_structure.specs.Units.{listing_of, source_line, statement_number};
    ghost use Rattle.f77_io.specs.Input.{left_of};
    ghost use Rattle.f77_io.specs.Line.{text_of};
    ghost use Rattle.f77_meaning.specs.Assign.{written_of};
    ghost use Rattle.f77_meaning.specs.Do.{active_from, begun_of};
    ghost use Rattle.f77_meaning.specs.Print.{printed_of};
    ghost use Rattle.f77_meaning.specs.Process.{first_process, is_blocked, listed_at, process_with, with_done};
    ghost use Rattle.f77_meaning.specs.Process as meaning;
    ghost use Rattle.f77_meaning.specs.Sound.{IsSound, Fits};
    ghost use Rattle.f77_meaning.specs.Step.{reading, writing, begin_move, do_move, increment_move, loop_of_do, past_do, past_statement, print_move, statement_move, unless_blocked, write_move};
    ghost use Rattle.f77_meaning.specs.StepOutcome.{line_left, outcome_by, outcome_from, outcome_of_step};
    ghost use Rattle.f77_machine.specs.Active.{actives_of, InnermostNumbersFit};
    ghost use Rattle.f77_machine.specs.Assign.{as_written};
    ghost use Rattle.f77_machine.specs.Begun.{as_begun};
    ghost use Rattle.f77_machine.specs.Print.{as_printed, AsksWithin, BeginsWith};
    ghost use Rattle.f77_machine.specs.Process.{frame_of, process_of, outcome_left, outcome_of_move, HasLoopRoom, IsProcessOf, KeepsPlace};
    ghost use Rattle.f77_machine.specs.Reads.{statement_reads, control_reads, most_reads, subscript_reads, reads_in};
    ghost use Rattle.f77_machine.specs.Setting.{setting_in};

    /// A process at the first executable statement of the main unit. It reserves what its steps need; `NoMemory` also
    /// where the number of answers that a statement may need passes 64 bits.
    pub fn new(alloc: Global, program: &Program) -> Result<Process, NoMemory>
        requires sound { IsSound program.now }
        ensures first { IfOk result (λ p. process_of p [] ≡ first_process program.now) }
        ensures is_of { IfOk result (λ p. IsProcessOf program.now p []) }
    {
        let Some(room) = room_for(program) else {
            return Err(NoMemory);
        };
        let unit = main_of(program);
        let at = entry_of(program, unit);
        Ok(Process {
            unit,
            at,
            stage: Stage::Statement,
            line: source_line(program, unit, at),
            items: 0,
            cells: 0,
            answers: Vec::with_capacity(alloc, room)?,
            room,
            active: Vec::with_capacity(alloc, program.loops.len())?,
            depth: program.loops.len(),
        })
    }

    /// An equal process.
    pub fn copy(&self, alloc: Global) -> Result<Process, NoMemory>
        ensures same { IfOk result (λ copy. (text : List ℕ) → process_of copy text ≡ process_of self.now text) }
        ensures is_of { IfOk result (λ copy. (program : Program) (text : List ℕ) → IsProcessOf program self.now text → IsProcessOf program copy text) }
    {
        let mut answers = Vec::with_capacity(alloc, self.room)?;
        answers.extend_from_slice(self.answers.as_slice())?;
        let mut active = Vec::with_capacity(alloc, self.depth)?;
        active.extend_from_slice(self.active.as_slice())?;
        Ok(Process {
            unit: self.unit,
            at: self.at,
            stage: self.stage,
            line: self.line,
            items: self.items,
            cells: self.cells,
            answers,
            room: self.room,
            active,
            depth: self.depth,
        })
    }

    /// The initial line of its statement.
    pub fn line(&self) -> u32
        ensures { (program : Program) (text : List ℕ) → IsProcessOf program self.now text → result ≡ source_line (listed_at program (process_of self.now text)) }
    {
        self.line
    }

    /// One step: what the process does next, and what that does to storage, input and line. It takes no memory.
    ///
    /// Every address may be got. The line is a part of what the process stands for: a step of a PRINT adds to what it
    /// holds by then, any other step leaves it. After `Printed` it holds the printed line, and the caller clears it
    /// before the next step. After `Faulted` process and line are as before. The marks of accumulations and of
    /// DO-variables aren't answered yet: `by` and `control` are none.
    pub fn step<C: Cells>(
        &mut self,
        program: &Program,
        cells: &mut C,
        input: &mut Input,
        line: &mut Line,
    ) -> Stepped
        requires sound { IsSound program.now }
        requires is_of { IsProcessOf program.now self.old (text_of line.old) }
        requires fits { Fits program.now.layout (C.values cells.old) }
        requires allowed { (address : ℕ) → IsTrue (C.may_get cells.old address) }

        ensures next { outcome_from result (process_of self.new (line_left result (text_of line.new))) (C.values cells.new) (C.reads cells.new) (left_of input.new) (text_of line.new)
            ≡ outcome_of_step program.now (process_of self.old (text_of line.old)) (C.values cells.old) (C.reads cells.old) (left_of input.old) }
        ensures is_of { IsProcessOf program.now self.new (line_left result (text_of line.new)) }
        ensures fits { Fits program.now.layout (C.values cells.new) }
        ensures same_test { C.may_get cells.new ≡ C.may_get cells.old }
        ensures printed { result ≡ Stepped.Printed → length (text_of line.new) ≤ most_line_bytes }
    {
        match statement_at(program, self.unit, self.at) {
            None => Stepped::Ended,
            Some(listed) => match self.stage {
                Stage::Increment => self.increment(program, cells),
                Stage::Statement => self.statement(program, &listed.stmt, cells, line),
            },
        }
    }

    /// The incrementation processing of the innermost active loop: its variable takes its next value (section
    /// 11.10.7).
    fn increment<C: Cells>(&mut self, program: &Program, cells: &mut C) -> Stepped
        requires depth { length self.old.active.items ≤ self.old.depth }
        requires numbers { InnermostNumbersFit (length (C.values cells.old)) self.old.active.items }
        requires fits { Fits program.now.layout (C.values cells.old) }
        requires after { self.old.at + 1 < 2 ^ 64 }
        ensures next { (input text : List ℕ) → outcome_left result self.new (C.values cells.new) (C.reads cells.new) input text
            ≡ outcome_of_move (increment_move program.now (frame_of self.old) [] text (actives_of self.old.active.items)) self.old (C.values cells.old) (C.reads cells.old) input text }
        ensures fits { Fits program.now.layout (C.values cells.new) }
        ensures same_test { C.may_get cells.new ≡ C.may_get cells.old }
        ensures place { KeepsPlace program.now self.old self.new }
    {
        match self.active.pop() {
            None => Stepped::Ended,
            Some(innermost) => {
                cells.put(innermost.variable, innermost.next_value());
                self.turn(program, innermost);
                Stepped::Wrote {
                    address: innermost.variable,
                    by: None,
                    control: None,
                }
            }
        }
    }

    /// A step of a statement.
    fn statement<C: Cells>(
        &mut self,
        program: &Program,
        stmt: &Stmt,
        cells: &mut C,
        line: &mut Line,
    ) -> Stepped
        requires sound { IsSound program.now }
        requires meaning { IsTrue (statement_has_meaning program.now.units program.now.layout self.old.unit stmt.now) }
        requires room { statement_reads program.now.layout self.old.unit stmt.now ≤ self.old.room }
        requires fits { Fits program.now.layout (C.values cells.old) }
        requires allowed { (address : ℕ) → IsTrue (C.may_get cells.old address) }
        requires after { self.old.at + 1 < 2 ^ 64 }
        requires few { statement_number program.now.units self.old.unit self.old.at + 1 < 2 ^ 32 }
        requires depth { HasLoopRoom stmt.now self.old }
        ensures next { (input : List ℕ) → outcome_left result self.new (C.values cells.new) (C.reads cells.new) input (text_of line.new)
            ≡ outcome_of_move (statement_move program.now (frame_of self.old) [] (text_of line.old) stmt.now) self.old (C.values cells.old) (C.reads cells.old) input (text_of line.old) }
        ensures fits { Fits program.now.layout (C.values cells.new) }
        ensures same_test { C.may_get cells.new ≡ C.may_get cells.old }
        ensures place { KeepsPlace program.now self.old self.new }
    {
        match stmt {
            Stmt::Assign { target, value } => self.assign(program, target, value, cells),
            Stmt::Do { control, .. } => self.begin(program, control, cells),
            Stmt::Continue => self.pass(program),
            Stmt::Return => Stepped::Ended,
            Stmt::Else => Stepped::Ended,
            Stmt::EndIf => Stepped::Ended,
            Stmt::End => Stepped::Ended,
            Stmt::Stop(_) => Stepped::Ended,
            Stmt::Goto(_) => Stepped::Ended,
            Stmt::ComputedGoto { .. } => Stepped::Ended,
            Stmt::ArithmeticIf { .. } => Stepped::Ended,
            Stmt::LogicalIf { .. } => Stepped::Ended,
            Stmt::BlockIf(_) => Stepped::Ended,
            Stmt::ElseIf(_) => Stepped::Ended,
            Stmt::Call { .. } => Stepped::Ended,
            Stmt::Print(items) => self.print(program, items, cells, line),
            Stmt::Read(_) => Stepped::Ended,
            Stmt::Program(_) => Stepped::Ended,
            Stmt::Subroutine { .. } => Stepped::Ended,
            Stmt::Function { .. } => Stepped::Ended,
            Stmt::Declare { .. } => Stepped::Ended,
            Stmt::Dimension(_) => Stepped::Ended,
            Stmt::Common(_) => Stepped::Ended,
            Stmt::Equivalence(_) => Stepped::Ended,
            Stmt::Parameter(_) => Stepped::Ended,
            Stmt::Implicit(_) => Stepped::Ended,
            Stmt::Save(_) => Stepped::Ended,
            Stmt::Init(_) => Stepped::Ended,
        }
    }

    /// The step of CONTINUE: control moves (section 11.11).
    fn pass(&mut self, program: &Program) -> Stepped
        requires after { self.old.at + 1 < 2 ^ 64 }
        ensures stepped { result ≡ Inner }
        ensures frame { frame_of self.new ≡ past_statement program.now (frame_of self.old) }
        ensures place { KeepsPlace program.now self.old self.new }
    {
        self.go_past(program, self.at);
        Stepped::Inner
    }

    /// A step of an assignment.
    fn assign<C: Cells>(
        &mut self,
        program: &Program,
        target: &Ref,
        value: &Expr,
        cells: &mut C,
    ) -> Stepped
        requires storage { IsStorage program.now.layout }
        requires target { IsTrue (target_has_meaning program.now.units program.now.layout self.old.unit target.now) }
        requires meaning { IsTrue (expr_has_meaning program.now.units program.now.layout self.old.unit value.now) }
        requires room { subscript_reads target.now + reads_in value.now ≤ self.old.room }
        requires fits { Fits program.now.layout (C.values cells.old) }
        requires allowed { (address : ℕ) → IsTrue (C.may_get cells.old address) }
        requires after { self.old.at + 1 < 2 ^ 64 }
        ensures next { (input text : List ℕ) → outcome_left result self.new (C.values cells.new) (C.reads cells.new) input text
            ≡ outcome_of_move (write_move program.now (frame_of self.old) [] text (written_of (setting_in program.now self.old.unit) target.now value.now self.old.answers.items)) self.old (C.values cells.old) (C.reads cells.old) input text }
        ensures fits { Fits program.now.layout (C.values cells.new) }
        ensures same_test { C.may_get cells.new ≡ C.may_get cells.old }
        ensures place { KeepsPlace program.now self.old self.new }
    {
        match assigned(program, self.unit, target, value, self.answers.as_slice()) {
            Evaluated::Gives(written, _rest) => self.write(program, written, cells),
            Evaluated::Wants(address, _by) => self.read(address, cells),
            Evaluated::Fails(fault) => Stepped::Faulted(fault),
        }
    }

    /// The write of an assignment; one to the variable of a running DO is a fault.
    fn write<C: Cells>(&mut self, program: &Program, written: Written, cells: &mut C) -> Stepped
        requires within { written.address < length (C.values cells.old) }
        requires after { self.old.at + 1 < 2 ^ 64 }
        requires fits { Fits program.now.layout (C.values cells.old) }
        ensures next { (input text : List ℕ) → outcome_left result self.new (C.values cells.new) (C.reads cells.new) input text
            ≡ outcome_of_move (unless_blocked (is_blocked written.address (frame_of self.old ∷ [])) (writing written.address written.value written.by None (process_with text (past_statement program.now (frame_of self.old) ∷ [])))) self.old (C.values cells.old) (C.reads cells.old) input text }
        ensures fits { Fits program.now.layout (C.values cells.new) }
        ensures same_test { C.may_get cells.new ≡ C.may_get cells.old }
        ensures place { KeepsPlace program.now self.old self.new }
    {
        if self.is_blocked(written.address) {
            return Stepped::Faulted(Fault::DoVariableWritten);
        }
        cells.put(written.address, written.value);
        self.go_past(program, self.at);
        Stepped::Wrote {
            address: written.address,
            by: None,
            control: None,
        }
    }

    /// A step of a DO statement.
    fn begin<C: Cells>(
        &mut self,
        program: &Program,
        control: &LoopControl,
        cells: &mut C,
    ) -> Stepped
        requires sound { IsSound program.now }
        requires meaning { IsTrue (control_has_meaning program.now.units program.now.layout self.old.unit control.now) }
        requires room { control_reads control.now ≤ self.old.room }
        requires fits { Fits program.now.layout (C.values cells.old) }
        requires allowed { (address : ℕ) → IsTrue (C.may_get cells.old address) }
        requires few { statement_number program.now.units self.old.unit self.old.at + 1 < 2 ^ 32 }
        requires depth { length self.old.active.items < self.old.depth }
        ensures next { (input text : List ℕ) → outcome_left result self.new (C.values cells.new) (C.reads cells.new) input text
            ≡ outcome_of_move (do_move program.now (frame_of self.old) [] text (loop_of_do program.now self.old.unit self.old.at) (begun_of (setting_in program.now self.old.unit) control.now self.old.answers.items)) self.old (C.values cells.old) (C.reads cells.old) input text }
        ensures fits { Fits program.now.layout (C.values cells.new) }
        ensures same_test { C.may_get cells.new ≡ C.may_get cells.old }
        ensures place { KeepsPlace program.now self.old self.new }
    {
        let Some(found) = loop_of_do(program, self.unit, self.at) else {
            return Stepped::Ended;
        };
        match begin(program, self.unit, control, self.answers.as_slice()) {
            Evaluated::Gives(begun, _rest) => self.begin_loop(program, *found, begun, cells),
            Evaluated::Wants(address, _by) => self.read(address, cells),
            Evaluated::Fails(fault) => Stepped::Faulted(fault),
        }
    }

    /// The write with which a loop begins; one to the variable of a running DO is a fault.
    fn begin_loop<C: Cells>(
        &mut self,
        program: &Program,
        found: Loop,
        begun: Begun,
        cells: &mut C,
    ) -> Stepped
        requires within { begun.variable < length (C.values cells.old) }
        requires small { self.old.at < 2 ^ 32 }
        requires depth { length self.old.active.items < self.old.depth }
        requires fits { Fits program.now.layout (C.values cells.old) }
        ensures next { (input text : List ℕ) → outcome_left result self.new (C.values cells.new) (C.reads cells.new) input text
            ≡ outcome_of_move (unless_blocked (is_blocked begun.variable (frame_of self.old ∷ [])) (writing begun.variable begun.first None (Some (Began found.ordinal)) (process_with text (past_do program.now (active_from (listing_of program.now.units self.old.unit) self.old.at found (as_begun begun)) (frame_of self.old) ∷ [])))) self.old (C.values cells.old) (C.reads cells.old) input text }
        ensures fits { Fits program.now.layout (C.values cells.new) }
        ensures same_test { C.may_get cells.new ≡ C.may_get cells.old }
        ensures place { KeepsPlace program.now self.old self.new }
    {
        if self.is_blocked(begun.variable) {
            return Stepped::Faulted(Fault::DoVariableWritten);
        }
        cells.put(begun.variable, begun.first);
        self.enter(
            program,
            ActiveLoop::new(
                listing_of(program.units.as_slice(), self.unit),
                self.at,
                found,
                begun,
            ),
        );
        Stepped::Wrote {
            address: begun.variable,
            by: None,
            control: None,
        }
    }

    /// A step of a PRINT: items whose values are known go into the line, and are forgotten; the next one that isn't known
    /// reads. A fault leaves the line as it was.
    fn print<C: Cells>(
        &mut self,
        program: &Program,
        items: &Items<Item>,
        cells: &mut C,
        line: &mut Line,
    ) -> Stepped
        requires storage { IsStorage program.now.layout }
        requires meaning { IsTrue (list_all (item_has_meaning program.now.units program.now.layout self.old.unit) items.now) }
        requires room { most_reads program.now.layout self.old.unit items.now ≤ self.old.room }
        requires fits { Fits program.now.layout (C.values cells.old) }
        requires allowed { (address : ℕ) → IsTrue (C.may_get cells.old address) }
        requires after { self.old.at + 1 < 2 ^ 64 }
        ensures next { (input : List ℕ) → outcome_left result self.new (C.values cells.new) (C.reads cells.new) input (text_of line.new)
            ≡ outcome_of_move (print_move program.now (frame_of self.old) [] (text_of line.old) (printed_of (setting_in program.now self.old.unit) items.now (frame_of self.old) (text_of line.old))) self.old (C.values cells.old) (C.reads cells.old) input (text_of line.old) }
        ensures fits { Fits program.now.layout (C.values cells.new) }
        ensures same_test { C.may_get cells.new ≡ C.may_get cells.old }
        ensures place { KeepsPlace program.now self.old self.new }
    {
        let length = line.len();
        match self.printed(program, items, line) {
            Printed::GoesOn(_all) => {
                fill(line);
                self.go_past(program, self.at);
                Stepped::Printed
            }
            Printed::Asks(address, _by, here) => {
                let (items, elements, kept) = (here.items, here.cells as u32, here.answers.len());
                self.keep(items, elements, kept);
                self.read(address, cells)
            }
            Printed::Stops(fault) => {
                line.truncate(length);
                Stepped::Faulted(fault)
            }
        }
    }

    /// Where the PRINT of these items comes to, from where the process is; the line is made as far.
    fn printed<'a>(&'a self, program: &Program, items: &Items<Item>, line: &mut Line) -> Printed<'a>
        requires storage { IsStorage program.now.layout }
        requires meaning { IsTrue (list_all (item_has_meaning program.now.units program.now.layout self.now.unit) items.now) }
        ensures value { as_printed (frame_of self.now) result (text_of line.new) ≡ printed_of (setting_in program.now self.now.unit) items.now (frame_of self.now) (text_of line.old) }
        ensures asks { AsksWithin (length program.now.layout.first) (most_reads program.now.layout self.now.unit items.now) self.now.answers.items result }
        ensures begins { BeginsWith (text_of line.new) (text_of line.old) }
    {
        let from = Printing {
            items: self.items,
            cells: u64::from(self.cells),
            answers: self.answers.as_slice(),
        };
        let left = items_from(items.as_slice(), self.items);
        print_items(program, self.unit, left, from, line)
    }

    /// Notes how far a statement is done, and keeps the first `kept` answers.
    fn keep(&mut self, items: usize, cells: u32, kept: usize)
        requires { kept ≤ length self.old.answers.items }
        ensures frame { frame_of self.new ≡ with_done items cells (take kept self.old.answers.items) (frame_of self.old) }
        ensures room { self.new.room ≡ self.old.room }
        ensures place { (program : Program) → KeepsPlace program self.old self.new }
    {
        self.items = items;
        self.cells = cells;
        self.answers.truncate(kept);
    }

    /// Reads an address, and keeps its value beside the answers.
    fn read<C: Cells>(&mut self, address: u32, cells: &mut C) -> Stepped
        requires within { address < length (C.values cells.old) }
        requires allowed { IsTrue (C.may_get cells.old address) }
        requires room { length self.old.answers.items < self.old.room }
        ensures next { (by : Option RedOp) (p : meaning.Process) (input text : List ℕ) → outcome_left result self.new (C.values cells.new) (C.reads cells.new) input text
            ≡ outcome_by (reading address by (frame_of self.old) [] text) p (C.values cells.old) (C.reads cells.old) input }
        ensures values { C.values cells.new ≡ C.values cells.old }
        ensures same_test { C.may_get cells.new ≡ C.may_get cells.old }
        ensures place { (program : Program) → KeepsPlace program self.old self.new }
    {
        let value = cells.get(address);
        self.answers.push_reserved(value);
        Stepped::Read { address, by: None }
    }

    /// Whether an address is that of the variable of a running DO.
    fn is_blocked(&self, address: u32) -> bool
        ensures { result ≡ is_blocked address (frame_of self.now ∷ []) }
    {
        is_variable_of_any(self.active.as_slice(), address)
    }
}

/// The number of the main unit, wherever it is in the file.
fn main_of(program: &Program) -> u32
    requires { IsSound program.now }
    ensures { result ≡ main_unit program.now.units }
{
    main_unit(program.units.as_slice()) as u32
}

/// The place of the first executable statement of a unit.
fn entry_of(program: &Program, unit: u32) -> usize
    ensures { result ≡ first_executable (listing_of program.now.units unit) }
{
    first_executable(listing_of(program.units.as_slice(), unit))
}

/// The items from a place on; none past the last one.
fn items_from(items: &[Item], place: usize) -> &[Item]
    ensures value { result.now ≡ drop place items.now }
    ensures few { place + length result.now < 2 ^ 64 }
{
    if place < items.len() {
        &items[place..]
    } else {
        &items[items.len()..]
    }
}

/// Makes a line without items one blank.
fn fill(line: &mut Line)
    ensures { text_of line.new ≡ or_blank (text_of line.old) }
{
    if line.text().is_empty() {
        line.set_blank();
    }
}
