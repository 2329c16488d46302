//! What a single statement is to its unit (ANSI X3.9-1978, sections 7, 11 and 15).
ghost use Rattle.std.specs.Prelude.{◌≡◌};
ghost use Rattle.f77_structure.specs.Statements.{is_executable, may_end_range, terminal_label, is_barrier, inner_of, is_end, begins_subprogram, header_name};

use f77_ast::name::Name;
use f77_ast::stmt::{Label, Stmt};

/// Whether a statement is executable: all but PROGRAM, SUBROUTINE, FUNCTION, the specification statements and DATA
/// (section 7).
pub fn is_executable(stmt: &Stmt) -> bool
    ensures { result ≡ is_executable stmt.now }
{
    match stmt {
        Stmt::Assign { .. } => true,
        Stmt::Do { .. } => true,
        Stmt::Continue => true,
        Stmt::Return => true,
        Stmt::Else => true,
        Stmt::EndIf => true,
        Stmt::End => true,
        Stmt::Stop(_) => true,
        Stmt::Goto(_) => true,
        Stmt::ComputedGoto { .. } => true,
        Stmt::ArithmeticIf { .. } => true,
        Stmt::LogicalIf { .. } => true,
        Stmt::BlockIf(_) => true,
        Stmt::ElseIf(_) => true,
        Stmt::Call { .. } => true,
        Stmt::Print(_) => true,
        Stmt::Read(_) => true,
        Stmt::Program(_) => false,
        Stmt::Subroutine { .. } => false,
        Stmt::Function { .. } => false,
        Stmt::Declare { .. } => false,
        Stmt::Dimension(_) => false,
        Stmt::Common(_) => false,
        Stmt::Equivalence(_) => false,
        Stmt::Parameter(_) => false,
        Stmt::Implicit(_) => false,
        Stmt::Save(_) => false,
        Stmt::Init(_) => false,
    }
}

/// Whether a statement may be the terminal statement of a DO-loop: it is executable, and no GO TO, arithmetic IF, block
/// IF, ELSE IF, ELSE, END IF, RETURN, STOP, END or DO (section 11.10).
pub fn may_end_range(stmt: &Stmt) -> bool
    ensures { result ≡ may_end_range stmt.now }
{
    match stmt {
        Stmt::Assign { .. } => true,
        Stmt::Do { .. } => false,
        Stmt::Continue => true,
        Stmt::Return => false,
        Stmt::Else => false,
        Stmt::EndIf => false,
        Stmt::End => false,
        Stmt::Stop(_) => false,
        Stmt::Goto(_) => false,
        Stmt::ComputedGoto { .. } => true,
        Stmt::ArithmeticIf { .. } => false,
        Stmt::LogicalIf { .. } => true,
        Stmt::BlockIf(_) => false,
        Stmt::ElseIf(_) => false,
        Stmt::Call { .. } => true,
        Stmt::Print(_) => true,
        Stmt::Read(_) => true,
        Stmt::Program(_) => false,
        Stmt::Subroutine { .. } => false,
        Stmt::Function { .. } => false,
        Stmt::Declare { .. } => false,
        Stmt::Dimension(_) => false,
        Stmt::Common(_) => false,
        Stmt::Equivalence(_) => false,
        Stmt::Parameter(_) => false,
        Stmt::Implicit(_) => false,
        Stmt::Save(_) => false,
        Stmt::Init(_) => false,
    }
}

/// The label of the terminal statement that a DO statement names; none of any other statement (section 11.10).
pub fn terminal_label(stmt: &Stmt) -> Option<Label>
    ensures { result ≡ terminal_label stmt.now }
{
    match stmt {
        Stmt::Assign { .. } => None,
        Stmt::Do { terminal, .. } => Some(*terminal),
        Stmt::Continue => None,
        Stmt::Return => None,
        Stmt::Else => None,
        Stmt::EndIf => None,
        Stmt::End => None,
        Stmt::Stop(_) => None,
        Stmt::Goto(_) => None,
        Stmt::ComputedGoto { .. } => None,
        Stmt::ArithmeticIf { .. } => None,
        Stmt::LogicalIf { .. } => None,
        Stmt::BlockIf(_) => None,
        Stmt::ElseIf(_) => None,
        Stmt::Call { .. } => None,
        Stmt::Print(_) => None,
        Stmt::Read(_) => None,
        Stmt::Program(_) => None,
        Stmt::Subroutine { .. } => None,
        Stmt::Function { .. } => None,
        Stmt::Declare { .. } => None,
        Stmt::Dimension(_) => None,
        Stmt::Common(_) => None,
        Stmt::Equivalence(_) => None,
        Stmt::Parameter(_) => None,
        Stmt::Implicit(_) => None,
        Stmt::Save(_) => None,
        Stmt::Init(_) => None,
    }
}

/// Whether a statement is a barrier, so that no loop with it in its range is closed: READ, PRINT, WRITE, STOP and RETURN.
pub fn is_barrier(stmt: &Stmt) -> bool
    ensures { result ≡ is_barrier stmt.now }
{
    match stmt {
        Stmt::Assign { .. } => false,
        Stmt::Do { .. } => false,
        Stmt::Continue => false,
        Stmt::Return => true,
        Stmt::Else => false,
        Stmt::EndIf => false,
        Stmt::End => false,
        Stmt::Stop(_) => true,
        Stmt::Goto(_) => false,
        Stmt::ComputedGoto { .. } => false,
        Stmt::ArithmeticIf { .. } => false,
        Stmt::LogicalIf { .. } => false,
        Stmt::BlockIf(_) => false,
        Stmt::ElseIf(_) => false,
        Stmt::Call { .. } => false,
        Stmt::Print(_) => true,
        Stmt::Read(_) => true,
        Stmt::Program(_) => false,
        Stmt::Subroutine { .. } => false,
        Stmt::Function { .. } => false,
        Stmt::Declare { .. } => false,
        Stmt::Dimension(_) => false,
        Stmt::Common(_) => false,
        Stmt::Equivalence(_) => false,
        Stmt::Parameter(_) => false,
        Stmt::Implicit(_) => false,
        Stmt::Save(_) => false,
        Stmt::Init(_) => false,
    }
}

/// The statement that a logical IF holds; of any other statement it itself (section 11.5).
pub fn inner_of(stmt: &Stmt) -> &Stmt
    ensures { result.now ≡ inner_of stmt.now }
{
    match stmt {
        Stmt::Assign { .. } => stmt,
        Stmt::Do { .. } => stmt,
        Stmt::Continue => stmt,
        Stmt::Return => stmt,
        Stmt::Else => stmt,
        Stmt::EndIf => stmt,
        Stmt::End => stmt,
        Stmt::Stop(_) => stmt,
        Stmt::Goto(_) => stmt,
        Stmt::ComputedGoto { .. } => stmt,
        Stmt::ArithmeticIf { .. } => stmt,
        Stmt::LogicalIf { inner, .. } => inner.get(),
        Stmt::BlockIf(_) => stmt,
        Stmt::ElseIf(_) => stmt,
        Stmt::Call { .. } => stmt,
        Stmt::Print(_) => stmt,
        Stmt::Read(_) => stmt,
        Stmt::Program(_) => stmt,
        Stmt::Subroutine { .. } => stmt,
        Stmt::Function { .. } => stmt,
        Stmt::Declare { .. } => stmt,
        Stmt::Dimension(_) => stmt,
        Stmt::Common(_) => stmt,
        Stmt::Equivalence(_) => stmt,
        Stmt::Parameter(_) => stmt,
        Stmt::Implicit(_) => stmt,
        Stmt::Save(_) => stmt,
        Stmt::Init(_) => stmt,
    }
}

/// Whether a statement is END.
pub fn is_end(stmt: &Stmt) -> bool
    ensures { result ≡ is_end stmt.now }
{
    match stmt {
        Stmt::Assign { .. } => false,
        Stmt::Do { .. } => false,
        Stmt::Continue => false,
        Stmt::Return => false,
        Stmt::Else => false,
        Stmt::EndIf => false,
        Stmt::End => true,
        Stmt::Stop(_) => false,
        Stmt::Goto(_) => false,
        Stmt::ComputedGoto { .. } => false,
        Stmt::ArithmeticIf { .. } => false,
        Stmt::LogicalIf { .. } => false,
        Stmt::BlockIf(_) => false,
        Stmt::ElseIf(_) => false,
        Stmt::Call { .. } => false,
        Stmt::Print(_) => false,
        Stmt::Read(_) => false,
        Stmt::Program(_) => false,
        Stmt::Subroutine { .. } => false,
        Stmt::Function { .. } => false,
        Stmt::Declare { .. } => false,
        Stmt::Dimension(_) => false,
        Stmt::Common(_) => false,
        Stmt::Equivalence(_) => false,
        Stmt::Parameter(_) => false,
        Stmt::Implicit(_) => false,
        Stmt::Save(_) => false,
        Stmt::Init(_) => false,
    }
}

/// Whether a statement is SUBROUTINE or FUNCTION.
pub fn begins_subprogram(stmt: &Stmt) -> bool
    ensures { result ≡ begins_subprogram stmt.now }
{
    match stmt {
        Stmt::Assign { .. } => false,
        Stmt::Do { .. } => false,
        Stmt::Continue => false,
        Stmt::Return => false,
        Stmt::Else => false,
        Stmt::EndIf => false,
        Stmt::End => false,
        Stmt::Stop(_) => false,
        Stmt::Goto(_) => false,
        Stmt::ComputedGoto { .. } => false,
        Stmt::ArithmeticIf { .. } => false,
        Stmt::LogicalIf { .. } => false,
        Stmt::BlockIf(_) => false,
        Stmt::ElseIf(_) => false,
        Stmt::Call { .. } => false,
        Stmt::Print(_) => false,
        Stmt::Read(_) => false,
        Stmt::Program(_) => false,
        Stmt::Subroutine { .. } => true,
        Stmt::Function { .. } => true,
        Stmt::Declare { .. } => false,
        Stmt::Dimension(_) => false,
        Stmt::Common(_) => false,
        Stmt::Equivalence(_) => false,
        Stmt::Parameter(_) => false,
        Stmt::Implicit(_) => false,
        Stmt::Save(_) => false,
        Stmt::Init(_) => false,
    }
}

/// The name that PROGRAM, SUBROUTINE or FUNCTION gives its unit.
pub fn header_name(stmt: &Stmt) -> Option<Name>
    ensures { result ≡ header_name stmt.now }
{
    match stmt {
        Stmt::Assign { .. } => None,
        Stmt::Do { .. } => None,
        Stmt::Continue => None,
        Stmt::Return => None,
        Stmt::Else => None,
        Stmt::EndIf => None,
        Stmt::End => None,
        Stmt::Stop(_) => None,
        Stmt::Goto(_) => None,
        Stmt::ComputedGoto { .. } => None,
        Stmt::ArithmeticIf { .. } => None,
        Stmt::LogicalIf { .. } => None,
        Stmt::BlockIf(_) => None,
        Stmt::ElseIf(_) => None,
        Stmt::Call { .. } => None,
        Stmt::Print(_) => None,
        Stmt::Read(_) => None,
        Stmt::Program(name) => Some(name.copy()),
        Stmt::Subroutine { name, .. } => Some(name.copy()),
        Stmt::Function { name, .. } => Some(name.copy()),
        Stmt::Declare { .. } => None,
        Stmt::Dimension(_) => None,
        Stmt::Common(_) => None,
        Stmt::Equivalence(_) => None,
        Stmt::Parameter(_) => None,
        Stmt::Implicit(_) => None,
        Stmt::Save(_) => None,
        Stmt::Init(_) => None,
    }
}
