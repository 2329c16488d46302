//! The rows of the table of statements, by the first word.
ghost use Rattle.std.specs.Prelude.{◌≡◌, ◌≤◌, length};
ghost use Rattle.f77_exprs.specs.Read.{Reads};
ghost use Rattle.f77_forms.specs.Form.{read};
ghost use Rattle.f77_stmts.specs.Rows.{rule};

use crate::flow::{call, computed_goto, else_if, goto, loop_statement, stop};
use crate::headings::{character, function, integer, logical, program, subroutine};
use crate::keyword::Keyword;
use crate::specifications::{common, dimension, equivalence, implicit, init, parameter, save};
use crate::transfers::{print, read_list, read_unit, write};
use f77_ast::stmt::Stmt;
use f77_exprs::reader::Reader;
use f77_exprs::unread::Unread;
use std::alloc::Global;

/// The statement of a first word, of what follows it.
pub fn behind(
    alloc: Global,
    reader: &mut Reader<'_>,
    depth: usize,
    keyword: Keyword,
) -> Result<Stmt, Unread>
    ensures { Reads (read depth (rule keyword) reader.old) result reader.new }
{
    match keyword {
        Keyword::Do => loop_statement(alloc, reader, depth),
        Keyword::Continue => Ok(Stmt::Continue),
        Keyword::Return => Ok(Stmt::Return),
        Keyword::ElseIf => else_if(alloc, reader, depth),
        Keyword::Else => Ok(Stmt::Else),
        Keyword::EndIf => Ok(Stmt::EndIf),
        Keyword::End => Ok(Stmt::End),
        Keyword::Stop => stop(alloc, reader),
        Keyword::ComputedGoto => computed_goto(alloc, reader, depth),
        Keyword::Goto => goto(reader),
        Keyword::Call => call(alloc, reader, depth),
        Keyword::Print => print(alloc, reader, depth),
        Keyword::Write => write(alloc, reader, depth),
        Keyword::ReadList => read_list(alloc, reader, depth),
        Keyword::ReadUnit => read_unit(alloc, reader, depth),
        Keyword::Program => program(reader),
        Keyword::Subroutine => subroutine(alloc, reader, depth),
        Keyword::Function => function(alloc, reader, depth),
        Keyword::Integer => integer(alloc, reader, depth),
        Keyword::Logical => logical(alloc, reader, depth),
        Keyword::Character => character(alloc, reader, depth),
        Keyword::Dimension => dimension(alloc, reader, depth),
        Keyword::Common => common(alloc, reader, depth),
        Keyword::Equivalence => equivalence(alloc, reader, depth),
        Keyword::Parameter => parameter(alloc, reader, depth),
        Keyword::Implicit => implicit(alloc, reader, depth),
        Keyword::Save => save(alloc, reader, depth),
        Keyword::Data => init(alloc, reader, depth),
    }
}
