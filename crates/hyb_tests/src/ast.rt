//! Names, the codes of faults, the text of errors, and loops by ordinal.

use f77_ast::entities::Entities;
use f77_ast::fault::Fault;
use f77_ast::name::Name;
use f77_ast::program::{Layout, Loop, Loops, Program, Regions, Units};
use f77_ast::refusal::{FrontError, Refusal};
use f77_ast::rule::Rule;
use hyb_base::no_memory::NoMemory;
use hyb_base::nums::Nums;
use std::alloc::Global;
use std::test::Fail;

#[test]
fn names(rt: HostRuntime) -> Result<(), Fail> {
    let accepted: [&[u8]; 5] = [b"A", b"Z9", b"IJKLMN", b"B2C3D4", b"X00000"];
    for text in accepted {
        let name = Name::new(text).ok_or("refused")?;
        assert_eq!(rt; name.as_slice(), text);
        assert_eq!(rt; name.copy().as_slice(), text);
        assert!(rt; name == name.copy());
        assert!(rt; name != a_name(b"Q")?);
    }
    let refused: [&[u8]; 9] = [
        b"", b"ABCDEFG", b"a", b"Ab", b"1A", b"A_B", b"_A", b"A B", b"A[",
    ];
    for text in refused {
        assert!(rt; Name::new(text).is_none(), "{text:?}");
    }
    Ok(())
}

#[test]
fn fault_codes(rt: HostRuntime) {
    let faults = [
        (Fault::ZeroDivisor, 1),
        (Fault::Subscript, 2),
        (Fault::OutsideRegion, 3),
        (Fault::Substring, 4),
        (Fault::ZeroIncrement, 5),
        (Fault::DoRange, 6),
        (Fault::ValueDummyAssigned, 7),
        (Fault::InputEnd, 8),
        (Fault::InputForm, 9),
        (Fault::LineLimit, 10),
        (Fault::CharRange, 11),
        (Fault::DoVariableWritten, 12),
    ];
    for (fault, code) in faults {
        assert_eq!(rt; fault.code(), code);
    }
}

#[test]
fn errors(rt: HostRuntime) -> Result<(), Fail> {
    let refused = FrontError::Refused(Refusal::new(3, Rule::NoStatement));
    assert_eq!(rt;
        format!(in rt.alloc(); "{refused}")?.as_str(),
        "line 3: refused by rule 20"
    );
    let wants = FrontError::from(NoMemory);
    assert_eq!(rt; format!(in rt.alloc(); "{wants}")?.as_str(), "no memory");
    Ok(())
}

#[test]
fn loops_by_ordinal(rt: HostRuntime) -> Result<(), Fail> {
    let ordered = a_program(rt.alloc(), &[1, 2, 3])?;
    let mixed = a_program(rt.alloc(), &[3, 5, 1, 5])?;
    // The ordinal, and the line of its loop in each: the loop at place p is of line 10 (p + 1).
    let rows = [
        (0, None, None),
        (1, Some(10), Some(30)),
        (2, Some(20), None),
        (3, Some(30), Some(10)),
        (4, None, None),
        (5, None, Some(20)),
        (u32::MAX, None, None),
    ];
    for (ordinal, in_ordered, in_mixed) in rows {
        assert_eq!(rt; line_of(&ordered, ordinal), in_ordered, "{ordinal}");
        assert_eq!(rt; line_of(&mixed, ordinal), in_mixed, "{ordinal}");
    }
    Ok(())
}

/// A name that is one.
fn a_name(text: &[u8]) -> Result<Name, Fail> {
    Ok(Name::new(text).ok_or("not a name")?)
}

/// The line of the loop of an ordinal.
fn line_of(program: &Program, ordinal: u32) -> Option<u32> {
    program.loop_at(ordinal).map(|found| found.line)
}

/// A program of no unit with loops of these ordinals, each of line 10 (p + 1) at its place p.
fn a_program(alloc: Global, ordinals: &[u32]) -> Result<Program, Fail> {
    let mut loops = Loops::new(alloc);
    let mut line = 0;
    for ordinal in ordinals {
        line = u32::min(line, 1000) + 10;
        loops.push(Loop {
            line,
            ordinal: *ordinal,
            unit: 0,
            from: 2,
            last: 3,
            closed: true,
        })?;
    }
    Ok(Program {
        units: Units::new(alloc),
        layout: Layout {
            regions: Regions::new(alloc),
            entities: Entities::new(alloc),
            total: 0,
            first: Nums::new(alloc),
        },
        loops,
    })
}
