// Telling examples; `cases` runs many more.
use super::read;
use entries::{Entry, EntryKind, Kind};
use std::test::Fail;

// Six bytes of code; the program with 2 bytes of globals; a procedure at 5 with a char result, an int and a byte
// parameter; a mark at 3: an int, the local -4 and a text of 2 units.
const PACKAGE: [u8; 47] = [
    1, 0, 6, 90, 0, 0, 0, 2, 0, 2, 0, 8, 0, 0, 0, 2, 0, 8, 0, 0, 2, 0, 10, 0, 5, 0, 4, 0, 12, 2, 2,
    4, 1, 3, 0, 11, 0, 3, 4, 0, 0, 5, 255, 252, 7, 0, 2,
];

// The number and the place of a refusal; 0 and 0 for a package.
fn refusal(bytes: &[u8]) -> (u8, usize) {
    match read(bytes) {
        Ok(_) => (0, 0),
        Err(fault) => (fault.number(), fault.place()),
    }
}

#[test]
fn no_bytes_are_no_package(rt: HostRuntime) {
    assert_eq!(rt; refusal(&[]), (5, 0));
}

#[test]
fn the_lowest_number_wins_at_one_field(rt: HostRuntime) {
    assert_eq!(rt;
        refusal(&[9]),
        (1, 0),
        "a tag that is unknown, and a field that is cut"
    );
    assert_eq!(rt;
        refusal(&[9, 0, 0]),
        (2, 0),
        "a tag that is unknown, and a length of 0"
    );
    assert_eq!(rt;
        refusal(&[1, 0, 1, 0, 2, 0, 7, 0, 9, 0, 0, 0, 0, 9]),
        (3, 4),
        "a length, and an offset past the code"
    );
}

#[test]
fn the_first_bad_field_wins_over_later_ones(rt: HostRuntime) {
    assert_eq!(rt;
        refusal(&[1, 0, 1, 0, 2, 0, 8, 0, 1, 0, 0, 0, 0, 0, 0, 9]),
        (4, 4)
    );
}

#[test]
fn the_later_of_two_marks_at_an_offset_is_bad(rt: HostRuntime) {
    assert_eq!(rt;
        refusal(&[
            1, 0, 1, 0, 2, 0, 8, 0, 0, 0, 0, 0, 0, 0, 0, 3, 0, 2, 0, 0, 3, 0, 2, 0, 0,
        ],),
        (4, 20)
    );
}

#[test]
fn a_package_shows_its_procedures(rt: HostRuntime) -> Result<(), Fail> {
    let package = read(&PACKAGE)?;
    assert_eq!(rt;
        (
            package.code().len(),
            package.procedure_count(),
            package.mark_count(),
        ),
        (6, 2, 1)
    );
    assert_eq!(rt; package.globals_size(), 2);
    assert_eq!(rt;
        (
            package.owner(4).offset,
            package.owner(5).offset,
            package.owner(99).offset,
        ),
        (0, 5, 5)
    );
    assert!(rt; package.opening_at(4).is_none());
    let procedure = package.opening_at(5).ok_or("none opens at 5")?;
    assert_eq!(rt;
        (procedure.locals, procedure.depth, procedure.result),
        (4, 12, Some(Kind::Char))
    );
    assert_eq!(rt;
        (
            procedure.parameter_count(),
            procedure.parameters_size(),
            procedure.result_size(),
        ),
        (2, 5, 2)
    );
    assert_eq!(rt;
        (
            procedure.parameter(0),
            procedure.parameter(1),
            procedure.parameter(2),
        ),
        (Some(Kind::Int), Some(Kind::Byte), None)
    );
    Ok(())
}

#[test]
fn a_package_shows_its_marks(rt: HostRuntime) -> Result<(), Fail> {
    let package = read(&PACKAGE)?;
    assert!(rt; package.mark_at(4).is_none());
    let mark = package.mark_at(3).ok_or("no mark at 3")?;
    assert_eq!(rt; mark.entry_count(), 3);
    assert_eq!(rt;
        mark.entry(0),
        Some(Entry {
            kind: EntryKind::Int,
            number: 0,
        })
    );
    assert_eq!(rt;
        mark.entry(1),
        Some(Entry {
            kind: EntryKind::Local,
            number: 0xffff_fffc,
        })
    );
    assert_eq!(rt;
        mark.entry(2),
        Some(Entry {
            kind: EntryKind::Text,
            number: 2,
        })
    );
    assert_eq!(rt; mark.entry(3), None);
    Ok(())
}
