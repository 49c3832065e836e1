use super::{CaseError, Line, Response, assemble, respond};
use std::alloc::AllocError;

#[test]
fn line_is_a_heading_or_a_case(rt: HostRuntime) {
    assert_eq!(rt;
        Line::from("tags and their order"),
        Line::Heading("tags and their order")
    );
    let case = Line::Case {
        name: "code of 1",
        text: " 01 00: FF",
    };
    assert_eq!(rt; Line::from("code of 1: 01 00: FF"), case);
}

#[test]
fn groups_spell_bytes(rt: HostRuntime) -> Result<(), CaseError> {
    let bytes = assemble(rt.alloc(), "01 00*2 FF")?;
    assert_eq!(rt; bytes.as_slice(), [1, 0, 0, 255].as_slice());
    let bytes = assemble(rt.alloc(), " 0A1B*+02\tC9 ")?;
    assert_eq!(rt; bytes.as_slice(), [10, 27, 10, 27, 201].as_slice());
    // Digits that stand no times are not looked at.
    let bytes = assemble(rt.alloc(), "xyz*0")?;
    assert_eq!(rt; bytes.len(), 0);
    let bytes = assemble(rt.alloc(), "")?;
    assert_eq!(rt; bytes.len(), 0);
    Ok(())
}

#[test]
fn other_texts_are_no_case(rt: HostRuntime) {
    for text in [
        "0", "012", "ff", "0G", "00*", "00*65536", "00*-1", "00*1*2", "01 0",
    ] {
        assert!(rt; matches!(assemble(rt.alloc(), text), Err(CaseError::NotACase)));
    }
}

// Counts the bytes, and refuses where there are none.
fn count(bytes: &[u8]) -> Result<usize, &'static str> {
    if bytes.is_empty() {
        Err("nothing to count")
    } else {
        Ok(bytes.len())
    }
}

#[test]
fn each_line_gets_a_response(rt: HostRuntime) -> Result<(), AllocError> {
    for (line, response) in [
        ("tags and their order", "tags and their order"),
        ("code of 1: 01 00*2 FF", "code of 1: counted 4"),
        ("no bytes: ", "no bytes: nothing to count"),
        ("half a byte: 0", "half a byte: no case"),
    ] {
        let said = respond(rt.alloc(), line, "counted", count)?;
        assert_eq!(rt; said.as_str(), response);
    }
    Ok(())
}

#[test]
fn responses_tell_headings_cases_and_verdicts(rt: HostRuntime) -> Result<(), AllocError> {
    let heading = Response::of(rt.alloc(), "tags", "counted", count)?;
    assert!(rt; matches!(heading, Response::Heading("tags")));
    let half = Response::of(rt.alloc(), "half a byte: 0", "counted", count)?;
    assert!(rt;
        matches!(
            half,
            Response::NoCase {
                name: "half a byte"
            }
        )
    );
    let judged = Response::of(rt.alloc(), "two: 01 00", "counted", count)?;
    assert!(rt;
        matches!(
            judged,
            Response::Judged {
                name: "two",
                done: "counted",
                verdict: Ok(2)
            }
        )
    );
    Ok(())
}
