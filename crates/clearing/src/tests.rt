// What becomes of the work area; `clear_cases` has the answers of many packages.
use super::{CheckFault, check};

// Writes "HI", a line feed and -7 DIV 2: 33 bytes of code, and one procedure.
const SAMPLE: &[u8] =
    b"\x01\x00\x21\x5A\x00\x00\x00\x00\x1B\x00\x00\x00\x02\x00H\x00I\x57\x00\x00\x00\x02\x56\x18\xFF\xFF\xFF\xF9\x18\x00\x00\x00\x02\x49\x55\x00\x02\x00\x08\x00\x00\x00\x00\x00\x08\x00\x00";

// The same with an opcode that is not listed in the place of its last instruction.
const UNLISTED: &[u8] =
    b"\x01\x00\x21\x5A\x00\x00\x00\x00\x1B\x00\x00\x00\x02\x00H\x00I\x57\x00\x00\x00\x02\x56\x18\xFF\xFF\xFF\xF9\x18\x00\x00\x00\x02\x49\x55\x01\x02\x00\x08\x00\x00\x00\x00\x00\x08\x00\x00";

// The number and the place of a refusal; 0 and 0 where the package clears, and (1, 1) where it cannot be read.
fn refusal(bytes: &[u8], work: &mut [u8]) -> (u8, usize) {
    match check(bytes, work) {
        Ok(_) => (0, 0),
        Err(CheckFault::Clear(fault)) => (fault.number(), fault.place()),
        Err(CheckFault::Read(_)) => (1, 1),
    }
}

// Whether each byte has a value.
fn all_are(bytes: &[u8], value: u8) -> bool {
    bytes.iter().all(|byte| *byte == value)
}

#[test]
fn an_area_shorter_than_the_code_is_left_as_it_was(rt: HostRuntime) {
    let mut work = [9; 32];
    assert_eq!(rt; refusal(UNLISTED, &mut work), (6, 0));
    assert!(rt; all_are(&work, 9));
}

#[test]
fn after_clearing_the_bytes_that_were_used_are_zero(rt: HostRuntime) {
    let mut work = [9; 40];
    assert_eq!(rt; refusal(SAMPLE, &mut work), (0, 0));
    assert!(rt; all_are(&work[0..33], 0));
    assert!(rt; all_are(&work[33..40], 9));
}

#[test]
fn after_a_refusal_the_bytes_that_were_used_are_zero(rt: HostRuntime) {
    let mut work = [9; 33];
    assert_eq!(rt; refusal(UNLISTED, &mut work), (7, 32));
    assert!(rt; all_are(&work, 0));
}
