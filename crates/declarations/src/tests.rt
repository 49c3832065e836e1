// What is gone over, from either end.
use super::{MarkView, ProcedureView};
use entries::{Entry, EntryKind, Kind};

#[test]
fn entries_come_from_the_bottom(rt: HostRuntime) {
    let mark = MarkView::of(&[0, 3, 4, 0, 0, 5, 255, 252, 7, 0, 2]);
    assert_eq!(rt;
        mark.entries().nth(1),
        Some(Entry {
            kind: EntryKind::Local,
            number: 0xffff_fffc,
        }),
    );
    assert_eq!(rt;
        mark.entries().next_back(),
        Some(Entry {
            kind: EntryKind::Text,
            number: 2,
        }),
    );
}

#[test]
fn parameters_come_from_either_end(rt: HostRuntime) {
    let procedure = ProcedureView::of(&[0, 5, 0, 4, 0, 12, 2, 2, 4, 1]);
    assert_eq!(rt; procedure.parameters().next(), Some(Kind::Int));
    assert_eq!(rt; procedure.parameters().next_back(), Some(Kind::Byte));
    assert_eq!(rt; procedure.parameters().rev().nth(1), Some(Kind::Int));
}
