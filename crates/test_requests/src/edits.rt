use jr_base::{Span, Text};
use jr_edits::{EditFault, Edits, apply};
use std::alloc::Global;
use std::test::Fail;

fn text(alloc: Global, text: &str) -> Result<Text, Fail> {
    Ok(Text::new(text.as_bytes().to_vec(alloc)?))
}

// Pushes, each with what is expected of it, and the text that they make of `abc`.
const REPLACED: [(u32, u32, &str, Option<EditFault>); 12] = [
    (1, 2, "x", None),
    (0, 2, "y", Some(EditFault::Overlap)),
    (1, 2, "y", Some(EditFault::Overlap)),
    (2, 4, "y", Some(EditFault::OutOfRange)),
    (2, 1, "y", Some(EditFault::OutOfRange)),
    (4, 4, "y", Some(EditFault::OutOfRange)),
    (1, 1, "1", None),
    (1, 1, "2", None),
    (3, 3, "e", None),
    (2, 3, "", None),
    (2, 2, "m", None),
    (0, 0, "s", None),
];

#[test]
fn edits_of_abc(rt: HostRuntime) -> Result<(), Fail> {
    let mut edits = Edits::new(rt.alloc(), 3);
    for (start, end, new, fault) in REPLACED {
        let pushed = edits.push(Span { start, end }, text(rt.alloc(), new)?);
        assert_eq!(rt; pushed.err(), fault);
    }
    let new = apply(rt.alloc(), b"abc", &edits)?;
    assert_eq!(rt; new.as_slice(), b"sa12xme".as_slice());
    Ok(())
}
