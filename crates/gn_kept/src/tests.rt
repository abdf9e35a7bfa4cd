use crate::{Got, Kept};
use gn_io::MemShelf;
use std::alloc::Global;
use std::collections::BTreeMap;
use std::test::Fail;

/// A shelf with one file, `a`, of three bytes, whose second call fails.
fn shelf(alloc: Global) -> Result<MemShelf, Fail> {
    let mut files = BTreeMap::new(alloc);
    files.insert(String::from_str(alloc, "a")?, b"123".to_vec(alloc)?)?;
    let fail = [2].to_vec(alloc)?;
    Ok(MemShelf::new(alloc, files, fail, Vec::new(alloc)))
}

/// An answer as a text.
fn text(got: &Got) -> &str {
    match got {
        Got::Whole(bytes) if bytes.items() == b"123".as_slice() => "whole",
        Got::Whole(_) => "other bytes",
        Got::Absent => "absent",
        Got::TooLong { length: 3 } => "too long",
        Got::TooLong { .. } => "another length",
        Got::Failed => "failed",
        Got::Memory => "memory",
    }
}

#[test]
fn each_name_is_asked_for_until_it_has_an_answer(rt: HostRuntime) -> Result<(), Fail> {
    let alloc = rt.alloc();
    let mut shelf = shelf(alloc)?;
    let mut kept = Kept::new(alloc);
    let cases = [
        ("a", 3, "whole", 1),
        ("a", 2, "whole", 1),
        ("b", 9, "failed", 2),
        ("b", 9, "absent", 3),
        ("b", 0, "absent", 3),
        ("a", 3, "whole", 3),
    ];
    for (name, limit, answer, calls) in cases {
        let got = kept.get(&mut shelf, name, limit);
        assert_eq!(rt; text(&got), answer);
        assert_eq!(rt; shelf.calls().len(), calls);
    }
    Ok(())
}

#[test]
fn a_file_that_is_too_long_stays_so(rt: HostRuntime) -> Result<(), Fail> {
    let alloc = rt.alloc();
    let mut shelf = shelf(alloc)?;
    let mut kept = Kept::new(alloc);
    for limit in [2, 3] {
        let got = kept.get(&mut shelf, "a", limit);
        assert_eq!(rt; text(&got), "too long");
    }
    assert_eq!(rt; shelf.calls().len(), 1);
    Ok(())
}

#[test]
fn a_handle_without_parts_to_give_is_copied(rt: HostRuntime) -> Result<(), Fail> {
    let alloc = rt.alloc();
    let mut shelf = shelf(alloc)?;
    let mut kept = Kept::new(alloc);
    let mut one = kept.get(&mut shelf, "a", 3);
    for _ in 0..12_000 {
        one = kept.get(&mut shelf, "a", 3);
    }
    assert_eq!(rt; text(&one), "whole");
    assert_eq!(rt; shelf.calls().len(), 1);
    Ok(())
}
