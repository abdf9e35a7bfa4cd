use crate::{Step, pointer_string};
use std::collections::VecDeque;
use std::test::Fail;

#[test]
fn writes_pointers(rt: HostRuntime) -> Result<(), Fail> {
    let alloc = rt.alloc();
    let mut pointer = VecDeque::new(alloc);
    assert!(rt; pointer_string(alloc, &pointer).is_ok_and(|text| text.as_str() == "/"));
    pointer.push_front(Step::Key(String::from_str(alloc, "a/b~é")?))?;
    pointer.push_front(Step::Index(12))?;
    pointer.push_front(Step::Key(String::from_str(alloc, "nodes")?))?;
    assert!(rt;
        pointer_string(alloc, &pointer).is_ok_and(|text| text.as_str() == "/nodes/12/a~1b~0é")
    );
    Ok(())
}
