use gn_shared::{ShareEvent, ShareWorld, StepFault};
use std::test::Fail;

#[test]
fn a_handle_writes_only_once_it_has_found_itself_alone(rt: HostRuntime) -> Result<(), Fail> {
    let mut world = ShareWorld::new();
    let items = [7].to_vec(rt.alloc())?;
    assert_eq!(rt;
        world.step(ShareEvent::Look { holder: 1 }),
        Err(StepFault::NotAllowed)
    );
    assert_eq!(rt; world.step(ShareEvent::Make { holder: 1, items }), Ok(()));
    let change = ShareEvent::Change {
        holder: 1,
        at: 0,
        value: 9,
    };
    assert_eq!(rt; world.step(ShareEvent::Add { holder: 2, from: 1 }), Ok(()));
    assert_eq!(rt; world.step(ShareEvent::Look { holder: 1 }), Ok(()));
    assert_eq!(rt; world.step(change), Err(StepFault::NotAllowed));
    assert_eq!(rt; world.step(ShareEvent::Go { holder: 2 }), Ok(()));
    assert_eq!(rt; world.step(ShareEvent::Look { holder: 1 }), Ok(()));
    let change = ShareEvent::Change {
        holder: 1,
        at: 0,
        value: 9,
    };
    assert_eq!(rt; world.step(change), Ok(()));
    assert_eq!(rt; world.step(ShareEvent::Go { holder: 1 }), Ok(()));
    assert_eq!(rt;
        world.step(ShareEvent::Add { holder: 3, from: 1 }),
        Err(StepFault::NotAllowed)
    );
    Ok(())
}
