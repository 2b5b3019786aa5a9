//! The slots of the variables in scope, as they are kept in runs.
use c_lower_emit::visible_slots::VisibleSlots;
use std::rt::HostRuntime;
use std::test::Fail;

/// Slots 3, 4 and 5 are one run and slot 9 is another; two of them are forgotten, and slot 5 comes again.
#[test]
fn slots_are_listed_in_runs_and_between_them(rt: HostRuntime) -> Result<(), Fail> {
    let alloc = rt.alloc();
    let mut slots = VisibleSlots::new(alloc);
    slots.pop();
    assert!(rt; !slots.contains(0));
    slots.push(3)?;
    slots.push(4)?;
    slots.push(5)?;
    slots.push(9)?;
    assert!(rt; !slots.contains(2) && slots.contains(3) && slots.contains(5));
    assert!(rt; !slots.contains(6) && !slots.contains(8) && slots.contains(9));
    let copy = slots.copy(alloc)?;
    slots.pop();
    slots.pop();
    assert!(rt; slots.contains(3) && slots.contains(4));
    assert!(rt; !slots.contains(5) && !slots.contains(9));
    slots.push(5)?;
    assert!(rt; slots.contains(5) && !slots.contains(6));
    assert!(rt; copy.contains(4) && copy.contains(5) && copy.contains(9) && !copy.contains(8));
    Ok(())
}
