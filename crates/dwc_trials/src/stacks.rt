//! A stack of what entries give to those below them.
use dwc_carry::InheritedAttr;
use std::test::Fail;

#[test]
fn what_is_given_at_a_depth_or_deeper_is_dropped(rt: HostRuntime) -> Result<(), Fail> {
    let mut stack = InheritedAttr::new(rt.alloc());
    assert!(rt; stack.is_empty());
    assert!(rt; stack.top().is_none());
    for (depth, value) in [(1, 10), (2, 20), (3, 30)] {
        stack.push(depth, value)?;
    }
    assert_eq!(rt; stack.top(), Some(&30));
    stack.update(2);
    assert_eq!(rt; stack.top(), Some(&10));
    assert!(rt; !stack.is_empty());
    stack.update(1);
    assert!(rt; stack.is_empty());
    Ok(())
}

#[test]
fn a_top_of_the_depth_is_changed(rt: HostRuntime) -> Result<(), Fail> {
    let mut stack = InheritedAttr::new(rt.alloc());
    assert!(rt; stack.top_with_depth_mut(0).is_none());
    stack.push(1, 10)?;
    stack.push(2, 20)?;
    assert!(rt; stack.top_with_depth_mut(1).is_none());
    assert!(rt; stack.top_with_depth_mut(3).is_none());
    *stack.top_with_depth_mut(2).ok_or("no top")? = 25;
    assert_eq!(rt; stack.top(), Some(&25));
    stack.update(2);
    assert_eq!(rt; stack.top(), Some(&10));
    Ok(())
}
