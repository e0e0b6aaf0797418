// Rows of steps that are worked out by hand.
use crate::rows_of;
use std::test::Fail;

#[test]
fn a_row_has_what_steps_lead_to(rt: HostRuntime) -> Result<(), Fail> {
    let rows = rows_of(rt.alloc(), 5, &[(2, 1), (0, 2), (1, 3), (3, 1)])?;
    assert!(rt; rows.walk(0).eq([1, 2, 3].iter().copied()));
    assert!(rt; rows.walk(1).eq([1, 3].iter().copied()));
    assert!(rt; rows.walk(2).eq([1, 3].iter().copied()));
    assert!(rt; rows.walk(3).eq([1, 3].iter().copied()));
    assert!(rt; rows.walk(4).next().is_none());
    Ok(())
}
