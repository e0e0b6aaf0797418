use super::*;
use crate::entries::has_entry;
use std::test::Fail;

#[test]
fn no_entry_names_a_function(rt: HostRuntime) -> Result<(), Fail> {
    let entries = entry_table(rt.alloc(), &[])?;
    let found = has_entry(
        &entries,
        b"main".as_slice(),
        b"".as_slice(),
        b"f".as_slice(),
    );
    assert!(rt; !found);
    Ok(())
}
