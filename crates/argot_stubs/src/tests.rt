// The two ends of the table.
use crate::stub;
use std::test::Fail;

#[test]
fn a_path_with_a_stub_and_one_without(rt: HostRuntime) -> Result<(), Fail> {
    let text = stub("os/exec").ok_or("no stub")?;
    assert!(rt; text.starts_with("package exec\nimport \"errors\"\ntype Cmd struct"));
    assert_eq!(rt; stub("exec"), None);
    Ok(())
}
