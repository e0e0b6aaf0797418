// What names stand for, against the rules of scope.
use crate::answer::answer;
use crate::texts::{CASES, case};
use crate::words::Asked;
use std::test::Fail;

#[test]
fn each_name_stands_for_its_declaration(rt: HostRuntime) -> Result<(), Fail> {
    for n in 0..CASES {
        let (folder, wanted) = case(n);
        let out = answer(rt.alloc(), folder, Asked::Lines)?;
        let told = std::str::from_utf8(out.bytes()).unwrap_or("");
        assert_eq!(rt; told, wanted, "case {n}");
    }
    Ok(())
}
