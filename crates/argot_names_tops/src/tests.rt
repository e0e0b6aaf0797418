// Names of each sort.
use crate::{is_exported, predeclared_name, predeclared_number};
use std::test::Fail;

#[test]
fn a_name_is_exported_by_an_upper_case_letter_in_front(rt: HostRuntime) -> Result<(), Fail> {
    assert!(rt; is_exported(b"Println"));
    assert!(rt; is_exported("Äpfel".as_bytes()));
    assert!(rt; !is_exported(b"println"));
    assert!(rt; !is_exported(b"_Println"));
    assert!(rt; !is_exported("ǅ".as_bytes()));
    assert!(rt; !is_exported(b""));
    Ok(())
}

#[test]
fn predeclared_names_have_numbers(rt: HostRuntime) -> Result<(), Fail> {
    assert_eq!(rt; predeclared_number(b"bool"), Some(0));
    assert_eq!(rt; predeclared_number(b"nil"), Some(25));
    assert_eq!(rt; predeclared_number(b"imag"), Some(43));
    assert_eq!(rt; predeclared_number(b"Nil"), None);
    assert_eq!(rt; predeclared_name(25), "nil");
    Ok(())
}
