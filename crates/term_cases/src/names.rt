//! Names and lists.
use il_core::{List, Name};
use std::test::Fail;

#[test]
fn names_keep_their_bytes(rt: HostRuntime) {
    for (text, is_name) in [
        ("x", true),
        ("Valve_2", true),
        ("x234567890123456789012345678901234567890", true),
        ("x2345678901234567890123456789012345678901", false),
        ("", false),
        ("2x", false),
        ("_x", false),
        ("a-b", false),
    ] {
        match Name::new(text.as_bytes()) {
            Some(name) => {
                assert!(rt; is_name, "{text}");
                assert_eq!(rt; name.as_bytes(), text.as_bytes(), "{text}");
            }
            None => assert!(rt; !is_name, "{text}"),
        }
    }
}

#[test]
fn a_list_grows(rt: HostRuntime) -> Result<(), Fail> {
    let mut list = List::new(rt.alloc());
    for item in [3u8, 1, 2] {
        list.push(item)?;
    }
    assert_eq!(rt; list.as_slice(), [3u8, 1, 2].as_slice());
    assert_eq!(rt; list.get(3), None);
    assert_eq!(rt; list.into_vec().len(), 3);
    Ok(())
}
