use std::test::Fail;
use voy_json::{has_all, has_only, parse};

#[test]
fn names_of_an_object_are_tested(rt: HostRuntime) -> Result<(), Fail> {
    let Ok(value) = parse(rt.alloc(), b"{\"b\":null,\"a\":1,\"b\":2}") else {
        return Err(Fail::from("no document"));
    };
    let cases: [(&[&str], bool, bool); 5] = [
        (&["a", "b"], true, true),
        (&["b"], true, false),
        (&["a", "b", "c"], false, true),
        (&[], true, false),
        (&["c"], false, false),
    ];
    for (names, all, only) in cases {
        assert_eq!(rt; has_all(&value, names), all, "at {names:?}");
        assert_eq!(rt; has_only(&value, names), only, "at {names:?}");
    }
    Ok(())
}
