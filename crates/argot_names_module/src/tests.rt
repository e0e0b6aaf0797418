use super::*;

#[test]
fn first_lines(rt: HostRuntime) {
    for (text, offset, second) in [
        ("go 1.21\n", Some(0), "1.21"),
        (
            "module m\n\n \tgo\t1.22 // later\r\ngo 1.18\n",
            Some(12),
            "1.22",
        ),
        ("// go 1.22\ngo // 1.22\ngo 1.20", Some(22), "1.20"),
        ("module go 1.22\ngoo 1.22\n", None, ""),
        ("", None, ""),
    ] {
        match first_line(text.as_bytes(), b"go".as_slice()) {
            Some(line) => {
                assert!(rt; Some(line.offset) == offset);
                assert!(rt; line.second == second.as_bytes());
            }
            None => assert!(rt; offset.is_none()),
        }
    }
}

#[test]
fn lines_end_before_a_newline(rt: HostRuntime) {
    assert_eq!(rt; line_at(b"ab\ncd".as_slice(), 0), b"ab".as_slice());
    assert_eq!(rt; line_at(b"ab\ncd".as_slice(), 4), b"d".as_slice());
    assert_eq!(rt; line_at(b"ab\ncd".as_slice(), 9), b"".as_slice());
}

// The path, and the numbers of the `go` line.
#[test]
fn files(rt: HostRuntime) {
    for (text, path, go_line) in [
        (
            "module example.org/app\n\ngo 1.21\n",
            "example.org/app",
            Some((1, 21)),
        ),
        ("module \"a b\" // no blank stands in a word\n", "a", None),
        ("module `m`\ngo\t1.22.3 // later\n", "m", Some((1, 22))),
        ("module \"\"\ngo 1.\n", "", None),
        (
            "// module n\n \t module m\r\nmodule n\ngo 1.21rc2\ngo 1.18",
            "m",
            Some((1, 21)),
        ),
        ("go 1\ngo 1.18\nmodule\nmodule ", "", None),
        ("go 4294967295.007\n", "", Some((4_294_967_295, 7))),
        ("go 4294967296.1\n", "", None),
        ("go 1.4294967296\n", "", None),
        ("go .21\n", "", None),
        ("go v1.21\n", "", None),
        ("", "", None),
    ] {
        let found = go_mod_of(text.as_bytes());
        assert!(rt; found.path == path.as_bytes(), "{text}");
        assert!(rt; found.go_line == go_line, "{text}");
    }
}
