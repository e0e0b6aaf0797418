use super::*;
use argot_text::Text;
use std::alloc::Global;
use std::fs;
use std::test::Fail;

const MODULE: &str = "module example.com/app\ngo 1.21\n";

// The entries of a folder, as pairs of path and text.
fn entries(alloc: Global, of: &[(&str, &str)]) -> Result<Vec<(Text, Vec<u8>)>, Fail> {
    let mut made = Vec::new(alloc);
    for (path, text) in of {
        let bytes = Vec::from_slice(alloc, text.as_bytes())?;
        made.push((Text::from_str(alloc, path)?, bytes))?;
    }
    Ok(made)
}

#[test]
fn a_sink_takes_what_it_has_room_for(rt: HostRuntime) -> Result<(), Fail> {
    let alloc = rt.alloc();
    let mut sink = MemSink::new(alloc, 4, 3, Vec::new(alloc))?;
    assert_eq!(rt; sink.write(b"abcde")?, 3);
    assert_eq!(rt; sink.bytes(), b"abc".as_slice());
    assert_eq!(rt; sink.write(b"")?, 0);
    assert_eq!(rt; sink.write(b"de")?, 1);
    assert_eq!(rt; sink.write(b"e"), Err(SinkFault::Failed));
    assert_eq!(rt; sink.faults(), 1);
    assert_eq!(rt; sink.bytes(), b"abcd".as_slice());
    Ok(())
}

#[test]
fn a_whole_text_is_written_or_a_part_and_a_fault(rt: HostRuntime) -> Result<(), Fail> {
    let alloc = rt.alloc();
    let mut sink = MemSink::new(alloc, 16, 3, Vec::new(alloc))?;
    write_all(&mut sink, b"flow a -> b")?;
    assert_eq!(rt; sink.bytes(), b"flow a -> b".as_slice());
    let mut failing = MemSink::new(alloc, 16, 3, vec![in alloc; 2]?)?;
    assert_eq!(rt;
        write_all(&mut failing, b"flow a -> b"),
        Err(SinkFault::Failed)
    );
    assert_eq!(rt; failing.bytes(), b"flo".as_slice());
    Ok(())
}

#[test]
fn files_in_memory_list_and_read(rt: HostRuntime) -> Result<(), Fail> {
    let alloc = rt.alloc();
    let told = entries(
        alloc,
        &[
            ("p/main.go", "package main\n"),
            ("p/go.mod", MODULE),
            ("q/a.go", ""),
        ],
    )?;
    assert!(rt; are_distinct(&told));
    let mut files = MemFiles::new(alloc, told, Vec::new(alloc));
    let listed = files.list(alloc, "p")?;
    assert_eq!(rt; listed.len(), 2);
    assert_eq!(rt; listed.get(0).as_str(), "go.mod");
    assert_eq!(rt; listed.get(1).as_str(), "main.go");
    let bytes = files.read(alloc, "p/go.mod")?;
    assert_eq!(rt; bytes.as_slice(), MODULE.as_bytes());
    assert!(rt; files.read(alloc, "p/none").is_err());
    assert_eq!(rt; files.faults(), 1);
    assert!(rt;
        matches!(files.last(), Some(FilesCall::Reading(path)) if path.as_str() == "p/none")
    );
    Ok(())
}

#[test]
fn a_call_fails_by_its_number(rt: HostRuntime) -> Result<(), Fail> {
    let alloc = rt.alloc();
    let told = entries(alloc, &[("p/main.go", "package main\n")])?;
    assert!(rt; are_distinct(&told));
    let mut files = MemFiles::new(alloc, told, vec![in alloc; 2]?);
    assert!(rt; files.list(alloc, "p").is_ok());
    assert!(rt; files.list(alloc, "p").is_err());
    assert!(rt; matches!(files.last(), Some(FilesCall::Listing(dir)) if dir.as_str() == "p"));
    assert!(rt; files.read(alloc, "p/main.go").is_ok());
    assert_eq!(rt; files.faults(), 1);
    let twice = entries(alloc, &[("p/a", ""), ("p/a", "x")])?;
    assert!(rt; !are_distinct(&twice));
    Ok(())
}

#[test]
fn real_folders_are_walked_and_files_read(rt: HostRuntime) -> Result<(), Fail> {
    let alloc = rt.alloc();
    fs::create_dir(&rt, "p")?;
    fs::create_dir(&rt, "p/sub")?;
    fs::write(&rt, "p/main.go", "package main\n")?;
    fs::write(&rt, "p/sub/a.go", "package sub\n")?;
    std::os::unix::fs::symlink(&rt, ".", "p/loop")?;
    let mut files = RealFiles::new(&rt);
    let listed = files.list(alloc, "p")?;
    let paths = ["loop", "main.go", "sub/a.go"];
    assert_eq!(rt; listed.len(), paths.len());
    for (text, path) in listed.as_slice().iter().zip(paths) {
        assert_eq!(rt; text.as_str(), path);
    }
    let bytes = files.read(alloc, "p/sub/a.go")?;
    assert_eq!(rt; bytes.as_slice(), b"package sub\n".as_slice());
    assert_eq!(rt; files.read(alloc, "p/none").err(), Some(FilesFault::Failed));
    assert!(rt; files.list(alloc, "none").is_err());
    fs::remove_dir_all(&rt, "p")?;
    Ok(())
}

#[test]
fn what_is_no_regular_file_is_a_fault_at_once(rt: HostRuntime) -> Result<(), Fail> {
    let alloc = rt.alloc();
    std::os::unix::fs::symlink(&rt, "/dev/zero", "zero")?;
    let mut files = RealFiles::new(&rt);
    for path in ["/dev/null", "zero", "."] {
        assert_eq!(rt; files.read(alloc, path).err(), Some(FilesFault::Failed));
    }
    fs::remove_file(&rt, "zero")?;
    Ok(())
}

#[test]
fn a_stream_takes_bytes_or_counts_a_fault(rt: HostRuntime) -> Result<(), Fail> {
    fs::write(&rt, "taken", "")?;
    let mut sink = StdSink::new(fs::create(&rt, "taken")?);
    write_all(&mut sink, b"0 flows, 0 escapes\n")?;
    assert_eq!(rt;
        fs::read(&rt, "taken")?.as_slice(),
        b"0 flows, 0 escapes\n".as_slice()
    );
    let mut closed = StdSink::new(fs::open(&rt, "taken")?);
    assert_eq!(rt; closed.write(b"x"), Err(SinkFault::Failed));
    fs::remove_file(&rt, "taken")?;
    Ok(())
}
