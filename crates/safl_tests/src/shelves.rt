//! A shelf over the files of a system that interrupts calls, and reads and writes little at a time.

use crate::slow_files::{Asked, SlowSystem};
use safl_io::{DirShelf, Failed, OutErr, ReadErr, Shelf, read_file, write_file};
use std::test::Fail;

#[test]
fn a_file_is_opened_once_to_be_read(rt: HostRuntime) -> Result<(), Fail> {
    let asked = Asked::nothing();
    let system = (SlowSystem { asked: &asked }, rt.alloc());
    let mut shelf = DirShelf::new(&system);
    for (place, name) in ["file", "pipe"].iter().enumerate() {
        let text = read_file(rt.alloc(), &mut shelf, name, 100);
        assert!(rt;
            matches!(&text, Ok(bytes) if bytes.as_slice() == [0, 1, 2, 3, 4, 5, 6].as_slice())
        );
        assert_eq!(rt; asked.opened.get() as usize, place + 1);
    }
    assert!(rt;
        matches!(
            read_file(rt.alloc(), &mut shelf, "pipe", 3),
            Err(ReadErr::TooLong)
        )
    );
    assert!(rt;
        matches!(
            read_file(rt.alloc(), &mut shelf, "none", 3),
            Err(ReadErr::Failed)
        )
    );
    Ok(())
}

#[test]
fn reads_at_places(rt: HostRuntime) -> Result<(), Fail> {
    let asked = Asked::nothing();
    let system = (SlowSystem { asked: &asked }, rt.alloc());
    let mut shelf = DirShelf::new(&system);
    let mut buffer = [0; 4];
    // the name, the offset, what is read, and how many files were opened by then
    let rows = [
        ("file", 5, Ok(1), 1),
        ("file", 6, Ok(1), 1),
        ("file", 7, Ok(0), 1),
        ("file", 7, Ok(0), 2),
        ("file", 100, Ok(0), 3),
        ("file", 5, Ok(1), 4),
        ("pipe", 0, Ok(1), 5),
        ("pipe", 1, Ok(1), 5),
        ("pipe", 1, Err(Failed), 6),
        ("file", 0, Ok(1), 7),
        ("none", 0, Err(Failed), 7),
        ("file", 1, Ok(1), 8),
    ];
    for (name, at, wanted, opened) in rows {
        assert_eq!(rt; shelf.read_at(name, at, &mut buffer), wanted);
        assert_eq!(rt; asked.opened.get(), opened);
        if wanted == Ok(1) {
            assert_eq!(rt; u64::from(buffer[0]), at);
        }
    }
    Ok(())
}

#[test]
fn a_file_is_opened_once_to_be_written(rt: HostRuntime) -> Result<(), Fail> {
    let asked = Asked::nothing();
    let system = (SlowSystem { asked: &asked }, rt.alloc());
    let mut shelf = DirShelf::new(&system);
    assert_eq!(rt; write_file(&mut shelf, "file", &[1, 2, 3, 4, 5]), Ok(()));
    assert_eq!(rt; shelf.append("file", &[6, 7]), Ok(()));
    assert_eq!(rt;
        (asked.opened.get(), asked.cut.get(), asked.taken.get()),
        (1, 1, 1_234_567)
    );
    assert_eq!(rt; write_file(&mut shelf, "pipe", &[8]), Ok(()));
    assert_eq!(rt; shelf.append("pipe", &[9]), Ok(()));
    assert_eq!(rt;
        (asked.opened.get(), asked.cut.get(), asked.taken.get()),
        (2, 1, 123_456_789)
    );
    assert_eq!(rt; shelf.append("another", &[1]), Ok(()));
    assert_eq!(rt; shelf.append("another", &[2]), Ok(()));
    assert_eq!(rt;
        (asked.opened.get(), asked.cut.get(), asked.taken.get()),
        (3, 1, 12_345_678_912)
    );
    assert_eq!(rt; shelf.create("none"), Err(OutErr::Failed));
    assert_eq!(rt; shelf.append("none", &[1]), Err(OutErr::Failed));
    Ok(())
}
