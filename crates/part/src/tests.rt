// What no clause says of `with_source`, which no program calls: when the closure is called, and on what.
use crate::input::{Source, read_full, with_source};
use std::io::{Error, ErrorKind};

#[test]
fn standard_input_is_handed_on(rt: HostRuntime) {
    let mut asked = false;
    with_source(&rt, "tests", None, |from| {
        asked = matches!(from, Source::Stdin(_));
        Ok(())
    });
    assert!(rt; asked);
}

// argument 0 is the program that runs, an ELF file
#[test]
fn named_file_is_handed_on(rt: HostRuntime) {
    let mut head = [0u8; 4];
    with_source(&rt, "tests", Some(0), |from| {
        let _ = read_full(from, &mut head);
        Ok(())
    });
    assert_eq!(rt; head, [0x7F, b'E', b'L', b'F']);
}

// where opening fails the closure is not called; where the closure fails, `with_source` still ends
#[test]
fn failure_is_taken(rt: HostRuntime) {
    let mut asked = false;
    with_source(&rt, "tests", Some(usize::MAX), |_| {
        asked = true;
        Ok(())
    });
    assert!(rt; !asked, "an argument that is not there names no file");
    with_source(&rt, "tests", None, |_| {
        asked = true;
        Err(Error::from(ErrorKind::UnexpectedEof))
    });
    assert!(rt; asked);
}
