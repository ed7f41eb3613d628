use input::{LineReader, check_input, split};
use std::test::Fail;

// How long the text of an input is, and where its log starts.
fn cut(input: &[u8]) -> (usize, usize) {
    let parts = split(input);
    (parts.text.len(), input.len() - parts.log.len())
}

// The lengths of the first three lines, none for one that is not there.
fn lengths(bytes: &[u8]) -> [Option<usize>; 3] {
    let mut lines = LineReader::new(bytes);
    std::array::from_fn(|_| lines.next().map(|line| line.len()))
}

#[test]
fn cuts(rt: HostRuntime) {
    assert_eq!(rt; cut(b""), (0, 0));
    assert_eq!(rt; cut(b"%"), (0, 1));
    assert_eq!(rt; cut(b"%\n"), (0, 2));
    assert_eq!(rt; cut(b"\n%\nb"), (1, 3));
    assert_eq!(rt; cut(b"path a end\n%\ne a\n"), (11, 13));
    assert_eq!(rt; cut(b"path a end\n%"), (11, 12));
    assert_eq!(rt; cut(b"path a end"), (10, 10));
    assert_eq!(rt; cut(b"a\n%\nb\n%\nc"), (2, 4));
}

#[test]
fn no_marks(rt: HostRuntime) {
    assert_eq!(rt; cut(b"a%\nb"), (4, 4));
    assert_eq!(rt; cut(b"%%\nb"), (4, 4));
    assert_eq!(rt; cut(b"% \nb"), (4, 4));
    assert_eq!(rt; cut(b"%\r\nb"), (4, 4));
}

#[test]
fn lines_of_a_log(rt: HostRuntime) {
    assert_eq!(rt; lengths(b""), [None, None, None]);
    assert_eq!(rt; lengths(b"\n"), [Some(0), None, None]);
    assert_eq!(rt; lengths(b"ab"), [Some(2), None, None]);
    assert_eq!(rt; lengths(b"ab\n"), [Some(2), None, None]);
    assert_eq!(rt; lengths(b"ab\n\nc"), [Some(2), Some(0), Some(1)]);
    assert_eq!(rt; lengths(b"\n\n\n"), [Some(0), Some(0), Some(0)]);
}

#[test]
fn longest_input(rt: HostRuntime) -> Result<(), Fail> {
    let mut bytes = vec![in rt.alloc(); 0u8; 65_536]?;
    assert!(rt; check_input(&bytes).is_ok());
    bytes.push(0)?;
    assert!(rt; check_input(&bytes).is_err());
    Ok(())
}
