use lines::{Order, read_line};

// The place of a line's fault, none for a lawful line.
fn fault(line: &[u8]) -> Option<usize> {
    read_line(line).err().map(|fault| fault.place)
}

// The length of the name and the rank of a begin.
fn begun(line: &[u8]) -> Option<(usize, u8)> {
    match read_line(line) {
        Ok(Order::Begin { name, rank }) => Some((name.len(), rank)),
        _ => None,
    }
}

// The length of the name of an end.
fn ended(line: &[u8]) -> Option<usize> {
    match read_line(line) {
        Ok(Order::End { name }) => Some(name.len()),
        _ => None,
    }
}

// The ticket of a withdrawal.
fn withdrawn(line: &[u8]) -> Option<u32> {
    match read_line(line) {
        Ok(Order::Withdraw { ticket }) => Some(ticket),
        _ => None,
    }
}

#[test]
fn letters_and_spaces(rt: HostRuntime) {
    assert_eq!(rt; fault(b""), Some(0));
    assert_eq!(rt; fault(b"x"), Some(0));
    assert_eq!(rt; fault(b" b a 1"), Some(0));
    assert_eq!(rt; fault(b"B a 1"), Some(0));
    assert_eq!(rt; fault(b"\xe9 a"), Some(0));
    assert_eq!(rt; fault(b"b"), Some(1));
    assert_eq!(rt; fault(b"e\ta"), Some(1));
    assert_eq!(rt; fault(b"wa"), Some(1));
    assert_eq!(rt; fault(b"e "), Some(2));
    assert_eq!(rt; fault(b"e  a"), Some(2));
    assert_eq!(rt; fault(b"e 1a"), Some(2));
    assert_eq!(rt; fault(b"e \xff"), Some(2));
}

#[test]
fn names(rt: HostRuntime) {
    assert_eq!(rt; fault(b"e a "), Some(3));
    assert_eq!(rt; fault(b"e a\r"), Some(3));
    assert_eq!(rt; fault(b"e aB"), Some(3));
    assert_eq!(rt; fault(b"e a\x80"), Some(3));
    assert_eq!(rt; fault(b"e abcdefghijklmnopq"), Some(18));
    assert_eq!(rt; fault(b"b abcdefghijklmnopq 1"), Some(18));
    assert_eq!(rt; ended(b"e abcdefghijklmnop"), Some(16));
    assert_eq!(rt; ended(b"e path"), Some(4));
    assert_eq!(rt; ended(b"e end"), Some(3));
    assert_eq!(rt; ended(b"e a1b2"), Some(4));
}

#[test]
fn ranks(rt: HostRuntime) {
    assert_eq!(rt; fault(b"b a"), Some(3));
    assert_eq!(rt; fault(b"b a "), Some(4));
    assert_eq!(rt; fault(b"b a  1"), Some(4));
    assert_eq!(rt; fault(b"b a x"), Some(4));
    assert_eq!(rt; fault(b"b a\t1"), Some(3));
    assert_eq!(rt; fault(b"b a 10"), Some(5));
    assert_eq!(rt; fault(b"b a 1 "), Some(5));
    assert_eq!(rt; begun(b"b a 0"), Some((1, 0)));
    assert_eq!(rt; begun(b"b path 9"), Some((4, 9)));
    assert_eq!(rt; begun(b"b abcdefghijklmnop 7"), Some((16, 7)));
}

#[test]
fn tickets(rt: HostRuntime) {
    assert_eq!(rt; fault(b"w "), Some(2));
    assert_eq!(rt; fault(b"w 0"), Some(2));
    assert_eq!(rt; fault(b"w 01"), Some(2));
    assert_eq!(rt; fault(b"w -1"), Some(2));
    assert_eq!(rt; fault(b"w 12345678"), Some(9));
    assert_eq!(rt; fault(b"w 1 "), Some(3));
    assert_eq!(rt; fault(b"w 1\r"), Some(3));
    assert_eq!(rt; withdrawn(b"w 1"), Some(1));
    assert_eq!(rt; withdrawn(b"w 100"), Some(100));
    assert_eq!(rt; withdrawn(b"w 9999999"), Some(9_999_999));
}
