// Bytes and numbers put into a buffer.
use forms::bytes::{digit, digits, put, put_number};

#[test]
fn numbers_by_their_digits(rt: HostRuntime) {
    let mut buffer = [b'.'; 8];
    assert_eq!(rt; put_number(&mut buffer, 0, 0), 1);
    assert_eq!(rt; put_number(&mut buffer, 1, 10), 3);
    assert_eq!(rt; put_number(&mut buffer, 3, 255), 6);
    assert_eq!(rt; put(&mut buffer, 6, b'['), 7);
    assert!(rt; &buffer == b"010255[.");
    assert_eq!(rt; digits(9), 1);
    assert_eq!(rt; digits(99), 2);
    assert_eq!(rt; digits(100), 3);
}

#[test]
fn no_room(rt: HostRuntime) {
    let mut buffer = [b'.'; 3];
    assert_eq!(rt; put_number(&mut buffer, 1, 100), 1);
    assert_eq!(rt;
        put_number(&mut buffer, 18446744073709551615, 7),
        18446744073709551615
    );
    assert_eq!(rt; put(&mut buffer, 3, b'a'), 3);
    assert!(rt; &buffer == b"...");
    assert_eq!(rt; put_number(&mut buffer, 0, 100), 3);
    assert!(rt; &buffer == b"100");
}

#[test]
fn digits_alone_are_digits(rt: HostRuntime) {
    assert_eq!(rt; digit(b'0'), Some(0));
    assert_eq!(rt; digit(b'9'), Some(9));
    assert!(rt; digit(b'/').is_none() && digit(b':').is_none() && digit(b'a').is_none());
}
