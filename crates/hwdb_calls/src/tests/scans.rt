//! What a scanner tells of events. The bytes are by hand from linux/input.h.
use hwdb_scan::Scanner;

/// Caps Lock of a keyboard on USB is pressed and let go, and the left button of a mouse is pressed. The bytes of time are 0.
const EVENTS: &[u8] = b"\
    \0\0\0\0\0\0\0\0\0\0\0\0\0\0\0\0\x04\0\x04\0\x39\0\x07\0\
    \0\0\0\0\0\0\0\0\0\0\0\0\0\0\0\0\x01\0\x3a\0\x01\0\0\0\
    \0\0\0\0\0\0\0\0\0\0\0\0\0\0\0\0\0\0\0\0\0\0\0\0\
    \0\0\0\0\0\0\0\0\0\0\0\0\0\0\0\0\x04\0\x04\0\x39\0\x07\0\
    \0\0\0\0\0\0\0\0\0\0\0\0\0\0\0\0\x01\0\x3a\0\0\0\0\0\
    \0\0\0\0\0\0\0\0\0\0\0\0\0\0\0\0\0\0\0\0\0\0\0\0\
    \0\0\0\0\0\0\0\0\0\0\0\0\0\0\0\0\x01\0\x10\x01\x01\0\0\0\
    \0\0\0\0\0\0\0\0\0\0\0\0\0\0\0\0\0\0\0\0\0\0\0\0";

/// What is told of them.
const TOLD: &[u8] = b"70039 capslock KEYBOARD_KEY_70039=capslock\n- btn_left -\n";

/// All keys that are pressed are told.
#[test]
fn keys_are_told(rt: HostRuntime) {
    let mut scanner = Scanner::new(rt.alloc(), None);
    let mut text = Vec::new(rt.alloc());
    assert!(rt; scanner.take(rt.alloc(), EVENTS, &mut text).is_ok());
    assert!(rt; text.as_slice() == TOLD);
}

/// A scanner is done once as many are told as are asked for.
#[test]
fn scanner_is_done(rt: HostRuntime) {
    let mut scanner = Scanner::new(rt.alloc(), Some(1));
    let mut text = Vec::new(rt.alloc());
    assert!(rt; !scanner.is_done());
    assert!(rt; scanner.take(rt.alloc(), EVENTS, &mut text).is_ok());
    assert!(rt; scanner.is_done());
}
