//! What is said of patterns of systemd's own files, and of typing errors. The expected values are those of an automaton in
//! Python. It was written apart from this, and is made from the same forms (Thompson's, run token by token).
use hwdb_forms::{expected, judge, likely_prefix};
use hwdb_spec::Judgement;
use std::alloc::Global;

/// Whether the pattern is dead, and its place is there.
fn is_dead_at(alloc: Global, pattern: &[u8], place: usize) -> bool {
    matches!(judge(alloc, pattern), Ok(Judgement::Dead(at)) if at == place)
}

/// Whether the pattern matches a text that is asked.
fn is_fine(alloc: Global, pattern: &[u8]) -> bool {
    matches!(judge(alloc, pattern), Ok(Judgement::Fine))
}

/// Whether the pattern's prefix isn't known, and this one is like it.
fn is_like(alloc: Global, pattern: &[u8], prefix: &[u8]) -> bool {
    if let Ok(Judgement::UnknownPrefix) = judge(alloc, pattern) {
        return matches!(likely_prefix(alloc, pattern), Ok(Some(found)) if found == prefix);
    }
    false
}

/// Whether these bytes, and no others, may be written there.
fn is_expected(alloc: Global, front: &[u8], bytes: &[u8]) -> bool {
    matches!(expected(alloc, front), Ok(found) if found.as_slice() == bytes)
}

#[test]
fn digits_in_the_wrong_case(rt: HostRuntime) {
    let alloc = rt.alloc();
    assert!(rt; is_dead_at(alloc, b"evdev:input:b0003v05aC*", 20));
    assert!(rt; is_dead_at(alloc, b"evdev:input:b0005v05aCp022C*", 20));
    assert!(rt; is_dead_at(alloc, b"id-input:modalias:input:b0003v28bdp0078*", 32));
    assert!(rt;
        is_dead_at(
            alloc,
            b"mouse:usb:v1A81p1701:name:G-Tech Wireless Dongle Mouse:*",
            12
        )
    );
    assert!(rt; is_dead_at(alloc, b"fb:pci:v00001ab8d00004005*", 13));
}

#[test]
fn bytes_that_are_never_there(rt: HostRuntime) {
    let alloc = rt.alloc();
    assert!(rt; is_dead_at(alloc, b"ieee1394:ven0000B09Dmo*spec0000B09Dver00000100", 25));
    assert!(rt; is_dead_at(alloc, b"acpi:VQ@*:", 7));
    assert!(rt; is_dead_at(alloc, b"dmi:bvnDefault string:*", 14));
    assert!(rt;
        is_dead_at(
            alloc,
            b"mouse:usb:v0425p0101:name:G-Tech CHINA    USB Wireless Mouse & KeyBoard V1.01  :*",
            61
        )
    );
    assert!(rt;
        is_dead_at(
            alloc,
            b"evdev:atkbd:dmi:bvn*:bvr*:bd*:svnTOSHIBA:pnEQUIUM [uU][35]0[05]*:*",
            49
        )
    );
    assert!(rt; is_dead_at(alloc, b"evdev:input:b0003v05A", 21));
}

#[test]
fn patterns_that_match(rt: HostRuntime) {
    let alloc = rt.alloc();
    assert!(rt; is_fine(alloc, b"evdev:input:b0003v05AC*"));
    assert!(rt; is_fine(alloc, b"[Ee]vdev:*"));
    assert!(rt; is_fine(alloc, b"usb:v046DpC0[67]?*"));
    assert!(rt; is_fine(alloc, b"hid:*"));
}

#[test]
fn what_was_meant(rt: HostRuntime) {
    let alloc = rt.alloc();
    assert!(rt; is_like(alloc, b"EVDEV:input:*", b"evdev:"));
    assert!(rt; is_like(alloc, b"keyboard:usb:v05AC*", b"evdev:"));
    assert!(rt; is_like(alloc, b"mosue:usb:*", b"mouse:"));
    assert!(rt; is_expected(alloc, b"evdev:input:b0003v05", b"0123456789ABCDEF"));
}
