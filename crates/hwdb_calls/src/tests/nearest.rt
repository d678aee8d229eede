//! Which patterns are the nearest to a device, and what is printed of them. The expected texts are written by hand.
use hwdb_near::{PatternAt, PatternFile, near_json, near_text, push_patterns, stops};
use std::alloc::{AllocError, Global};

/// A pattern in lower case, one of another product, and one that matches.
const FILE: &[u8] = b"usb:v04d9*\n A=1\n\nusb:v04D9p0025*\n B=1\n\nusb:*\n C=1\n";

/// The device.
const DEVICE: &[u8] = b"usb:v04D9p0024";

/// The patterns of the file.
fn patterns(alloc: Global) -> Result<Vec<PatternAt<'static>>, AllocError> {
    let mut all = Vec::new(alloc);
    let file = PatternFile {
        path: b"f",
        bytes: FILE,
    };
    push_patterns(&mut all, 1, file)?;
    Ok(all)
}

/// The reports of the nearest two.
fn reports(alloc: Global) -> Result<Vec<u8>, AllocError> {
    let all = patterns(alloc)?;
    near_text(alloc, &all, DEVICE, 2)
}

/// The lines of the nearest one.
fn lines(alloc: Global) -> Result<Vec<u8>, AllocError> {
    let all = patterns(alloc)?;
    near_json(alloc, &all, DEVICE, 1)
}

/// The one that matches comes first, and then those that don't.
#[test]
fn reports_of_the_nearest(rt: HostRuntime) {
    let wanted: &[u8] =
        b"f:7: the pattern matches\n    usb:*\nf:1: the device has `D`, the pattern `d`: the case of letters counts\n    usb:v04d9*\n           ^\n    usb:v04D9p0024\n           ^\nf:4: the device has `4`, the pattern `5`\n    usb:v04D9p0025*\n                 ^\n    usb:v04D9p0024\n                 ^\n";
    assert!(rt; matches!(reports(rt.alloc()), Ok(text) if text.as_slice() == wanted));
}

/// A line for each.
#[test]
fn lines_of_the_nearest(rt: HostRuntime) {
    let wanted: &[u8] =
        b"{\"path\":\"f\",\"line\":7,\"pattern\":\"usb:*\",\"pattern_byte\":5,\"device\":\"usb:v04D9p0024\",\"device_byte\":14,\"matches\":true}\n{\"path\":\"f\",\"line\":1,\"pattern\":\"usb:v04d9*\",\"pattern_byte\":7,\"device\":\"usb:v04D9p0024\",\"device_byte\":7,\"matches\":false}\n";
    assert!(rt; matches!(lines(rt.alloc()), Ok(text) if text.as_slice() == wanted));
}

/// In tokens, and in bytes of the pattern and of the device.
#[test]
fn place_where_a_pattern_stops(rt: HostRuntime) {
    assert!(rt;
        matches!(
            stops(rt.alloc(), b"a[bc]*d", b"abxx"),
            Ok(stop) if stop.tokens == 3 && stop.pattern == 6 && stop.device == 2
        )
    );
}
