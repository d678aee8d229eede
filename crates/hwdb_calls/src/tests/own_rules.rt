//! Rules that are tried for a device: what is asked is by hand from udev(7).
use hwdb_ruleasks::{RulesFile, told_by_rules};
use hwdb_rulefiles::parse;
use hwdb_sysfs::{Ancestor, Attribute, Device};
use std::alloc::{AllocError, Global};

fn bytes(alloc: Global, text: &str) -> Result<Vec<u8>, AllocError> {
    Vec::from_slice(alloc, text.as_bytes())
}

fn ancestor(
    alloc: Global,
    path: &str,
    name: &str,
    subsystem: &str,
    uevent: &str,
) -> Result<Ancestor, AllocError> {
    Ok(Ancestor {
        path: bytes(alloc, path)?,
        name: bytes(alloc, name)?,
        subsystem: bytes(alloc, subsystem)?,
        driver: bytes(alloc, "")?,
        uevent: bytes(alloc, uevent)?,
        attributes: Vec::new(alloc),
    })
}

fn with(
    alloc: Global,
    mut ancestor: Ancestor,
    name: &str,
    value: &str,
) -> Result<Ancestor, AllocError> {
    ancestor.attributes.push(Attribute {
        name: bytes(alloc, name)?,
        value: bytes(alloc, value)?,
    })?;
    Ok(ancestor)
}

fn keyboard(alloc: Global) -> Result<Device, AllocError> {
    let mut chain = Vec::new(alloc);
    chain.push(ancestor(
        alloc,
        "/devices/a/input/input1/event3",
        "event3",
        "input",
        "MAJOR=13\nMINOR=67\nDEVNAME=input/event3\n",
    )?)?;
    let parent = ancestor(
        alloc,
        "/devices/a/input/input1",
        "input1",
        "input",
        "PRODUCT=3/1\nMODALIAS=input:b0003v0001\n",
    )?;
    chain.push(with(
        alloc,
        with(alloc, parent, "name", "A Keyboard\n")?,
        "capabilities/ev",
        "120013\n",
    )?)?;
    Ok(Device {
        chain,
        machine: bytes(alloc, "dmi:bvnX:\n")?,
    })
}

#[test]
fn rules_ask(rt: HostRuntime) {
    let alloc = rt.alloc();
    let rules =
        b"SUBSYSTEM!=\"input\", GOTO=\"end\"\nKERNEL==\"event*\", KERNELS==\"input*\", IMPORT{builtin}=\"hwdb 'evdev:name:$attr{name}:$attr{[dmi/id]modalias}'\"\nKERNEL==\"event*\", IMPORT{builtin}=\"hwdb --subsystem=input --lookup-prefix=evdev:\"\nTAG==\"x\", IMPORT{builtin}=\"hwdb b\"\nLABEL=\"end\"\n";
    let Ok(parsed) = parse(alloc, rules) else {
        assert!(rt; false);
        return;
    };
    let Ok(device) = keyboard(alloc) else {
        assert!(rt; false);
        return;
    };
    let files = [RulesFile {
        name: b"60-mine",
        lines: &parsed.lines,
    }];
    let Ok(told) = told_by_rules(alloc, None, &files, &device) else {
        assert!(rt; false);
        return;
    };
    let found = told.found;
    assert!(rt; found.len() == 3);
    if found.len() == 3 {
        assert!(rt; found[0].text.as_slice() == b"evdev:name:A Keyboard:dmi:bvnX:".as_slice());
        assert!(rt; found[0].rule.as_slice() == b"60-mine:2".as_slice());
        assert!(rt; found[1].text.as_slice() == b"evdev:input:b0003v0001".as_slice());
        assert!(rt;
            found[2].rule.as_slice() == b"perhaps 60-mine:4 (TAG==\"x\" isn't known)".as_slice()
        );
    }
}
