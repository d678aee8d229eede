//! The devices that ids or a part of a name mean, what is said if there are several, and what is near if there is none.
ghost use Rattle.std.specs.Prelude.{◌≡◌, ◌++◌, [], flat_map, map, option_map, take, IfOk, OnOk};
ghost use Rattle.std.specs.List.{cons_option};
ghost use Rattle.std.specs.Option.{option_map_or};
ghost use Rattle.hwdb_spec.specs.Lines.{is, pieces};
ghost use Rattle.hwdb_spec_commands.specs.DeviceFound as spec;
ghost use Rattle.hwdb_spec_commands.specs.DeviceTexts.{called};
ghost use Rattle.hwdb_spec_commands.specs.DeviceTree.{all_links, nearest_of};
ghost use Rattle.hwdb_spec_commands.specs.SysfsAnswers.{seen};
ghost use Rattle.hwdb_sysfs.specs.Views.{ancestor_of, device_of};

use crate::asking::is_asked;
use crate::row::{device_row, title};
use crate::told::same;
use hwdb_properties::{has_part, nearer, same_letters};
use hwdb_rules::first_text;
use hwdb_show::push_name;
use hwdb_spec_commands::FINDERS;
use hwdb_sysfs::{
    Ancestor, Device, DeviceFiles, Sysfs, device_of_path, last_name, list_links, near_name,
    read_device,
};
use hwdb_text::Pieces;
use std::alloc::{AllocError, Global};

/// A number as ids are written: without `0x` before it.
fn bare_number(text: &[u8]) -> &[u8]
    ensures { result.now ≡ spec.bare_number text.now }
{
    if text.starts_with(b"0x") && text.len() >= 2 {
        &text[2..]
    } else {
        text
    }
}

/// Whether a text is a vendor and a product, with a colon between them.
fn is_pair(alloc: Global, given: &[u8], vendor: &[u8], product: &[u8]) -> Result<bool, AllocError>
    ensures { IfOk result (λ is. is ≡ spec.is_pair given.now vendor.now product.now) }
{
    let mut ids = Vec::from_slice(alloc, bare_number(vendor))?;
    ids.push(b':')?;
    ids.extend_from_slice(bare_number(product))?;
    Ok(same_letters(given, &ids))
}

/// Whether a text is what a device itself tells by two attributes: its vendor and its product.
fn has_pair(
    alloc: Global,
    given: &[u8],
    vendor: &[u8],
    product: &[u8],
    own: &[Ancestor],
) -> Result<bool, AllocError>
    ensures { IfOk result (λ has. has
        ≡ spec.has_pair given.now vendor.now product.now (map ancestor_of own.now)) }
{
    let Some(maker) = first_text(own, vendor) else {
        return Ok(false);
    };
    let Some(made) = first_text(own, product) else {
        return Ok(false);
    };
    is_pair(alloc, given, maker, made)
}

/// Whether a text is the ids of a device: of one on USB, of one on PCI, or of the input device that a node is of.
fn has_ids(alloc: Global, given: &[u8], own: &[Ancestor]) -> Result<bool, AllocError>
    ensures { IfOk result (λ has. has ≡ spec.has_ids given.now (map ancestor_of own.now)) }
{
    if has_pair(alloc, given, b"idVendor", b"idProduct", own)? {
        return Ok(true);
    }
    if has_pair(alloc, given, b"vendor", b"device", own)? {
        return Ok(true);
    }
    has_pair(alloc, given, b"device/id/vendor", b"device/id/product", own)
}

/// Whether a text is a part of how a device is called.
fn is_called(given: &[u8], chain: &[Ancestor]) -> bool
    ensures { result ≡ spec.is_called given.now (map ancestor_of chain.now) }
{
    match title(chain) {
        Some(name) => has_part(given, name),
        None => has_part(given, b""),
    }
}

/// A device without its parents.
fn own_of(chain: &[Ancestor]) -> &[Ancestor]
    ensures { map ancestor_of result.now ≡ take 1 (map ancestor_of chain.now) }
{
    if chain.len() > 1 { &chain[..1] } else { chain }
}

/// Whether a text tells of a device: by its ids, or by a part of how it is called.
fn tells_of(alloc: Global, given: &[u8], chain: &[Ancestor]) -> Result<bool, AllocError>
    ensures { IfOk result (λ tells. tells ≡ spec.tells_of given.now (map ancestor_of chain.now)) }
{
    if has_ids(alloc, given, own_of(chain))? {
        return Ok(true);
    }
    Ok(is_called(given, chain))
}

/// Whether a device is a part of an input device, and not the node of its events.
fn is_other_input(chain: &[Ancestor]) -> bool
    ensures { result ≡ spec.is_other_input (map ancestor_of chain.now) }
{
    let Some((own, _parents)) = chain.split_first() else {
        return false;
    };
    same(&own.subsystem, b"input") && !own.name.starts_with(b"event")
}

/// Whether a device may be meant: something is asked for it, and of an input device it is the node of events.
fn is_offered(alloc: Global, device: &Device) -> Result<bool, AllocError>
    ensures { IfOk result (λ is. is ≡ spec.is_offered (device_of device.now)) }
{
    if is_other_input(&device.chain) {
        return Ok(false);
    }
    is_asked(alloc, device)
}

/// The same sysfs, of which is read what a text may find a device by.
fn finding<'s, F: DeviceFiles>(sysfs: &Sysfs<'s, F>) -> Sysfs<'s, F>
    ensures files { result.files.now ≡ sysfs.now.files.now }
    ensures names { pieces (is 10) result.names.now ≡ spec.finders }
    ensures folder { result.folder.now ≡ sysfs.now.folder.now }
{
    Sysfs {
        files: sysfs.files,
        names: FINDERS.as_bytes(),
        folder: sysfs.folder,
    }
}

/// Whether the device at a place is one that a text means.
fn fits<F: DeviceFiles>(
    alloc: Global,
    sysfs: &Sysfs<'_, F>,
    given: &[u8],
    place: &[u8],
) -> Result<bool, AllocError>
    ensures { F.tells → IfOk result (λ fits. fits
        ≡ spec.fits (seen (F.answers sysfs.now.files.now))
        (pieces (is 10) sysfs.now.names.now) sysfs.now.folder.now given.now place.now) }
{
    let told = read_device(alloc, &finding(sysfs), place)?;
    if !tells_of(alloc, given, &told.chain)? {
        return Ok(false);
    }
    let device = read_device(alloc, sysfs, place)?;
    is_offered(alloc, &device)
}

/// A place, if the device there is one that a text means.
fn place_if<F: DeviceFiles>(
    alloc: Global,
    sysfs: &Sysfs<'_, F>,
    given: &[u8],
    place: Vec<u8>,
) -> Result<Option<Vec<u8>>, AllocError>
    ensures { F.tells → IfOk result (λ found. option_map (λ p. p.items) found
        ≡ spec.place_if (seen (F.answers sysfs.now.files.now))
        (pieces (is 10) sysfs.now.names.now) sysfs.now.folder.now given.now place.items) }
{
    if fits(alloc, sysfs, given, &place)? {
        Ok(Some(place))
    } else {
        Ok(None)
    }
}

/// The place that a link leads to, if the device there is one that a text means.
fn fitting_at<F: DeviceFiles>(
    alloc: Global,
    sysfs: &Sysfs<'_, F>,
    given: &[u8],
    link: &[u8],
) -> Result<Option<Vec<u8>>, AllocError>
    ensures { F.tells → IfOk result (λ found. option_map (λ p. p.items) found
        ≡ spec.fitting_at (seen (F.answers sysfs.now.files.now))
        (pieces (is 10) sysfs.now.names.now) sysfs.now.folder.now given.now link.now) }
{
    match device_of_path(alloc, sysfs.files, sysfs.folder, link)? {
        Some(place) => place_if(alloc, sysfs, given, place),
        None => Ok(None),
    }
}

/// Adds the place that a link leads to, if the device there is one that a text means.
fn push_fitting<F: DeviceFiles>(
    alloc: Global,
    sysfs: &Sysfs<'_, F>,
    given: &[u8],
    link: &[u8],
    places: &mut Vec<Vec<u8>>,
) -> Result<(), AllocError>
    ensures { F.tells → OnOk result (map (λ p. p.items) places.new.items
        ≡ map (λ p. p.items) places.old.items
        ++ cons_option (spec.fitting_at (seen (F.answers sysfs.now.files.now))
        (pieces (is 10) sysfs.now.names.now) sysfs.now.folder.now given.now link.now) []) }
{
    if let Some(place) = fitting_at(alloc, sysfs, given, link)? {
        places.push(place)?;
    }
    Ok(())
}

/// Whether a text may be ids or a part of a name: there is one, and it isn't an absolute path.
fn is_word(given: &[u8]) -> bool
    ensures { result ≡ spec.is_word given.now }
{
    !given.is_empty() && !given.starts_with(b"/")
}

/// The places of the devices that ids or a part of a name mean, in the order of the list. Something has to be asked for them.
///
/// The only error is want of memory. Reads each device once, and those that the text tells of twice.
pub fn fitting<F: DeviceFiles>(
    alloc: Global,
    sysfs: &Sysfs<'_, F>,
    given: &[u8],
) -> Result<Vec<Vec<u8>>, AllocError>
    ensures { F.tells → IfOk result (λ places. map (λ p. p.items) places.items
        ≡ spec.fitting (seen (F.answers sysfs.now.files.now))
        (pieces (is 10) sysfs.now.names.now) sysfs.now.folder.now given.now) }
{
    let mut places = Vec::new(alloc);
    if !is_word(given) {
        return Ok(places);
    }
    let links = list_links(alloc, sysfs.files, sysfs.folder)?;
    let mut left = links.as_slice();
    'links: while let Some((link, rest)) = left.split_first() {
        push_fitting(alloc, sysfs, given, link, &mut places)?;
        left = rest;
    }
    Ok(places)
}

/// Adds the line of the device at a place.
fn push_row<F: DeviceFiles>(
    alloc: Global,
    sysfs: &Sysfs<'_, F>,
    place: &[u8],
    text: &mut Vec<u8>,
) -> Result<(), AllocError>
    ensures { F.tells → OnOk result (text.new.items ≡ text.old.items
        ++ spec.place_row (seen (F.answers sysfs.now.files.now))
        (pieces (is 10) sysfs.now.names.now) sysfs.now.folder.now place.now) }
{
    let device = read_device(alloc, sysfs, place)?;
    let row = device_row(alloc, &device)?;
    text.extend_from_slice(&row)?;
    Ok(())
}

/// Adds the lines of the devices at some places.
fn push_rows<F: DeviceFiles>(
    alloc: Global,
    sysfs: &Sysfs<'_, F>,
    places: &[Vec<u8>],
    text: &mut Vec<u8>,
) -> Result<(), AllocError>
    ensures { F.tells → OnOk result (text.new.items ≡ text.old.items
        ++ flat_map (spec.place_row (seen (F.answers sysfs.now.files.now))
        (pieces (is 10) sysfs.now.names.now) sysfs.now.folder.now)
        (map (λ p. p.items) places.now)) }
{
    let mut left = places;
    'places: while let Some((place, rest)) = left.split_first() {
        push_row(alloc, sysfs, place, text)?;
        left = rest;
    }
    Ok(())
}

/// What is said of several devices that fit: a line for each, as the list has it, and what to do.
///
/// The only error is want of memory.
pub fn several_text<F: DeviceFiles>(
    alloc: Global,
    sysfs: &Sysfs<'_, F>,
    given: &[u8],
    places: &[Vec<u8>],
) -> Result<Vec<u8>, AllocError>
    ensures { F.tells → IfOk result (λ text. text.items
        ≡ spec.several_text (seen (F.answers sysfs.now.files.now))
        (pieces (is 10) sysfs.now.names.now) sysfs.now.folder.now given.now
        (map (λ p. p.items) places.now)) }
{
    let mut text = Vec::from_slice(alloc, b"several devices: ")?;
    push_name(&mut text, given)?;
    text.push(b'\n')?;
    push_rows(alloc, sysfs, places, &mut text)?;
    text.extend_from_slice(b"name one of them")?;
    Ok(text)
}

/// Of what is near and of a title that one which is nearer to what was given, or a word of the title.
#[tactic(auto, unfolding(hwdb_spec_commands::specs::DeviceTree::nearest_of))]
fn nearer_part(
    alloc: Global,
    given: &[u8],
    before: Vec<u8>,
    title: &[u8],
) -> Result<Vec<u8>, AllocError>
    ensures { IfOk result (λ v. v.items
        ≡ nearest_of given.now before.items (spec.title_parts title.now)) }
{
    let mut nearest = nearer(alloc, given, before, title)?;
    for word in Pieces::new(b' ', title) {
        nearest = nearer(alloc, given, nearest, word)?;
    }
    Ok(nearest)
}

/// The same of how a device is called, if it is called something.
#[tactic(auto, unfolding(hwdb_spec_commands::specs::DeviceTree::nearest_of))]
fn nearer_called(
    alloc: Global,
    given: &[u8],
    before: Vec<u8>,
    chain: &[Ancestor],
) -> Result<Vec<u8>, AllocError>
    ensures { IfOk result (λ v. v.items ≡ nearest_of given.now before.items
        (option_map_or spec.title_parts (called (map ancestor_of chain.now)) [])) }
{
    match title(chain) {
        Some(title) => nearer_part(alloc, given, before, title),
        None => Ok(before),
    }
}

/// The same of the device at a place, if it may be meant.
#[tactic(auto, unfolding(hwdb_spec_commands::specs::DeviceTree::nearest_of))]
fn nearer_of_place<F: DeviceFiles>(
    alloc: Global,
    sysfs: &Sysfs<'_, F>,
    given: &[u8],
    before: Vec<u8>,
    place: &[u8],
) -> Result<Vec<u8>, AllocError>
    ensures { F.tells → IfOk result (λ v. v.items ≡ nearest_of given.now before.items
        (spec.parts_of_place (seen (F.answers sysfs.now.files.now))
        (pieces (is 10) sysfs.now.names.now) sysfs.now.folder.now place.now)) }
{
    let device = read_device(alloc, sysfs, place)?;
    if !is_offered(alloc, &device)? {
        return Ok(before);
    }
    let told = read_device(alloc, &finding(sysfs), place)?;
    nearer_called(alloc, given, before, &told.chain)
}

/// The same of the device that a link leads to.
#[tactic(auto, unfolding(hwdb_spec_commands::specs::DeviceTree::nearest_of))]
fn nearer_at<F: DeviceFiles>(
    alloc: Global,
    sysfs: &Sysfs<'_, F>,
    given: &[u8],
    before: Vec<u8>,
    link: &[u8],
) -> Result<Vec<u8>, AllocError>
    ensures { F.tells → IfOk result (λ v. v.items ≡ nearest_of given.now before.items
        (spec.parts_at (seen (F.answers sysfs.now.files.now))
        (pieces (is 10) sysfs.now.names.now) sysfs.now.folder.now link.now)) }
{
    match device_of_path(alloc, sysfs.files, sysfs.folder, link)? {
        Some(place) => nearer_of_place(alloc, sysfs, given, before, &place),
        None => Ok(before),
    }
}

/// The same of all devices.
#[tactic(auto, unfolding(hwdb_spec_commands::specs::DeviceTree::nearest_of))]
fn nearer_of_all<F: DeviceFiles>(
    alloc: Global,
    sysfs: &Sysfs<'_, F>,
    given: &[u8],
    before: Vec<u8>,
) -> Result<Vec<u8>, AllocError>
    ensures { F.tells → IfOk result (λ v. v.items ≡ nearest_of given.now before.items
        (flat_map (spec.parts_at (seen (F.answers sysfs.now.files.now))
        (pieces (is 10) sysfs.now.names.now) sysfs.now.folder.now)
        (all_links (seen (F.answers sysfs.now.files.now)) sysfs.now.folder.now))) }
{
    let links = list_links(alloc, sysfs.files, sysfs.folder)?;
    let mut nearest = before;
    let mut left = links.as_slice();
    'links: while let Some((link, rest)) = left.split_first() {
        nearest = nearer_at(alloc, sysfs, given, nearest, link)?;
        left = rest;
    }
    Ok(nearest)
}

/// What is nearest to a text that means no device: a name in a class or at a bus, how a device is called, or a word of that. Empty if
/// nothing is near.
///
/// The only error is want of memory. Reads each device twice, unless the text is an absolute path.
#[tactic(auto, unfolding(hwdb_spec_commands::specs::DeviceTree::nearest_of))]
pub fn near_given<F: DeviceFiles>(
    alloc: Global,
    sysfs: &Sysfs<'_, F>,
    given: &[u8],
) -> Result<Vec<u8>, AllocError>
    ensures { F.tells → IfOk result (λ v. v.items
        ≡ spec.near_given (seen (F.answers sysfs.now.files.now))
        (pieces (is 10) sysfs.now.names.now) sysfs.now.folder.now given.now) }
{
    let near = near_name(alloc, sysfs.files, sysfs.folder, last_name(given))?;
    if !is_word(given) {
        return Ok(near);
    }
    nearer_of_all(alloc, sysfs, given, near)
}
