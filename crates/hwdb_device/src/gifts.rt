//! The properties that strings give a device, in the order in which the strings are asked.
ghost use Rattle.std.specs.Prelude.{◌≡◌, ◌++◌, ◌∷◌, [], filter, map, IfOk, OnOk};
ghost use Rattle.hwdb_spec_commands.specs.DeviceTexts;
ghost use Rattle.hwdb_query.specs.Views.{explained_values};
ghost use Rattle.hwdb_device.specs.Views.{all_found, gift_in, gifts_in};

use crate::told::same;
use hwdb_query::Explained;
use hwdb_ruleasks::{Found, first_value};
use std::alloc::{AllocError, Global};

/// A property that a string gives.
#[derive(Clone, Copy)]
pub(crate) struct Gift<'f> {
    /// The string.
    pub(crate) text: &'f [u8],
    /// The property's key.
    pub(crate) key: &'f [u8],
    /// Its value.
    pub(crate) value: &'f [u8],
}

/// Adds what a string gives. The only error, here and below, is `AllocError`.
fn add_gifts<'f>(
    gifts: &mut Vec<Gift<'f>>,
    text: &'f [u8],
    told: &'f [Explained<'_>],
) -> Result<(), AllocError>
    ensures { OnOk result (gifts_in gifts.new.items ≡ gifts_in gifts.old.items
        ++ map (DeviceTexts.gift_of text.now) (explained_values told.now)) }
{
    for one in told {
        let value = first_value(&one.answers);
        gifts.push(Gift {
            text,
            key: one.key,
            value,
        })?;
    }
    Ok(())
}

/// What all strings give.
pub(crate) fn all_gifts<'f>(
    alloc: Global,
    found: &'f [Found<'_>],
) -> Result<Vec<Gift<'f>>, AllocError>
    ensures { IfOk result
        (λ gifts. gifts_in gifts.items ≡ DeviceTexts.all_gifts (all_found found.now)) }
{
    let mut gifts = Vec::new(alloc);
    for one in found {
        add_gifts(&mut gifts, &one.text, &one.told)?;
    }
    Ok(gifts)
}

/// Adds a property, if it has the key.
fn add_if_of<'f>(given: &mut Vec<Gift<'f>>, key: &[u8], gift: Gift<'f>) -> Result<(), AllocError>
    ensures { OnOk result (gifts_in given.new.items ≡ gifts_in given.old.items
        ++ filter (DeviceTexts.is_of key.now) (gift_in gift.entry ∷ [])) }
{
    if same(gift.key, key) {
        given.push(gift)?;
    }
    Ok(())
}

/// What is given a key, in order.
fn given_in_order<'f>(
    alloc: Global,
    key: &[u8],
    gifts: &[Gift<'f>],
) -> Result<Vec<Gift<'f>>, AllocError>
    ensures { IfOk result (λ given. gifts_in given.items
        ≡ filter (DeviceTexts.is_of key.now) (gifts_in gifts.now)) }
{
    let mut given = Vec::new(alloc);
    for gift in gifts {
        add_if_of(&mut given, key, *gift)?;
    }
    Ok(given)
}

/// What is given a key, the last first.
pub(crate) fn given_to<'f>(
    alloc: Global,
    key: &[u8],
    gifts: &[Gift<'f>],
) -> Result<Vec<Gift<'f>>, AllocError>
    ensures { IfOk result
        (λ given. gifts_in given.items ≡ DeviceTexts.given_to key.now (gifts_in gifts.now)) }
{
    let mut given = given_in_order(alloc, key, gifts)?;
    given.reverse();
    Ok(given)
}
