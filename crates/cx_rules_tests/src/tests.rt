use crate::rows::{BROKEN, Row};
use cx_image::{BrokenRule, VerifyFault};
use cx_outside::{NoMemory, Text};
use cx_reach::{Item, Rule};
use cx_rules::{Broken, verify};
use std::alloc::Global;
use std::test::Fail;

/// The bytes of an image with the one function `main`, which has no parameter and no slot.
fn image_of(alloc: Global, row: &Row) -> Result<Text, NoMemory> {
    let mut bytes = Text::copy_of(alloc, b"CXIM\x01\x00\x00\x00\x00")?;
    bytes.append(row.types)?;
    bytes.append(b"\x00\x00\x00\x00\x00\x00\x00\x01\x00\x00\x00\x04main\x01")?;
    bytes.append(b"\x00\x00\x00\x00\x00\x00\x00\x00")?;
    bytes.push(row.result)?;
    bytes.append(row.code)?;
    bytes.append(row.regions)?;
    bytes.append(b"\x00\x00\x00\x00\x00\x00\x00\x00\x00\x00\x00")?;
    bytes.push(row.handler)?;
    Ok(bytes)
}

/// The first broken rule of the image that bytes are, or nothing where it is valid.
fn first_broken(alloc: Global, bytes: &[u8]) -> Result<Option<(Item, Rule)>, Fail> {
    let image = cx_image::decode(alloc, bytes)?;
    match verify(alloc, &image) {
        Ok(()) => Ok(None),
        Err(Broken::At(item, rule)) => Ok(Some((item, rule))),
        Err(Broken::OutOfMemory) => Err(NoMemory.into()),
    }
}

/// The fault of the image that bytes are, or nothing where it is accepted.
fn fault_of(alloc: Global, bytes: &[u8]) -> Result<Option<BrokenRule>, Fail> {
    let image = cx_image::decode(alloc, bytes)?;
    match cx_image::verify(alloc, image) {
        Ok(_) => Ok(None),
        Err(VerifyFault::Broken(broken)) => Ok(Some(broken)),
        Err(VerifyFault::OutOfMemory) => Err(NoMemory.into()),
    }
}

#[test]
fn the_first_broken_rule_is_named_with_its_item(rt: HostRuntime) -> Result<(), Fail> {
    let alloc = rt.alloc();
    for row in &BROKEN {
        let bytes = image_of(alloc, row)?;
        let broken = first_broken(alloc, bytes.bytes())?;
        assert_eq!(rt; broken, Some((row.item, row.rule)));
    }
    Ok(())
}

#[test]
fn a_broken_rule_is_told_with_the_place_of_its_item_in_the_file(
    rt: HostRuntime,
) -> Result<(), Fail> {
    let alloc = rt.alloc();
    for row in &BROKEN {
        let bytes = image_of(alloc, row)?;
        let broken = BrokenRule {
            at: row.at,
            rule: row.rule,
        };
        assert_eq!(rt; fault_of(alloc, bytes.bytes())?, Some(broken));
    }
    Ok(())
}

#[test]
fn a_reason_is_told_by_ten_and_the_number_of_its_rule(rt: HostRuntime) {
    let rules = [
        Rule::V1,
        Rule::V2,
        Rule::V3,
        Rule::V4,
        Rule::V5,
        Rule::V6,
        Rule::V7,
    ];
    let numbers = rules.map(|rule| BrokenRule { at: 0, rule }.number());
    assert_eq!(rt; numbers, [11, 12, 13, 14, 15, 16, 17]);
}

#[test]
fn an_image_that_keeps_the_rules_is_accepted(rt: HostRuntime) -> Result<(), Fail> {
    let alloc = rt.alloc();
    let returns = Row {
        types: b"\x00\x00\x00\x00",
        result: 1,
        code: b"\x00\x00\x00\x02\x01\x00\x00\x00\x00\x00\x00\x00\x07\x27\x00\x00\x00\x00\x00\x00\x00\x00",
        regions: b"\x00\x00\x00\x00",
        handler: 0,
        item: Item::Main,
        at: 0,
        rule: Rule::V7,
    };
    let turns = Row {
        code: b"\x00\x00\x00\x01\x23\x00\x00\x00\x00\x00\x00\x00\x00",
        ..returns
    };
    for row in [returns, turns] {
        let bytes = image_of(alloc, &row)?;
        assert_eq!(rt; first_broken(alloc, bytes.bytes())?, None);
        assert_eq!(rt; fault_of(alloc, bytes.bytes())?, None);
    }
    Ok(())
}
