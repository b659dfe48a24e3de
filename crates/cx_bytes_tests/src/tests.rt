use crate::bytes::{EACH, IMAGE, IMAGE_FIELDS, OBJECT, OBJECT_FIELDS};
use crate::rows::{IMAGE_ROWS, OBJECT_ROWS};
use cx_fields::{BytesFault, ReadFault, Why};
use cx_outside::{NoMemory, Text};
use std::alloc::Global;
use std::test::Fail;

fn changed(alloc: Global, base: &[u8], place: usize, put: &[u8]) -> Result<Text, NoMemory> {
    let mut text = Text::new(alloc);
    for (i, byte) in base.iter().enumerate() {
        let other = if i < place { None } else { put.get(i - place) };
        text.push(*other.unwrap_or(byte))?;
    }
    Ok(text)
}

/// The start of the last field that begins at this place or before.
fn field_of(fields: &[u32], place: u32) -> u32 {
    let mut start = 0;
    for field in fields {
        if *field <= place {
            start = *field;
        }
    }
    start
}

fn object_fault(alloc: Global, bytes: &[u8]) -> Option<ReadFault> {
    match cx_object::decode(alloc, bytes) {
        Ok(_) => None,
        Err(fault) => Some(fault),
    }
}

fn image_fault(alloc: Global, bytes: &[u8]) -> Option<ReadFault> {
    match cx_image::decode(alloc, bytes) {
        Ok(_) => None,
        Err(fault) => Some(fault),
    }
}

fn bad(at: u32, why: Why) -> Option<ReadFault> {
    Some(ReadFault::Bad(BytesFault { at, why }))
}

#[test]
fn an_object_has_one_spelling(rt: HostRuntime) -> Result<(), Fail> {
    let alloc = rt.alloc();
    for bytes in [OBJECT, EACH] {
        let object = cx_object::decode(alloc, bytes)?;
        let again = cx_object::encode(alloc, &object)?;
        assert!(rt; again.bytes() == bytes);
    }
    Ok(())
}

#[test]
fn an_image_has_one_spelling(rt: HostRuntime) -> Result<(), Fail> {
    let alloc = rt.alloc();
    let image = cx_image::decode(alloc, IMAGE)?;
    let again = cx_image::encode(alloc, &image)?;
    assert!(rt; again.bytes() == IMAGE);
    Ok(())
}

#[test]
fn a_file_that_is_cut_is_refused_at_the_field(rt: HostRuntime) {
    let alloc = rt.alloc();
    for (n, _) in OBJECT.iter().enumerate() {
        let want = bad(field_of(&OBJECT_FIELDS, n as u32), Why::Cut);
        assert_eq!(rt; object_fault(alloc, &OBJECT[..n]), want);
    }
    for (n, _) in IMAGE.iter().enumerate() {
        let want = bad(field_of(&IMAGE_FIELDS, n as u32), Why::Cut);
        assert_eq!(rt; image_fault(alloc, &IMAGE[..n]), want);
    }
}

#[test]
fn a_changed_object_is_refused_at_its_first_fault(rt: HostRuntime) -> Result<(), Fail> {
    let alloc = rt.alloc();
    for row in OBJECT_ROWS {
        let bytes = changed(alloc, OBJECT, row.place, row.put)?;
        assert_eq!(rt; object_fault(alloc, bytes.bytes()), bad(row.at, row.why));
    }
    Ok(())
}

#[test]
fn a_changed_image_is_refused_at_its_first_fault(rt: HostRuntime) -> Result<(), Fail> {
    let alloc = rt.alloc();
    for row in IMAGE_ROWS {
        let bytes = changed(alloc, IMAGE, row.place, row.put)?;
        assert_eq!(rt; image_fault(alloc, bytes.bytes()), bad(row.at, row.why));
    }
    Ok(())
}

#[test]
fn a_byte_after_the_last_field_is_a_fault(rt: HostRuntime) -> Result<(), Fail> {
    let alloc = rt.alloc();
    let mut image = Text::copy_of(alloc, IMAGE)?;
    image.push(0)?;
    assert_eq!(rt; image_fault(alloc, image.bytes()), bad(77, Why::Trailing));
    let mut object = Text::copy_of(alloc, OBJECT)?;
    object.push(0)?;
    assert_eq!(rt; object_fault(alloc, object.bytes()), bad(98, Why::Trailing));
    Ok(())
}
