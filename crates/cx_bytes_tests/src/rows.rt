use cx_fields::Why;

/// Bytes that replace those at a place, and the fault that the file then has.
#[derive(Clone, Copy)]
pub struct Row {
    pub place: usize,
    pub put: &'static [u8],
    pub at: u32,
    pub why: Why,
}

/// Changes of the object.
pub const OBJECT_ROWS: [Row; 20] = [
    Row {
        place: 0,
        put: b"\x00",
        at: 0,
        why: Why::Magic,
    },
    Row {
        place: 4,
        put: b"\x02",
        at: 4,
        why: Why::Version,
    },
    Row {
        place: 5,
        put: b"\x08\x00\x00\x01",
        at: 5,
        why: Why::Limit,
    },
    Row {
        place: 5,
        put: b"\x08\x00\x00\x00",
        at: 9,
        why: Why::Cut,
    },
    Row {
        place: 26,
        put: b"\x00\x04\x00\x01",
        at: 26,
        why: Why::Limit,
    },
    Row {
        place: 30,
        put: b"\x00\x00\x00\x05",
        at: 44,
        why: Why::Cut,
    },
    Row {
        place: 38,
        put: b"\x05",
        at: 38,
        why: Why::Range,
    },
    Row {
        place: 38,
        put: b"\x00",
        at: 58,
        why: Why::Range,
    },
    Row {
        place: 38,
        put: b"\x04",
        at: 58,
        why: Why::Range,
    },
    Row {
        place: 54,
        put: b"\x00\x00\x00\x01",
        at: 54,
        why: Why::Range,
    },
    Row {
        place: 58,
        put: b"\x02",
        at: 58,
        why: Why::Range,
    },
    Row {
        place: 59,
        put: b"\x00\x00\x20\x01",
        at: 59,
        why: Why::Range,
    },
    Row {
        place: 59,
        put: b"\x00\x00\x00\x01",
        at: 63,
        why: Why::Range,
    },
    Row {
        place: 67,
        put: b"\x02",
        at: 67,
        why: Why::Range,
    },
    Row {
        place: 68,
        put: b"\x00\x80\x00\x01",
        at: 68,
        why: Why::Limit,
    },
    Row {
        place: 72,
        put: b"\x28",
        at: 73,
        why: Why::Index,
    },
    Row {
        place: 72,
        put: b"\x2c",
        at: 73,
        why: Why::Index,
    },
    Row {
        place: 72,
        put: b"\x2b\x00\x00\x00\x01",
        at: 73,
        why: Why::Index,
    },
    Row {
        place: 72,
        put: b"\x26\x00\x00\x00\x01",
        at: 73,
        why: Why::Index,
    },
    Row {
        place: 94,
        put: b"\x00\x00\x10\x01",
        at: 94,
        why: Why::Limit,
    },
];

/// Changes of the image.
pub const IMAGE_ROWS: [Row; 10] = [
    Row {
        place: 0,
        put: b"\x00",
        at: 0,
        why: Why::Magic,
    },
    Row {
        place: 4,
        put: b"\x00",
        at: 4,
        why: Why::Version,
    },
    Row {
        place: 17,
        put: b"\x00\x04\x00\x01",
        at: 17,
        why: Why::Limit,
    },
    Row {
        place: 21,
        put: b"\x08\x00\x00\x01",
        at: 21,
        why: Why::Limit,
    },
    Row {
        place: 29,
        put: b"\x02",
        at: 29,
        why: Why::Range,
    },
    Row {
        place: 34,
        put: b"\x00\x00\x20\x01",
        at: 34,
        why: Why::Range,
    },
    Row {
        place: 39,
        put: b"\x00\x80\x00\x01",
        at: 39,
        why: Why::Limit,
    },
    Row {
        place: 65,
        put: b"\x00\x00\x10\x01",
        at: 65,
        why: Why::Limit,
    },
    Row {
        place: 69,
        put: b"\x00\x00\x00\x01",
        at: 69,
        why: Why::Index,
    },
    Row {
        place: 73,
        put: b"\x00\x00\x00\x02",
        at: 73,
        why: Why::Index,
    },
];
