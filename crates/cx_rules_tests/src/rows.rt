use cx_reach::{Item, Rule};

/// The parts of an image with the one function `main`, and the first rule that it breaks.
#[derive(Clone, Copy)]
pub struct Row {
    /// The table of types.
    pub types: &'static [u8],
    /// Whether `main` has a result.
    pub result: u8,
    pub code: &'static [u8],
    pub regions: &'static [u8],
    /// The field of the handler.
    pub handler: u8,
    pub item: Item,
    /// Where the item begins in the file.
    pub at: u32,
    pub rule: Rule,
}

/// Images that break a rule.
pub const BROKEN: [Row; 27] = [
    // an instruction of no code
    Row {
        types: b"\x00\x00\x00\x00",
        result: 1,
        code: b"\x00\x00\x00\x01\x00\x00\x00\x00\x00\x00\x00\x00\x00",
        regions: b"\x00\x00\x00\x00",
        handler: 0,
        item: Item::Instruction(0, 0),
        at: 43,
        rule: Rule::V1,
    },
    // a second instruction of no code
    Row {
        types: b"\x00\x00\x00\x00",
        result: 1,
        code: b"\x00\x00\x00\x02\x01\x00\x00\x00\x00\x00\x00\x00\x07\x00\x00\x00\x00\x00\
            \x00\x00\x00\x00",
        regions: b"\x00\x00\x00\x00",
        handler: 0,
        item: Item::Instruction(0, 1),
        at: 52,
        rule: Rule::V1,
    },
    // a call of no function
    Row {
        types: b"\x00\x00\x00\x00",
        result: 1,
        code: b"\x00\x00\x00\x02\x26\x00\x00\x00\x01\x00\x00\x00\x00\x27\x00\x00\x00\x00\
            \x00\x00\x00\x00",
        regions: b"\x00\x00\x00\x00",
        handler: 0,
        item: Item::Instruction(0, 0),
        at: 43,
        rule: Rule::V1,
    },
    // an object of too many leaves
    Row {
        types: b"\x00\x00\x00\x00",
        result: 1,
        code: b"\x00\x00\x00\x03\x09\x00\x00\x01\x01\x00\x00\x00\x00\x01\x00\x00\x00\x00\
            \x00\x00\x00\x07\x27\x00\x00\x00\x00\x00\x00\x00\x00",
        regions: b"\x00\x00\x00\x00",
        handler: 0,
        item: Item::Instruction(0, 0),
        at: 43,
        rule: Rule::V1,
    },
    // a Catch of no type
    Row {
        types: b"\x00\x00\x00\x00",
        result: 1,
        code: b"\x00\x00\x00\x04\x01\x00\x00\x00\x00\x00\x00\x00\x07\x27\x00\x00\x00\x00\
            \x00\x00\x00\x00\x01\x00\x00\x00\x00\x00\x00\x00\x08\x27\x00\x00\x00\x00\
            \x00\x00\x00\x00",
        regions: b"\x00\x00\x00\x01\x00\x00\x00\x00\x00\x00\x00\x01\x02\x00\x00\x00\x01\x00\
            \x00\x00\x02\x00\x00\x00\x00",
        handler: 0,
        item: Item::Region(0, 0),
        at: 83,
        rule: Rule::V1,
    },
    // a jump behind the code
    Row {
        types: b"\x00\x00\x00\x00",
        result: 1,
        code: b"\x00\x00\x00\x01\x23\x00\x00\x00\x05\x00\x00\x00\x00",
        regions: b"\x00\x00\x00\x00",
        handler: 0,
        item: Item::Instruction(0, 0),
        at: 43,
        rule: Rule::V2,
    },
    // a slot that the function lacks
    Row {
        types: b"\x00\x00\x00\x00",
        result: 1,
        code: b"\x00\x00\x00\x02\x07\x00\x00\x00\x00\x00\x00\x00\x00\x27\x00\x00\x00\x00\
            \x00\x00\x00\x00",
        regions: b"\x00\x00\x00\x00",
        handler: 0,
        item: Item::Instruction(0, 0),
        at: 43,
        rule: Rule::V2,
    },
    // a target behind the code
    Row {
        types: b"\x00\x00\x00\x00",
        result: 1,
        code: b"\x00\x00\x00\x02\x01\x00\x00\x00\x00\x00\x00\x00\x07\x27\x00\x00\x00\x00\
            \x00\x00\x00\x00",
        regions: b"\x00\x00\x00\x01\x00\x00\x00\x00\x00\x00\x00\x01\x02\x00\x00\x00\x00\x00\
            \x00\x00\x09\x00\x00\x00\x00",
        handler: 0,
        item: Item::Region(0, 0),
        at: 65,
        rule: Rule::V2,
    },
    // a return without a value
    Row {
        types: b"\x00\x00\x00\x00",
        result: 1,
        code: b"\x00\x00\x00\x01\x27\x00\x00\x00\x00\x00\x00\x00\x00",
        regions: b"\x00\x00\x00\x00",
        handler: 0,
        item: Item::Instruction(0, 0),
        at: 43,
        rule: Rule::V3,
    },
    // two depths that meet at a place
    Row {
        types: b"\x00\x00\x00\x00",
        result: 1,
        code: b"\x00\x00\x00\x04\x01\x00\x00\x00\x00\x00\x00\x00\x07\x01\x00\x00\x00\x00\
            \x00\x00\x00\x07\x24\x00\x00\x00\x00\x00\x00\x00\x00\x27\x00\x00\x00\x00\
            \x00\x00\x00\x00",
        regions: b"\x00\x00\x00\x00",
        handler: 0,
        item: Item::Instruction(0, 0),
        at: 43,
        rule: Rule::V3,
    },
    // more than 4,096 operands
    Row {
        types: b"\x00\x00\x00\x00",
        result: 1,
        code: b"\x00\x00\x00\x04\x01\x00\x00\x00\x00\x00\x00\x00\x07\x27\x00\x00\x00\x00\
            \x00\x00\x00\x00\x01\x00\x00\x00\x00\x00\x00\x00\x08\x27\x00\x00\x00\x00\
            \x00\x00\x00\x00",
        regions: b"\x00\x00\x00\x01\x00\x00\x00\x00\x00\x00\x00\x01\x02\x00\x00\x00\x00\x00\
            \x00\x00\x02\x00\x00\x10\x01",
        handler: 0,
        item: Item::Instruction(0, 2),
        at: 61,
        rule: Rule::V3,
    },
    // a region without a place
    Row {
        types: b"\x00\x00\x00\x00",
        result: 1,
        code: b"\x00\x00\x00\x04\x01\x00\x00\x00\x00\x00\x00\x00\x07\x27\x00\x00\x00\x00\
            \x00\x00\x00\x00\x01\x00\x00\x00\x00\x00\x00\x00\x08\x27\x00\x00\x00\x00\
            \x00\x00\x00\x00",
        regions: b"\x00\x00\x00\x01\x00\x00\x00\x01\x00\x00\x00\x01\x02\x00\x00\x00\x00\x00\
            \x00\x00\x02\x00\x00\x00\x00",
        handler: 0,
        item: Item::Region(0, 0),
        at: 83,
        rule: Rule::V4,
    },
    // a region that ends behind the code
    Row {
        types: b"\x00\x00\x00\x00",
        result: 1,
        code: b"\x00\x00\x00\x04\x01\x00\x00\x00\x00\x00\x00\x00\x07\x27\x00\x00\x00\x00\
            \x00\x00\x00\x00\x01\x00\x00\x00\x00\x00\x00\x00\x08\x27\x00\x00\x00\x00\
            \x00\x00\x00\x00",
        regions: b"\x00\x00\x00\x01\x00\x00\x00\x03\x00\x00\x00\x05\x02\x00\x00\x00\x00\x00\
            \x00\x00\x02\x00\x00\x00\x00",
        handler: 0,
        item: Item::Region(0, 0),
        at: 83,
        rule: Rule::V4,
    },
    // a region that keeps what is not there
    Row {
        types: b"\x00\x00\x00\x00",
        result: 1,
        code: b"\x00\x00\x00\x03\x01\x00\x00\x00\x00\x00\x00\x00\x07\x27\x00\x00\x00\x00\
            \x00\x00\x00\x00\x27\x00\x00\x00\x00\x00\x00\x00\x00",
        regions: b"\x00\x00\x00\x01\x00\x00\x00\x00\x00\x00\x00\x01\x02\x00\x00\x00\x00\x00\
            \x00\x00\x02\x00\x00\x00\x01",
        handler: 0,
        item: Item::Region(0, 0),
        at: 74,
        rule: Rule::V4,
    },
    // a region that covers its own target
    Row {
        types: b"\x00\x00\x00\x00",
        result: 1,
        code: b"\x00\x00\x00\x04\x01\x00\x00\x00\x00\x00\x00\x00\x07\x27\x00\x00\x00\x00\
            \x00\x00\x00\x00\x01\x00\x00\x00\x00\x00\x00\x00\x08\x27\x00\x00\x00\x00\
            \x00\x00\x00\x00",
        regions: b"\x00\x00\x00\x01\x00\x00\x00\x01\x00\x00\x00\x03\x02\x00\x00\x00\x00\x00\
            \x00\x00\x02\x00\x00\x00\x00",
        handler: 0,
        item: Item::Region(0, 0),
        at: 83,
        rule: Rule::V4,
    },
    // a region across an earlier one
    Row {
        types: b"\x00\x00\x00\x00",
        result: 1,
        code: b"\x00\x00\x00\x06\x01\x00\x00\x00\x00\x00\x00\x00\x07\x05\x00\x00\x00\x00\
            \x00\x00\x00\x00\x01\x00\x00\x00\x00\x00\x00\x00\x07\x27\x00\x00\x00\x00\
            \x00\x00\x00\x00\x01\x00\x00\x00\x00\x00\x00\x00\x08\x27\x00\x00\x00\x00\
            \x00\x00\x00\x00",
        regions: b"\x00\x00\x00\x02\x00\x00\x00\x00\x00\x00\x00\x02\x02\x00\x00\x00\x00\x00\
            \x00\x00\x04\x00\x00\x00\x00\x00\x00\x00\x01\x00\x00\x00\x03\x02\x00\x00\
            \x00\x00\x00\x00\x00\x04\x00\x00\x00\x00",
        handler: 0,
        item: Item::Region(0, 1),
        at: 122,
        rule: Rule::V4,
    },
    // a call of a function without parameters that passes one
    Row {
        types: b"\x00\x00\x00\x00",
        result: 1,
        code: b"\x00\x00\x00\x03\x01\x00\x00\x00\x00\x00\x00\x00\x07\x26\x00\x00\x00\x00\
            \x00\x00\x00\x01\x27\x00\x00\x00\x00\x00\x00\x00\x00",
        regions: b"\x00\x00\x00\x00",
        handler: 0,
        item: Item::Instruction(0, 1),
        at: 52,
        rule: Rule::V5,
    },
    // no code
    Row {
        types: b"\x00\x00\x00\x00",
        result: 1,
        code: b"\x00\x00\x00\x00",
        regions: b"\x00\x00\x00\x00",
        handler: 0,
        item: Item::Count(0),
        at: 39,
        rule: Rule::V6,
    },
    // code that runs off its end
    Row {
        types: b"\x00\x00\x00\x00",
        result: 1,
        code: b"\x00\x00\x00\x01\x01\x00\x00\x00\x00\x00\x00\x00\x07",
        regions: b"\x00\x00\x00\x00",
        handler: 0,
        item: Item::Instruction(0, 0),
        at: 43,
        rule: Rule::V6,
    },
    // a resume where nothing is pending
    Row {
        types: b"\x00\x00\x00\x00",
        result: 1,
        code: b"\x00\x00\x00\x01\x35\x00\x00\x00\x00\x00\x00\x00\x00",
        regions: b"\x00\x00\x00\x00",
        handler: 0,
        item: Item::Instruction(0, 0),
        at: 43,
        rule: Rule::V6,
    },
    // a return from a Cleanup
    Row {
        types: b"\x00\x00\x00\x00",
        result: 1,
        code: b"\x00\x00\x00\x04\x01\x00\x00\x00\x00\x00\x00\x00\x07\x27\x00\x00\x00\x00\
            \x00\x00\x00\x00\x01\x00\x00\x00\x00\x00\x00\x00\x08\x27\x00\x00\x00\x00\
            \x00\x00\x00\x00",
        regions: b"\x00\x00\x00\x01\x00\x00\x00\x00\x00\x00\x00\x01\x01\x00\x00\x00\x00\x00\
            \x00\x00\x02\x00\x00\x00\x00",
        handler: 0,
        item: Item::Instruction(0, 3),
        at: 70,
        rule: Rule::V6,
    },
    // a place that is reached from a Cleanup and from the start
    Row {
        types: b"\x00\x00\x00\x00",
        result: 1,
        code: b"\x00\x00\x00\x02\x01\x00\x00\x00\x00\x00\x00\x00\x07\x27\x00\x00\x00\x00\
            \x00\x00\x00\x00",
        regions: b"\x00\x00\x00\x01\x00\x00\x00\x00\x00\x00\x00\x01\x01\x00\x00\x00\x00\x00\
            \x00\x00\x01\x00\x00\x00\x01",
        handler: 0,
        item: Item::Instruction(0, 1),
        at: 52,
        rule: Rule::V6,
    },
    // a type whose dropper takes nothing
    Row {
        types: b"\x00\x00\x00\x01\x00\x00\x00\x01E\x00\x00\x00\x01\x00\x00\x00\x01",
        result: 1,
        code: b"\x00\x00\x00\x02\x01\x00\x00\x00\x00\x00\x00\x00\x07\x27\x00\x00\x00\x00\
            \x00\x00\x00\x00",
        regions: b"\x00\x00\x00\x00",
        handler: 0,
        item: Item::Dropper(0),
        at: 22,
        rule: Rule::V7,
    },
    // a thrown type without a dropper
    Row {
        types: b"\x00\x00\x00\x01\x00\x00\x00\x01E\x00\x00\x00\x01\x00\x00\x00\x00",
        result: 1,
        code: b"\x00\x00\x00\x02\x03\x00\x00\x00\x00\x00\x00\x00\x00\x31\x00\x00\x00\x00\
            \x00\x00\x00\x00",
        regions: b"\x00\x00\x00\x00",
        handler: 0,
        item: Item::Dropper(0),
        at: 22,
        rule: Rule::V7,
    },
    // a first function without a result
    Row {
        types: b"\x00\x00\x00\x00",
        result: 0,
        code: b"\x00\x00\x00\x01\x27\x00\x00\x00\x00\x00\x00\x00\x00",
        regions: b"\x00\x00\x00\x00",
        handler: 0,
        item: Item::Main,
        at: 60,
        rule: Rule::V7,
    },
    // a handler that takes nothing
    Row {
        types: b"\x00\x00\x00\x00",
        result: 1,
        code: b"\x00\x00\x00\x02\x01\x00\x00\x00\x00\x00\x00\x00\x07\x27\x00\x00\x00\x00\
            \x00\x00\x00\x00",
        regions: b"\x00\x00\x00\x00",
        handler: 1,
        item: Item::Handler,
        at: 73,
        rule: Rule::V7,
    },
    // two instructions, of which the later breaks an earlier rule
    Row {
        types: b"\x00\x00\x00\x00",
        result: 1,
        code: b"\x00\x00\x00\x02\x23\x00\x00\x00\x05\x00\x00\x00\x00\x00\x00\x00\x00\x00\
            \x00\x00\x00\x00",
        regions: b"\x00\x00\x00\x00",
        handler: 0,
        item: Item::Instruction(0, 0),
        at: 43,
        rule: Rule::V2,
    },
];
