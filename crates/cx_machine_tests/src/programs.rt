#![tactic(auto, unfolding(crate::specs::Checked::is_valid, cx_code::specs::Operation::operation_of, cx_code::specs::Spelling::image_spelling, cx_code::specs::Spelling::number))]

use crate::images::{Part, valid};
use cx_code::{Instruction, Region};
use cx_image::Valid;
use cx_outside::NoMemory;
use std::alloc::Global;

/// `main` with these, beside a function that returns at once.
macro_rules! alone {
    ($alloc:ident, $code:expr, $regions:expr) => {
        beside!($alloc, $code, $regions, 0, 0, false, code![39 0 0], &[], 0, 2)
    };
}

/// `main` with these, and function 2 with its parameters, slots, result, code and regions; then the handler and the
/// dropper of type 1, each as an index plus 1.
macro_rules! beside {
    ($alloc:ident, $code:expr, $regions:expr, $parameters:literal, $slots:literal, $result:literal, $last:expr, $inner:expr, $handler:literal, $other:literal) => {
        valid(
            $alloc,
            Part { parameters: 0, slots: 3, result: true, code: $code, regions: $regions },
            Part { parameters: $parameters, slots: $slots, result: $result, code: $last, regions: $inner },
            $handler,
            $other,
        )
    };
}

/// Counts to 100 in an object.
pub fn counting(alloc: Global) -> Result<Valid, NoMemory> {
    alone!(
        alloc,
        code![9 1 0, 7 0 0, 1 0 0, 12 0 0, 7 0 0, 11 0 0, 1 0 100, 30 0 0, 36 16 0, 7 0 0, 7 0 0, 11 0 0, 1 0 1, 18 3 0, 12 0 0, 35 4 0, 7 0 0, 11 0 0, 39 0 0],
        &[]
    )
}

/// A call, with 3, of a function that calls itself until its argument is 0, and adds up.
pub fn sum_of_3(alloc: Global) -> Result<Valid, NoMemory> {
    beside!(
        alloc,
        code![1 0 3, 38 2 1, 39 0 0],
        &[],
        1,
        1,
        true,
        code![7 0 0, 36 9 0, 7 0 0, 7 0 0, 1 0 1, 19 3 0, 38 2 1, 18 3 0, 39 0 0, 1 0 0, 39 0 0],
        &[],
        0,
        2
    )
}

/// The same with 4,094: the last call makes the 4,096th frame.
pub fn deep(alloc: Global) -> Result<Valid, NoMemory> {
    beside!(
        alloc,
        code![1 0 4094, 38 2 1, 39 0 0],
        &[],
        1,
        1,
        true,
        code![7 0 0, 36 7 0, 7 0 0, 1 0 1, 19 3 0, 38 2 1, 39 0 0, 1 0 0, 39 0 0],
        &[],
        0,
        2
    )
}

/// The same with 4,095.
pub fn too_deep(alloc: Global) -> Result<Valid, NoMemory> {
    beside!(
        alloc,
        code![1 0 4095, 38 2 1, 39 0 0],
        &[],
        1,
        1,
        true,
        code![7 0 0, 36 7 0, 7 0 0, 1 0 1, 19 3 0, 38 2 1, 39 0 0, 1 0 0, 39 0 0],
        &[],
        0,
        2
    )
}

/// Jumps to itself.
pub fn forever(alloc: Global) -> Result<Valid, NoMemory> {
    alone!(alloc, code![35 0 0], &[])
}

/// Writes the byte that it reads.
pub fn echo(alloc: Global) -> Result<Valid, NoMemory> {
    alone!(alloc, code![42 0 0, 41 0 0, 39 0 0], &[])
}

/// A violation that the default handler reports.
pub fn violation(alloc: Global) -> Result<Valid, NoMemory> {
    alone!(alloc, code![46 0 10, 1 0 5, 39 0 0], &[])
}

/// Two violations that the default handler reports.
pub fn violated_twice(alloc: Global) -> Result<Valid, NoMemory> {
    alone!(alloc, code![46 0 10, 46 0 11, 1 0 5, 39 0 0], &[])
}

/// Writes a byte, meets a violation that the default handler reports, and writes another byte.
pub fn speaking(alloc: Global) -> Result<Valid, NoMemory> {
    alone!(
        alloc,
        code![1 0 65, 41 0 0, 5 0 0, 46 0 10, 1 0 66, 41 0 0, 39 0 0],
        &[]
    )
}

/// A violation whose handler writes all its fields.
pub fn handled(alloc: Global) -> Result<Valid, NoMemory> {
    beside!(
        alloc,
        code![46 0 10, 1 0 5, 39 0 0],
        &[],
        1,
        1,
        false,
        code![7 0 0, 47 1 0, 41 0 0, 5 0 0, 7 0 0, 47 2 0, 41 0 0, 5 0 0, 7 0 0, 47 3 0, 41 0 0, 5 0 0, 7 0 0, 47 4 0, 41 0 0, 5 0 0, 7 0 0, 47 5 0, 41 0 0, 5 0 0, 7 0 0, 47 6 0, 41 0 0, 5 0 0, 39 0 0],
        &[],
        3,
        2
    )
}

/// An exception is thrown three frames up, cleaned up after in two of them, and caught in `main`.
pub fn through_frames(alloc: Global) -> Result<Valid, NoMemory> {
    beside!(
        alloc,
        code![1 0 2, 38 2 1, 1 0 1, 39 0 0, 52 0 0, 1 0 2, 39 0 0],
        regions![1 2 2 1 4 0],
        1,
        2,
        false,
        code![7 0 0, 36 7 0, 7 0 0, 1 0 1, 19 3 0, 38 2 1, 39 0 0, 9 1 1, 7 1 0, 49 0 0, 7 0 0, 41 0 0, 5 0 0, 53 0 0],
        regions![5 6 1 0 10 0],
        0,
        2
    )
}

/// An exception is caught, rethrown, pending while it is released, caught again and released.
pub fn rethrown(alloc: Global) -> Result<Valid, NoMemory> {
    alone!(
        alloc,
        code![9 1 0, 7 0 0, 49 0 0, 50 0 0, 52 0 0, 53 0 0, 52 0 0, 1 0 3, 39 0 0],
        regions![2 3 2 0 3 0, 3 4 1 0 4 0, 3 6 2 0 6 0]
    )
}

/// A dropper throws to the release that called it.
pub fn dropper_throws(alloc: Global) -> Result<Valid, NoMemory> {
    beside!(
        alloc,
        code![9 1 0, 7 0 0, 49 1 0, 52 0 0, 1 0 1, 39 0 0, 52 0 0, 1 0 2, 39 0 0],
        regions![2 3 2 2 3 0, 3 4 2 1 6 0],
        1,
        2,
        false,
        code![9 1 1, 7 1 0, 49 0 0],
        &[],
        0,
        3
    )
}

/// An exception meets a barrier.
pub fn barred(alloc: Global) -> Result<Valid, NoMemory> {
    alone!(
        alloc,
        code![9 1 0, 7 0 0, 49 0 0, 1 0 1, 39 0 0],
        regions![2 3 4 0 3 0, 2 3 3 0 3 0]
    )
}

/// An exception meets a guard, and what is held is kept.
pub fn guarded(alloc: Global) -> Result<Valid, NoMemory> {
    alone!(
        alloc,
        code![9 1 0, 7 0 0, 49 0 0, 51 0 0, 11 0 0, 39 0 0],
        regions![2 3 3 0 3 0]
    )
}
