//! The fields that image files and object files share, read and written.
#![tactic(auto)]

mod bounds;
mod fault;
mod parts;
mod rest;
mod writing;

pub use bounds::Bounds;
pub use fault::{BytesFault, ReadFault, Why};
pub use parts::{assertions_of, code_of, initial_of, regions_of, texts_of};
pub use rest::Rest;
pub use writing::{
    put_assertions, put_code, put_count, put_flag, put_initial, put_number, put_regions, put_text,
    put_texts,
};
