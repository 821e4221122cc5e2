// What a caller gets back and what it asks with: refusals, answers, settings, places and paths.
// A NaN's pattern has a case of its own, because the language gives a float no NaN payload.
#![tactic(auto)]

pub mod floats;
pub mod paths;
pub mod refusals;
pub mod settings;

// Why a call has no result. The place of a fault counts from the row's first byte.
#[derive(Clone, Copy, Debug, PartialEq, Eq)]
pub enum Refusal {
    Schema,
    Listing,
    TooLong,
    Room { needed: usize },
    NoPlace,
    NullBefore,
    Layout { place: usize },
    Unfit,
    Resize,
    Batch,
    Log,
    Full,
    NoNumber,
}

// Ranges count from the root row's first byte.
#[derive(Clone, Copy)]
pub enum Answer {
    Null,
    Bool(bool),
    Number(i64),
    Float32(f32),
    Float32Nan(u32),
    Float64(f64),
    Float64Nan(u64),
    Bytes {
        start: usize,
        len: usize,
    },
    Container {
        start: usize,
        len: usize,
        count: usize,
    },
}

// The bytes of a setting lie beside it, as a slice.
#[derive(Clone, Copy)]
pub enum Setting {
    Null,
    Bool(bool),
    Number(i64),
    Float32(f32),
    Float32Nan(u32),
    Float64(f64),
    Float64Nan(u64),
    Bytes,
}

// A setting with each float as its bits.
#[derive(Clone, Copy)]
pub enum Given {
    Null,
    Bool(bool),
    Number(i64),
    Float32(u32),
    Float64(u64),
    Bytes,
}

// Where a row or a schema lies in lent bytes.
#[derive(Clone, Copy)]
pub struct Span {
    pub start: usize,
    pub end: usize,
}

// Numbers past the length play no part.
#[derive(Clone, Copy)]
pub struct Path {
    pub steps: [u32; 16],
    pub len: usize,
}
