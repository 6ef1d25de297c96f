// Typed amounts: a cap as text, read and written.
//
// The definitions that the contracts cite are in specs/: Amount.antt says which cap a text names,
// Writing.antt which text a cap has. No public function has a `requires`.
#![tactic(auto)]

mod decimal;
mod digits;
mod error;
mod reader;
mod unit;
mod writer;

pub use decimal::write_decimal;
pub use error::AmountError;
pub use reader::read_amount;
pub use unit::ByteUnit;
pub use writer::write_amount;

// A cap is either no limit or a count of bytes, so a count of zero can never stand for no limit.
#[derive(Clone, Copy, Debug, PartialEq, Eq)]
pub enum Cap {
    Unlimited,
    Bytes(u64),
}

// The most bytes that a cap can count: 2^36.
pub const LIMIT: u64 = 68_719_476_736;

// The word for no limit.
const UNLIMITED: &[u8] = b"unlimited";
