// Reading a ticket: the certificate of one layer's matrix product, with both operands and the quotients and remainders that the
// reader claims. Every call takes every value of its parameters; the rules that the contracts cite are in specs/Rules.antt.
#![tactic(auto)]

mod decode;
mod parts;
mod published;
mod records;
mod refusals;
mod setting;

pub use decode::{lifted_claims, narrow_entries, shifted_entries, subtract_entries};
pub use parts::{RECORD, part, value, word};
pub use published::{BiasSetting, PlainSetting};
pub use records::read;
pub use refusals::{Reason, Refusal};
pub use setting::{PartNumber, Setting};

// What a call says: a number of the published table (0: nothing is wrong), its place, and for a caught ticket, one that Freivalds'
// check rejects, the row. The products made are counted where a ticket is accepted, caught or written, and at an untrue claim.
#[repr(C)]
#[derive(Clone, Copy)]
pub struct Answer {
    pub number: u32,
    pub place: u32,
    pub row: u32,
    pub products: u32,
}

impl Answer {
    // nothing is wrong, and no product was made
    pub const PASSED: Answer = Answer {
        number: 0,
        place: 0,
        row: 0,
        products: 0,
    };
}
