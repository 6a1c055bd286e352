//! The fields of records, and the state of a page, as bytes.
//!
//! Records and page images are made of the same fields: numbers under a rule, texts, values, what may be absent, and
//! lists. The model is that of `wal_record`: `specs/Spelling` says which bytes a field has, `specs/Reading` what reading
//! gives from left to right, up to the first field that is cut or breaks its rule. A fault is told as the number of
//! bytes left where that field begins, so that no reader has to know where it stands.
//!
//! What is promised: each reader gives what the definition's reading gives, or want of memory and nothing else; each
//! writer appends the definition's bytes. `proofs/Fields` joins fields to records: what is read is spelled so, what is
//! spelled is read again, and a fault lies within the bytes.
#![tactic(auto)]

mod fault;
mod field;
mod put;
mod rows;
mod state;
mod state_writing;

pub use fault::FieldFault;
pub use field::{
    argument_at, child_at, key_at, limit_at, lsn_or_none_at, maybe_value_at, new_value_at, next_at,
    number_at, page_at, page_count_at, u8_at, u16_at, u32_at, u32_in_front, u64_at, u64_in_front,
    value_at,
};
pub use put::{
    put_argument, put_key, put_maybe_value, put_u8, put_u16, put_u32, put_u64, put_value,
};
pub use state::state_at;
pub use state_writing::put_state;
