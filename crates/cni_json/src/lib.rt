//! JSON texts (RFC 8259) as values, the members of an object by their kind, objects that are built, and a value as a
//! line.
//!
//! The reading and the text are `serde_json`'s. This crate adds what each reader of configuration
//! asks besides: each number of a value is a `u64` or an `i64`, and a member that is null is as an
//! absent one (`member`). To the crates above it promises:
//!
//! - `read` gives `json_of` of the bytes, in both directions: `Decode` exactly where they have no
//!   reading, and `Number` exactly where a number of the reading is neither a `u64` nor an `i64`.
//! - `field_str` and its kin give `text_field` and its kin of the value, and take no memory.
//! - `read_each` gives `each` of what its function gives of a member, up to the first refusal; `read_each_placed` gives
//!   `each_from` of a function that is given the member's place too, and `read_each_after` gives `each_after` of one
//!   that is given what stands before the member. `read_list_or` gives `list_or` of the list under a key, and
//!   `need_object` `object_or` of a value.
//! - An object that `JsonObject` builds has the members that were put into it, in ascending byte order of their keys.
//!   `members_where` begins one with the members of a value whose keys pass a test.
//! - `line` writes `line_of` of the value, and `line_text` gives it as a text.
//! - What a line was written for is what it is read as (`a_line_is_read_again`), and the keys of
//!   each object that is read ascend (`keys_ascend`).
//!
//! Each of these terms is a definition in `specs/` that computes on literals, under `unfolding cni_json_on_literals`.
//! `Gives` of `specs/Outcome.antt` says that an outcome is the defined one or out of memory. Each enum of errors can
//! use it, by its own test of which of its errors mean out of memory, which [`Refusal`] has for readers that serve any
//! of them.
//!
//! ```text
//! let list = read(alloc, b"{\"name\":\"pods\",\"mtu\":1500,\"dns\":null}")?;
//! field_str(&list, "name")   // Field::Here("pods")
//! field_u64(&list, "name")   // Field::WrongKind
//! field_u64(&list, "mtu")    // Field::Here(1500)
//! field_object(&list, "dns") // Field::Absent
//! line(alloc, &list)?        // {"dns":null,"mtu":1500,"name":"pods"} and a line feed
//! ```
#![tactic(auto)]

mod fields;
mod laws;
mod lists;
mod members;
mod reading;
mod refusal;
mod writing;

pub use fields::{
    Field, field_bool, field_list, field_object, field_str, field_u32, field_u64, member,
    need_object, u32_of,
};
pub use laws::{a_line_feed_is_space, a_line_is_read_again, keys_ascend};
pub use lists::{read_each, read_each_after, read_each_placed, read_list_or};
pub use members::{JsonObject, ToJson, list_value, members_where};
pub use reading::{ReadEnd, read};
pub use refusal::Refusal;
pub use serde_json::{Map, Value};
pub use writing::{line, line_text};
