//! What a program prints of a book, and the status that it ends with.
//!
//! What it promises above: [`text`] is `text_of` of the book and of what is asked for (`specs/Lines.antt`): a line for
//! each command that has an answer, in file order, or one line of numbers in their place (`specs/Summary.antt`); then,
//! where they are asked for, the requests to plugins (`specs/Requests.antt`), the history and the host's objects; and
//! last what becomes of packets (`specs/Fates.antt`). [`status`] is `status_of` of the answers (`specs/Statuses.antt`).
//! Each line is one JSON object with its keys in byte order, ended by a line feed.
//!
//! ```text
//! let asked = Asked { commands: CommandPart::Lines, requests: Some(raws), trace: true, dump: false, packets };
//! text(alloc, &book, &asked)?      // {"n":1,"ok":true,"verb":"DEL"}
//!                                  // {"env":{"CNI_ARGS":"", ..},"n":1,"plugin":0,"request":{"cniVersion": ..}}
//!                                  // {"call":"CacheGet","i":1,"n":1,"reply":"Entry none"} ..
//!                                  // {"accepted":false,"dport":80,"dst":"10.88.0.2", ..,"packet":0,"rewritten":true}
//! status(&book)                    // 0
//! // with `CommandPart::Summary`   {"calls":1,"commands":1,"leases":0,"ok":1} ..
//! ```
#![tactic(auto)]

pub mod answers;
pub mod asked;
mod fates;
pub mod parts;
mod printable;
mod request_lines;
mod requests;
pub mod statuses;
mod summary;
mod told;

pub use answers::answer_value;
pub use asked::{Asked, CommandPart, SessionAsked};
pub use parts::text;
pub use statuses::{
    COMMAND_MEMORY_STATUS, FAILURE_STATUS, MEMORY_STATUS, NO_WORDS_STATUS, READ_STATUS,
    REFUSED_STATUS, SUCCESS_STATUS, USAGE_STATUS, WRITE_STATUS, status,
};
