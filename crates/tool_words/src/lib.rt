//! The words of the program `cnitool`: options, flags, and a pod file with network lists, generated pods, or a session
//! file.
//!
//! What it promises above: [`read_words`] gives exactly what the definition `words_given` (`specs/Words.antt`) says of
//! the words, and refuses exactly the words that it doesn't take. What clap takes is clap's own definition, on the
//! command that `specs/Command.antt` writes out.
//!
//! ```text
//! // --trace pods.json net.json
//! let words = read_words(alloc, words)?;
//! words.threads         // 1, since --threads isn't given
//! words.trace           // true
//! words.source          // Source::Files(..), with the pods' file "pods.json" and the list "net.json"
//! // gen:10: Source::Generated { count: 10, stop_at: None }
//! // reg:vlan.json: Source::Session { file: "vlan.json" }
//! // --threads 17 pods.json, gen:010, gen:10 --requests: Err(WordsEnd::Usage)
//! ```
#![tactic(auto)]

mod command;
mod parse;
pub mod source;
pub mod words;

pub use source::{Named, Source};
pub use words::{Words, WordsEnd, read_words};
