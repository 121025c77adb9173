//! Texts, seen as the lists of their bytes.

ghost use Rattle.std.specs.Prelude.{◌≡◌, ◌<◌, IfOk, length};
ghost use Rattle.cni_addr.specs.TextLaws as texts;

use crate::memory::{Duplicate, NoMemory};
use std::alloc::Global;
use std::cmp::Ordering;
use std::convert::AsStr;
use std::hash::{Hash, Hasher};
use std::marker::Model;
use std::sync::ArcStr;

/// A text in UTF-8, in the order of its bytes. Contracts see it as the list of its bytes.
///
/// It is one pointer to bytes that its copies share, since the history of a run holds millions of texts.
#[derive(Drop)]
pub struct Text {
    text: ArcStr,
}

impl Model for Text {
    ghost use Rattle.std.specs.Prelude.{List, ℕ};
    ghost use Rattle.std.specs.Arc.{arc_str_bytes};

    ghost Value = { List ℕ };

    ghost view = { λ t. arc_str_bytes t.text };
}

impl Text {
    /// The text, in memory of its own.
    pub fn of(alloc: Global, text: &str) -> Result<Text, NoMemory>
        ensures { IfOk result (λ t. t ≡ text.now) }
    {
        Ok(Text {
            text: ArcStr::from_str(alloc, text)?,
        })
    }

    /// The text as it is read. Takes no memory.
    pub fn as_str(&self) -> &str
        ensures { result.now ≡ self.now }
    {
        self.text.as_str()
    }
}

impl Duplicate for Text {
    fn copy(&self) -> Result<Text, NoMemory> {
        Ok(Text {
            text: self.text.clone()?,
        })
    }
}

impl PartialEq for Text {
    ghost use Rattle.std.specs.Str.{bytes_eq};
    ghost use Rattle.std.specs.Cmp.{partial_equiv_from_equiv};
    ghost use Rattle.std.specs.Cmp.Lexicographic.{nat_list_eq_equiv};

    ghost eq = { bytes_eq };

    ghost laws = { partial_equiv_from_equiv nat_list_eq_equiv };

    fn eq(&self, other: &Text) -> bool {
        self.as_str() == other.as_str()
    }
}

impl Eq for Text {
    ghost use Rattle.std.specs.Cmp.Lexicographic.{nat_list_eq_equiv};

    ghost laws = { nat_list_eq_equiv };
}

impl PartialOrd for Text {
    ghost use Rattle.std.specs.Prelude.{Some};
    ghost use Rattle.std.specs.Ordering.{nat_cmp};
    ghost use Rattle.std.specs.Cmp.Lexicographic.{slice_cmp, texts_po};

    ghost partial_cmp = { λ x y. Some (slice_cmp nat_cmp x y) };

    ghost laws = { texts_po };

    fn partial_cmp(&self, other: &Text) -> Option<Ordering> {
        Some(self.cmp(other))
    }
}

impl Ord for Text {
    ghost use Rattle.std.specs.Ordering.{nat_cmp};
    ghost use Rattle.std.specs.Cmp.Lexicographic.{slice_cmp, nat_list_cmp_total, texts_ties};
    ghost use Rattle.std.proofs.Common.{refl};

    ghost cmp = { slice_cmp nat_cmp };

    ghost total = { nat_list_cmp_total };

    ghost matches_partial_cmp = { λ x y. refl };

    ghost matches_eq = { texts_ties };

    fn cmp(&self, other: &Text) -> Ordering {
        self.as_str().cmp(other.as_str())
    }
}

impl AsStr for Text {
    ghost text = { λ t. t };

    fn as_str(&self) -> &str {
        self.text.as_str()
    }
}

/// Fewer than eight bytes as one word, the first the highest, behind a mark that tells how many they are and is no byte
/// of UTF-8.
#[tactic(auto, unfolding(crate::specs::TextLaws::last_word))]
pub fn last_word(bytes: &[u8]) -> u64
    requires { length bytes.now < 8 }
    ensures { result ≡ texts.last_word bytes.now }
{
    bytes.iter().fold(
        0xf8 + bytes.len() as u64,
        |word: u64, byte: &u8| word << 8 | *byte as u64,
    )
}

impl Hash for Text {
    ghost use Rattle.cni_addr.specs.TextLaws.{closed_write, write-respects_eq};

    ghost hash_input = { closed_write };

    ghost respects_eq = { write-respects_eq };

    // Words of eight bytes, since std's derived way feeds a hasher byte by byte. The last one has a mark that stands in
    // no text, so that what is hashed of several texts tells where each ends.
    fn hash<H: Hasher>(&self, state: &mut H) {
        let bytes = self.as_str().as_bytes();
        let (words, rest) = bytes.split_at(bytes.len() / 8 * 8);
        state.write(words);
        state.write_u64(last_word(rest));
    }
}
