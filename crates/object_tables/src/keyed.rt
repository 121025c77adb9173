//! The hasher of the tables, which has a key.

ghost use Rattle.std.specs.Prelude.{◌≡◌, ◌<◌, length};
ghost use Rattle.object_tables.specs.Keyed as sip;

use cni_addr::last_word;
use indexmap::IndexMap;
use std::hash::{BuildHasher, Hasher};

/// SipHash-1-3 (Aumasson and Bernstein, 2012), which takes each write in as words of its own: eight bytes a word, and
/// what is left of it behind a mark that is no byte of UTF-8. So a number is a word, and nothing is put together byte
/// by byte. Keys of texts and numbers that differ are different words, since a text's last word has such a mark.
#[derive(Clone, Copy)]
pub struct KeyedHasher {
    v0: u64,
    v1: u64,
    v2: u64,
    v3: u64,
}

impl KeyedHasher {
    fn initial() -> KeyedHasher
        ensures { result ≡ sip.initial }
    {
        KeyedHasher {
            v0: 0x736f_6d65_7073_6575,
            v1: 0x646f_7261_6e64_6f6d,
            v2: 0x6c79_6765_6e65_7261,
            v3: 0x7465_6462_7974_6573,
        }
    }

    #[tactic(auto, unfolding(crate::specs::Keyed::round))]
    fn round(&mut self)
        ensures { self.new ≡ sip.round self.old }
    {
        self.v0 = self.v0.wrapping_add(self.v1);
        self.v2 = self.v2.wrapping_add(self.v3);
        self.v1 = self.v1.rotate_left(13) ^ self.v0;
        self.v3 = self.v3.rotate_left(16) ^ self.v2;
        self.v0 = self.v0.rotate_left(32);
        self.v2 = self.v2.wrapping_add(self.v1);
        self.v0 = self.v0.wrapping_add(self.v3);
        self.v1 = self.v1.rotate_left(17) ^ self.v2;
        self.v3 = self.v3.rotate_left(21) ^ self.v0;
        self.v2 = self.v2.rotate_left(32);
    }

    #[tactic(auto, unfolding(crate::specs::Keyed::write_word))]
    fn write_word(&mut self, word: u64)
        ensures { self.new ≡ sip.write_word self.old word }
    {
        self.v3 ^= word;
        self.round();
        self.v0 ^= word;
    }

    fn write_rest(&mut self, rest: &[u8])
        requires { length rest.now < 8 }
        ensures { self.new ≡ sip.write_rest self.old rest.now }
    {
        if !rest.is_empty() {
            self.write_word(last_word(rest));
        }
    }
}

impl Hasher for KeyedHasher {
    ghost write = { sip.write };

    ghost finish = { sip.finish };

    fn write(&mut self, bytes: &[u8]) {
        let (words, rest) = bytes.as_chunks::<8>();
        for word in words {
            self.write_word(u64::from_le_bytes(*word));
        }
        self.write_rest(rest);
    }

    #[tactic(auto, unfolding(crate::specs::Keyed::write, cni_addr::specs::TextLaws::last_word))]
    fn write_u8(&mut self, i: u8) {
        self.write_word(0xf900 | i as u64);
    }

    fn write_u64(&mut self, i: u64) {
        self.write_word(i);
    }

    fn write_usize(&mut self, i: usize) {
        self.write_word(i as u64);
    }

    #[tactic(auto, unfolding(crate::specs::Keyed::finish))]
    fn finish(&self) -> u64 {
        let mut last = *self;
        last.v2 ^= 0xff;
        last.round();
        last.round();
        last.round();
        last.v0 ^ last.v1 ^ last.v2 ^ last.v3
    }
}

/// Makes the hasher of each look-up: one that has taken a key in, and is copied.
#[derive(Clone, Copy)]
pub struct KeyedState {
    pub keyed: KeyedHasher,
}

impl KeyedState {
    /// The hasher under this key. Where the key is a digest of all that rows will be found by, nobody can pick these so
    /// that they collide.
    pub fn of(digest: &[u8; 32]) -> KeyedState
        ensures { result.keyed ≡ sip.write sip.initial digest.now }
    {
        let mut keyed = KeyedHasher::initial();
        keyed.write(digest);
        KeyedState { keyed }
    }
}

impl BuildHasher for KeyedState {
    type Hasher = KeyedHasher;

    ghost build_hasher = { λ state. state.keyed };

    fn build_hasher(&self) -> KeyedHasher {
        self.keyed
    }
}

/// A map under the keyed hasher.
pub type KeyedMap<K, V> = IndexMap<K, V, KeyedState>;
