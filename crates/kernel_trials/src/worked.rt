//! A derived hardware address, worked out.

ghost use Rattle.std.specs.Prelude.{◌≡◌, [], ◌∷◌, codes};
ghost use Rattle.link_names.specs.Names.{link_mac_of};

/// A bridge named `abc` has the address `0a:ba:78:16:bf:8f`: `0a` and the first five bytes of the digest of `abc`,
/// which FIPS 180-4 gives as its first example.
#[tactic(auto, using(crate::proofs::WorkedMacs::mac_of_abc))]
pub fn the_mac_of_abc()
    ensures { link_mac_of (codes "abc") ≡ record { bytes = 0x0a ∷ 0xba ∷ 0x78 ∷ 0x16 ∷ 0xbf ∷ 0x8f ∷ [] } }
{}
