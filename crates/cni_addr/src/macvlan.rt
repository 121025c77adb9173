//! The modes of a macvlan link, and their names.

ghost use Rattle.std.specs.Prelude.{◌≡◌, Some};
ghost use Rattle.cni_addr.specs.Modes.{mode_text, mode_named};

/// How macvlan links of one master reach each other (the `mode` of the `macvlan` plugin).
#[derive(Clone, Copy, Debug)]
pub enum MacvlanMode {
    Bridge,
    Private,
    Vepa,
    Passthru,
}

impl MacvlanMode {
    /// Every mode once.
    pub const ALL: [MacvlanMode; 4] = [
        MacvlanMode::Bridge,
        MacvlanMode::Private,
        MacvlanMode::Vepa,
        MacvlanMode::Passthru,
    ];
}

/// The mode as the `macvlan` plugin is configured with it. Takes no memory.
pub fn mode_text(mode: MacvlanMode) -> &'static str
    ensures text { result.now ≡ mode_text mode }
    ensures named_again { mode_named (mode_text mode) ≡ Some mode }
{
    match mode {
        MacvlanMode::Bridge => "bridge",
        MacvlanMode::Private => "private",
        MacvlanMode::Vepa => "vepa",
        MacvlanMode::Passthru => "passthru",
    }
}

/// The mode that the text names. Takes no memory.
pub fn mode_named(text: &str) -> Option<MacvlanMode>
    ensures { result ≡ mode_named text.now }
{
    MacvlanMode::ALL
        .iter()
        .copied()
        .find(|mode| text == mode_text(*mode))
}

impl PartialEq for MacvlanMode {
    ghost use Rattle.std.specs.Cmp.{partial_equiv_from_equiv, on_equiv, nat_eq_equiv};
    ghost use Rattle.cni_addr.specs.Codes.{mode_eq, mode_code};

    ghost eq = { mode_eq };

    ghost laws = { partial_equiv_from_equiv (on_equiv mode_code nat_eq_equiv) };

    fn eq(&self, other: &MacvlanMode) -> bool {
        *self as u8 == *other as u8
    }
}

impl Eq for MacvlanMode {
    ghost use Rattle.std.specs.Cmp.{on_equiv, nat_eq_equiv};
    ghost use Rattle.cni_addr.specs.Codes.{mode_code};

    ghost laws = { on_equiv mode_code nat_eq_equiv };
}
