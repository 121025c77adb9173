//! What a bridge is to the containers on it, and how its ports take frames.

ghost use Rattle.std.specs.Prelude.{◌≡◌};
ghost use Rattle.net_conf.specs.BridgeModes as defined;

/// Which addresses and default routes the `bridge` plugin adds for its containers (its keys `isGateway` and
/// `isDefaultGateway`).
#[derive(Clone, Copy, Debug, PartialEq, Eq)]
pub enum GatewayRole {
    /// Neither key is set: the bridge gets no address, and no default route is added.
    None,
    /// `isGateway` alone is set: the bridge gets the gateways' addresses, and the host forwards.
    Gateway,
    /// `isDefaultGateway` is set, which asks for all that `isGateway` asks for, whatever that key says: besides, the
    /// containers get each family's default route by its first gateway, unless one of that family is configured.
    DefaultGateway,
}

impl GatewayRole {
    /// Whether the bridge gets the gateways' addresses. Takes no memory.
    pub fn is_gateway(self) -> bool
        ensures { result ≡ defined.is_gateway self }
    {
        match self {
            GatewayRole::None => false,
            GatewayRole::Gateway | GatewayRole::DefaultGateway => true,
        }
    }

    /// Whether the containers get default routes by the gateways. Takes no memory.
    pub fn is_default(self) -> bool
        ensures { result ≡ defined.is_default self }
    {
        match self {
            GatewayRole::DefaultGateway => true,
            GatewayRole::None | GatewayRole::Gateway => false,
        }
    }
}

/// How a frame reaches the port that it came from (the keys `hairpinMode` and `promiscMode` of the `bridge` plugin,
/// which aren't set together).
#[derive(Clone, Copy, Debug, PartialEq, Eq)]
pub enum BridgeMode {
    /// Neither key is set: a port doesn't get its own frames back.
    Plain,
    /// `hairpinMode`: the container's port on the bridge gets its own frames back.
    Hairpin,
    /// `promiscMode`: the bridge itself takes every frame.
    Promisc,
}

impl BridgeMode {
    /// Whether the container's port sends frames back where they came from. Takes no memory.
    pub fn hairpin(self) -> bool
        ensures { result ≡ defined.hairpin self }
    {
        match self {
            BridgeMode::Hairpin => true,
            BridgeMode::Plain | BridgeMode::Promisc => false,
        }
    }

    /// Whether the bridge is promiscuous. Takes no memory.
    pub fn promisc(self) -> bool
        ensures { result ≡ defined.promisc self }
    {
        match self {
            BridgeMode::Promisc => true,
            BridgeMode::Plain | BridgeMode::Hairpin => false,
        }
    }
}
