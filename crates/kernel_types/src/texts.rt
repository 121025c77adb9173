//! Kinds of links and tables of packet rules by their names.

ghost use Rattle.std.specs.Prelude.{◌≡◌, Some};
ghost use Rattle.kernel_types.specs.Texts.{link_kind_text, table_text, table_named};

use crate::object::LinkKind;
use crate::rule::Table;

impl Table {
    /// Every table once.
    pub const ALL: [Table; 2] = [Table::Nat, Table::Filter];
}

/// What the link is. Takes no memory.
pub fn link_kind_text(kind: LinkKind) -> &'static str
    ensures { result.now ≡ link_kind_text kind }
{
    match kind {
        LinkKind::Device => "device",
        LinkKind::Bridge => "bridge",
        LinkKind::Veth => "veth",
        LinkKind::Macvlan(_) => "macvlan",
        LinkKind::Dummy => "dummy",
        LinkKind::Vlan { .. } => "vlan",
    }
}

/// The table as iptables names it. Takes no memory.
pub fn table_text(table: Table) -> &'static str
    ensures text { result.now ≡ table_text table }
    ensures named_again { table_named (table_text table) ≡ Some table }
{
    match table {
        Table::Nat => "nat",
        Table::Filter => "filter",
    }
}

/// The table that the text names. Takes no memory.
pub fn table_named(text: &str) -> Option<Table>
    ensures { result ≡ table_named text.now }
{
    Table::ALL
        .iter()
        .copied()
        .find(|table| text == table_text(*table))
}
