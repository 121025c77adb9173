//! What every network list and every plugin that is read keeps. The functions do nothing: what they ensure is the law,
//! and a proof above this crate gets it by calling the function, or by the lemma that its answer names.

ghost use Rattle.std.specs.Prelude.{◌≡◌, ℕ, List, Bool, Ok, Option, IsTrue};
ghost use Rattle.serde_json.specs.Data.{Data};
ghost use Rattle.cni_json.specs.WellFormed.{KeysAscend};
ghost use Rattle.net_conf.specs.Ipam.{read_ipam_at};
ghost use Rattle.net_conf.specs.List.{header_at, network_list_at, list_of};
ghost use Rattle.net_conf.specs.Names.{is_network_name};
ghost use Rattle.net_conf.specs.Plugin.{plugin_at, plugin_by_type_at, each_plugin_at, plugins_in};
ghost use Rattle.net_conf.specs.RuntimeKeys.{HaveSameKeys};
ghost use Rattle.net_conf.specs.WellFormed.{IsWellFormedList, IsWellFormedPlugin, IsWellFormedIpam};
ghost use Rattle.net_conf.specs.declared.first.HostLocalConf.{HostLocalConf};
ghost use Rattle.net_conf.specs.declared.list.ListHeader.{ListHeader};
ghost use Rattle.net_conf.specs.declared.list.NetList.{NetList};
ghost use Rattle.net_conf.specs.declared.plugin.Plugin.{Plugin};

/// A network list that is read is well formed: its names are in their grammars, an MTU passes
/// [`is_mtu`](crate::is_mtu), the ranges of all sets are apart and each is in order within its subnet, no destination
/// has host bits, each later type of plugin comes at most once, and so does each key of `sysctl`, which begins with
/// `net.`. Each object of its `plugins` is read by itself as the plugin in its place.
pub fn network_list_laws()
    ensures well_formed { (bytes : List ℕ) (list : NetList) → list_of bytes ≡ Ok list → IsWellFormedList list }
    ensures name { (d : Data) (header : ListHeader) → header_at d ≡ Ok header → IsTrue (is_network_name header.name) }
    ensures plugins { (d : Data) (list : NetList) → network_list_at d ≡ Ok list
        → each_plugin_at d ≡ Ok (plugins_in list.first list.chained) }
{}

/// A plugin that is read by itself is well formed, as is an `ipam`. One that is read in some place is read by its type
/// as the same, and objects that differ at nothing but the keys that a runtime replaces are read alike.
pub fn plugin_laws()
    ensures well_formed { (d : Data) (p : Plugin) → KeysAscend d → plugin_by_type_at d ≡ Ok p → IsWellFormedPlugin p }
    ensures ipam { (d : Data) (ipam : Option HostLocalConf) → read_ipam_at d ≡ Ok ipam → IsWellFormedIpam ipam }
    ensures place { (first : Bool) (d : Data) (p : Plugin) → plugin_at first d ≡ Ok p → plugin_by_type_at d ≡ Ok p }
    ensures alike { (first : Bool) (d e : Data) → HaveSameKeys d e → plugin_at first d ≡ plugin_at first e }
    ensures alike_by_type { (d e : Data) → HaveSameKeys d e → plugin_by_type_at d ≡ plugin_by_type_at e }
{}
