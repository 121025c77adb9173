//! Owners as texts.

ghost use Rattle.std.specs.Prelude.{◌≡◌, IfOk, OnErr, OnOk};
ghost use Rattle.cni_json.specs.Members.{members_of};
ghost use Rattle.kernel_text.specs.Dump.{put_tag};
ghost use Rattle.kernel_text.specs.Texts.{attachment_text, tag_text};

use cni_addr::{NoMemory, Text};
use cni_json::JsonObject;
use kernel_types::{Att, Tag};
use std::alloc::Global;

/// The attachment as `NETWORK/CONTAINER/IFNAME`.
pub fn attachment_text(alloc: Global, att: &Att) -> Result<Text, NoMemory>
    ensures { IfOk result (λ text. text ≡ attachment_text att.now) }
{
    let network = att.network.as_str();
    let container = att.container.as_str();
    let ifname = att.ifname.as_str();
    Text::of(
        alloc,
        format!(in alloc; "{network}/{container}/{ifname}")?.as_str(),
    )
}

/// The owner as `outside`, `base` or `NETWORK/CONTAINER/IFNAME`.
pub fn tag_text(alloc: Global, tag: &Tag) -> Result<Text, NoMemory>
    ensures { IfOk result (λ text. text ≡ tag_text tag.now) }
{
    match tag {
        Tag::Outside => Text::of(alloc, "outside"),
        Tag::Base => Text::of(alloc, "base"),
        Tag::Own(att) => attachment_text(alloc, att),
    }
}

/// Puts the owner of an object.
pub fn put_tag(object: &mut JsonObject, alloc: Global, tag: &Tag) -> Result<(), NoMemory>
    ensures put { OnOk result (members_of object.new ≡ put_tag tag.now (members_of object.old)) }
    ensures unchanged { OnErr result (members_of object.new ≡ members_of object.old) }
{
    object.put("tag", &tag_text(alloc, tag)?)
}
