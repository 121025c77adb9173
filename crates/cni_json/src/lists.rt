//! Lists of members, each read up to the first refusal.

ghost use Rattle.std.specs.Prelude.{ℕ, List, Result, Err};
ghost use Rattle.serde_json.specs.Data.{Data};
ghost use Rattle.serde_json.specs.View.{view, items_view};
ghost use Rattle.cni_json.specs.Each.{each, each_after, each_from, list_or};
ghost use Rattle.cni_json.specs.Fields.{list_field};
ghost use Rattle.cni_json.specs.Outcome.{Gives};
ghost use Rattle.cni_json.specs.Readers.{IsPlacedReader, IsReader, IsReaderAfter, IsRefusal, MayReadEach};

use crate::fields::{Field, field_list};
use crate::refusal::Refusal;
use cni_addr::Items;
use serde_json::Value;
use std::alloc::Global;

/// The members in order, each as the function reads it, up to the first refusal. A function whose calls give as
/// `wanted` wants reads the list as `each wanted` wants.
#[tactic(auto, using(crate::proofs::Steps::lists))]
pub fn read_each<T: Drop, E: Refusal, R: Fn(&Value) -> Result<T, E>>(
    alloc: Global,
    list: &[Value],
    read: R,
) -> Result<Items<T>, E>
    requires { R.IsAlwaysCallable read }
    ensures { (wanted : Data → Result T E) → IsReader E.is_out_of_memory R.Fn read wanted
        → Gives E.is_out_of_memory result (each wanted (items_view list.now)) }
{
    read_each_after(Items::new(alloc), list, |_, member| read(member))
}

/// The same as [`read_each`], by a function that takes the member's place from 0 too: it reads the list as
/// `each_from wanted 0` wants.
#[tactic(auto, using(crate::proofs::Steps::lists))]
pub fn read_each_placed<T: Drop, E: Refusal, R: Fn(usize, &Value) -> Result<T, E>>(
    alloc: Global,
    list: &[Value],
    read: R,
) -> Result<Items<T>, E>
    requires { R.IsAlwaysCallable read }
    ensures { (wanted : ℕ → Data → Result T E) → IsPlacedReader E.is_out_of_memory R.Fn read wanted
        → Gives E.is_out_of_memory result (each_from wanted 0 (items_view list.now)) }
{
    read_each_after(
        Items::new(alloc),
        list,
        |before, member| read(before.len(), member),
    )
}

/// The items that are there already, and then the members in order, each as the function reads it after all that stand
/// before it: it reads the list as `each_after wanted before` wants.
#[tactic(auto, using(crate::proofs::Steps::steps))]
pub fn read_each_after<T: Drop, E: Refusal, R: Fn(&[T], &Value) -> Result<T, E>>(
    before: Items<T>,
    list: &[Value],
    read: R,
) -> Result<Items<T>, E>
    requires { MayReadEach R.Fn read list.now }
    ensures { (wanted : List T → Data → Result T E) → IsReaderAfter E.is_out_of_memory R.Fn read wanted
        → Gives E.is_out_of_memory result (each_after wanted before (items_view list.now)) }
{
    let mut found = before;
    for member in list {
        let next = read(found.as_slice(), member)?;
        found.push(next)?;
    }
    Ok(found)
}

/// The list under the key as [`read_each`] reads it. It is empty where there is none, and a member of another kind is
/// refused.
#[tactic(auto, using(crate::proofs::Steps::steps))]
pub fn read_list_or<T: Drop, E: Refusal, W: FnOnce() -> E, R: Fn(&Value) -> Result<T, E>>(
    alloc: Global,
    object: &Value,
    key: &str,
    refusal: W,
    read: R,
) -> Result<Items<T>, E>
    requires refuses { W.IsAlwaysCallable refusal }
    requires reads { R.IsAlwaysCallable read }
    ensures { (wrong : E) → IsRefusal E.is_out_of_memory W.FnOnce refusal wrong
        → (wanted : Data → Result T E) → IsReader E.is_out_of_memory R.Fn read wanted
        → Gives E.is_out_of_memory result
        (list_or (Err wrong) wanted (list_field key.now (view object.now))) }
{
    match field_list(object, key) {
        Field::Absent => Ok(Items::new(alloc)),
        Field::WrongKind => Err(refusal()),
        Field::Here(list) => read_each(alloc, list, read),
    }
}
