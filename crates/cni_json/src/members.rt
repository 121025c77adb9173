//! JSON objects that are built member by member (RFC 8259, section 4).

ghost use Rattle.std.specs.Prelude.{◌≡◌, ℕ, List, Bool, OnErr, OnOk, IfOk};
ghost use Rattle.serde_json.specs.Data.{Data, boolean, object, no_members, put as with_member};
ghost use Rattle.serde_json.specs.View.{view, members_view};
ghost use Rattle.cni_json.specs.Members.{members_in, members_of, members_where, text_data, number_data, addr_data};
ghost use Rattle.cni_json.specs.Members.{cidr_data, mac_data, list_data, put_if, put_if_true, put_text_unless_empty};
ghost use Rattle.cni_json.specs.Members.{put_list_unless_empty, put_object_unless_empty};
ghost use Rattle.cni_json.specs.Readers.{IsKeyTest};

use cni_addr::{Addr, Cidr, Mac, NoMemory, Text, write_addr, write_cidr, write_mac};
use serde_json::{Map, Value, put};
use std::alloc::Global;

/// A value that is printed as JSON.
pub trait ToJson {
    /// What is printed.
    ghost json: { Self → Data };

    /// The value as JSON. It takes time and memory in proportion to the value.
    fn to_json(&self, alloc: Global) -> Result<Value, NoMemory>
        ensures { IfOk result (λ v. view v ≡ json self.now) };
}

impl ToJson for Text {
    ghost json = { text_data };

    fn to_json(&self, alloc: Global) -> Result<Value, NoMemory> {
        Ok(Value::try_from_str(alloc, self.as_str())?)
    }
}

impl ToJson for u16 {
    ghost json = { number_data };

    fn to_json(&self, _alloc: Global) -> Result<Value, NoMemory> {
        Ok(Value::from(*self))
    }
}

impl ToJson for u32 {
    ghost json = { number_data };

    fn to_json(&self, _alloc: Global) -> Result<Value, NoMemory> {
        Ok(Value::from(*self))
    }
}

impl ToJson for u64 {
    ghost json = { number_data };

    fn to_json(&self, _alloc: Global) -> Result<Value, NoMemory> {
        Ok(Value::from(*self))
    }
}

impl ToJson for bool {
    ghost json = { boolean };

    fn to_json(&self, _alloc: Global) -> Result<Value, NoMemory> {
        Ok(Value::Bool(*self))
    }
}

impl ToJson for Addr {
    ghost json = { addr_data };

    fn to_json(&self, alloc: Global) -> Result<Value, NoMemory> {
        write_addr(alloc, self)?.to_json(alloc)
    }
}

impl ToJson for Cidr {
    ghost json = { cidr_data };

    fn to_json(&self, alloc: Global) -> Result<Value, NoMemory> {
        write_cidr(alloc, self)?.to_json(alloc)
    }
}

impl ToJson for Mac {
    ghost json = { mac_data };

    fn to_json(&self, alloc: Global) -> Result<Value, NoMemory> {
        write_mac(alloc, self)?.to_json(alloc)
    }
}

/// The items as a list.
pub fn list_value<T: ToJson>(alloc: Global, items: &[T]) -> Result<Value, NoMemory>
    ensures { IfOk result (λ v. view v ≡ list_data T.json items.now) }
{
    let mut values = Vec::with_capacity(alloc, items.len())?;
    for item in items {
        values.push(item.to_json(alloc)?)?;
    }
    Ok(Value::Array(values))
}

/// An object that is being built. Contracts see its members, in ascending byte order of their keys. A member that is
/// put at a key that is there takes the other's place. Where memory runs out, the object stays as it was.
#[derive(Drop)]
pub struct JsonObject {
    alloc: Global,
    members: Map<String, Value>,
}

impl JsonObject {
    /// The object without members. Takes no memory.
    pub fn new(alloc: Global) -> JsonObject
        ensures { members_of result ≡ no_members }
    {
        JsonObject {
            alloc,
            members: Map::new(alloc),
        }
    }

    /// The object as a value. Takes no memory.
    pub fn into_value(self) -> Value
        ensures { view result ≡ object (members_of self) }
    {
        let JsonObject { alloc: _, members } = self;
        Value::Object(members)
    }

    /// Puts a value that is JSON already.
    pub fn put_value(&mut self, key: &str, value: Value) -> Result<(), NoMemory>
        ensures put { OnOk result (members_of self.new ≡ with_member key.now (view value) (members_of self.old)) }
        ensures unchanged { OnErr result (members_of self.new ≡ members_of self.old) }
    {
        Ok(put(&mut self.members, self.alloc, key, value)?)
    }

    /// Puts a value.
    pub fn put<T: ToJson>(&mut self, key: &str, value: &T) -> Result<(), NoMemory>
        ensures put { OnOk result (members_of self.new ≡ with_member key.now (T.json value.now) (members_of self.old)) }
        ensures unchanged { OnErr result (members_of self.new ≡ members_of self.old) }
    {
        let value = value.to_json(self.alloc)?;
        self.put_value(key, value)
    }

    /// Puts a value, if there is one.
    pub fn put_if<T: ToJson>(&mut self, key: &str, value: &Option<T>) -> Result<(), NoMemory>
        ensures put { OnOk result (members_of self.new ≡ put_if T.json key.now value.now (members_of self.old)) }
        ensures unchanged { OnErr result (members_of self.new ≡ members_of self.old) }
    {
        match value {
            Some(value) => self.put(key, value),
            None => Ok(()),
        }
    }

    /// Puts a truth value that is true.
    pub fn put_if_true(&mut self, key: &str, flag: bool) -> Result<(), NoMemory>
        ensures put { OnOk result (members_of self.new ≡ put_if_true key.now flag (members_of self.old)) }
        ensures unchanged { OnErr result (members_of self.new ≡ members_of self.old) }
    {
        if flag { self.put(key, &flag) } else { Ok(()) }
    }

    /// Puts a text.
    pub fn put_text(&mut self, key: &str, text: &str) -> Result<(), NoMemory>
        ensures put { OnOk result
            (members_of self.new ≡ with_member key.now (text_data text.now) (members_of self.old)) }
        ensures unchanged { OnErr result (members_of self.new ≡ members_of self.old) }
    {
        let value = Value::try_from_str(self.alloc, text)?;
        self.put_value(key, value)
    }

    /// Puts a text that isn't empty.
    pub fn put_text_unless_empty(&mut self, key: &str, text: &Text) -> Result<(), NoMemory>
        ensures put { OnOk result (members_of self.new ≡ put_text_unless_empty key.now text.now (members_of self.old)) }
        ensures unchanged { OnErr result (members_of self.new ≡ members_of self.old) }
    {
        if text.as_str().is_empty() {
            return Ok(());
        }
        self.put(key, text)
    }

    /// Puts a list.
    pub fn put_list<T: ToJson>(&mut self, key: &str, items: &[T]) -> Result<(), NoMemory>
        ensures put { OnOk result
            (members_of self.new ≡ with_member key.now (list_data T.json items.now) (members_of self.old)) }
        ensures unchanged { OnErr result (members_of self.new ≡ members_of self.old) }
    {
        let value = list_value(self.alloc, items)?;
        self.put_value(key, value)
    }

    /// Puts a list that isn't empty.
    pub fn put_list_unless_empty<T: ToJson>(
        &mut self,
        key: &str,
        items: &[T],
    ) -> Result<(), NoMemory>
        ensures put { OnOk result
            (members_of self.new ≡ put_list_unless_empty T.json key.now items.now (members_of self.old)) }
        ensures unchanged { OnErr result (members_of self.new ≡ members_of self.old) }
    {
        if items.is_empty() {
            return Ok(());
        }
        self.put_list(key, items)
    }

    /// Puts an object that has a member.
    #[tactic(auto, using(crate::proofs::ObjectLemmas::put_object_with_entry))]
    pub fn put_object_unless_empty(&mut self, key: &str, inner: JsonObject) -> Result<(), NoMemory>
        ensures put { OnOk result
            (members_of self.new ≡ put_object_unless_empty key.now (members_of inner) (members_of self.old)) }
        ensures unchanged { OnErr result (members_of self.new ≡ members_of self.old) }
    {
        if inner.members.is_empty() {
            return Ok(());
        }
        self.put_value(key, inner.into_value())
    }
}

/// An object with copies of the members whose keys pass the test, of a value that is no object without members. Further
/// members can be put. It calls the test once a member, and takes time and memory in proportion to those that pass.
pub fn members_where<P: Fn(&str) -> bool>(
    alloc: Global,
    object: &Value,
    passes: P,
) -> Result<JsonObject, NoMemory>
    requires { P.IsAlwaysCallable passes }
    ensures { (test : List ℕ → Bool) → IsKeyTest P.Fn passes test
        → IfOk result (λ kept. members_of kept ≡ members_where test (members_in (view object.now))) }
{
    match object {
        Value::Object(members) => kept_members(alloc, members, passes),
        _ => Ok(JsonObject::new(alloc)),
    }
}

fn kept_members<P: Fn(&str) -> bool>(
    alloc: Global,
    members: &Map<String, Value>,
    passes: P,
) -> Result<JsonObject, NoMemory>
    requires { P.IsAlwaysCallable passes }
    ensures { (test : List ℕ → Bool) → IsKeyTest P.Fn passes test
        → IfOk result (λ kept. members_of kept ≡ members_where test (members_view members.now.entries)) }
{
    let mut kept = JsonObject::new(alloc);
    for (key, value) in members.iter() {
        if passes(key.as_str()) {
            kept.put_value(key.as_str(), value.clone()?)?;
        }
    }
    Ok(kept)
}
