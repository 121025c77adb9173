//! The plugins that a caller brings.

ghost use Rattle.std.specs.Prelude.{◌≡◌, ◌++◌, ◌∷◌, [], true, false, find, OnOk, OnErr};
ghost use Rattle.std.specs.List.{list_any};
ghost use Rattle.std.specs.Str.{bytes_eq};
ghost use Rattle.std.specs.Option.{option_copied};

use crate::plugin::{Plugin, Promise};
use std::alloc::Global;

/// Why a plugin isn't added. It is handed back.
#[derive(Drop)]
pub enum AddEnd<P> {
    /// A plugin of its name is there.
    SameName(Plugin<P>),
    NoMemory(Plugin<P>),
}

/// Plugins in the order in which they were added.
#[derive(Drop)]
pub struct Registry<P> {
    pub plugins: Vec<Plugin<P>>,
}

impl<P: Promise> Registry<P> {
    /// A registry without plugins. Takes no memory.
    pub fn new(alloc: Global) -> Registry<P>
        ensures { result.plugins.items ≡ [] }
    {
        Registry {
            plugins: Vec::new(alloc),
        }
    }

    /// Puts the plugin at the end. One whose name is there already is handed back, and so is one for which there is no
    /// memory. Linear in the plugins.
    pub fn add(&mut self, plugin: Plugin<P>) -> Result<(), AddEnd<P>>
        ensures ok { OnOk result (self.new.plugins.items ≡ self.old.plugins.items ++ plugin ∷ []) }
        ensures err { OnErr result (self.new.plugins.items ≡ self.old.plugins.items) }
        ensures named { OnOk result (list_any (λ p. bytes_eq p.name plugin.name) self.old.plugins.items ≡ false) }
        ensures same_name { (back : _) → result ≡ Err (AddEnd.SameName back) → (back ≡ plugin)
            × (list_any (λ p. bytes_eq p.name plugin.name) self.old.plugins.items ≡ true) }
        ensures memory { (back : _) → result ≡ Err (AddEnd.NoMemory back) → (back ≡ plugin)
            × (list_any (λ p. bytes_eq p.name plugin.name) self.old.plugins.items ≡ false) }
    {
        if self.find(plugin.name.as_str()).is_some() {
            return Err(AddEnd::SameName(plugin));
        }
        if self.plugins.reserve(1).is_err() {
            return Err(AddEnd::NoMemory(plugin));
        }
        self.plugins.push_reserved(plugin);
        Ok(())
    }

    /// The first plugin of this name. Takes no memory; linear in the plugins.
    pub fn find(&self, name: &str) -> Option<&Plugin<P>>
        ensures { option_copied result ≡ find (λ p. bytes_eq p.name name.now) self.now.plugins.items }
    {
        for plugin in &self.plugins {
            if plugin.name.as_str() == name {
                return Some(plugin);
            }
        }
        None
    }
}
