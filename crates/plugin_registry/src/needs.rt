//! The tests of a task's options.

ghost use Rattle.std.specs.Prelude.{◌≡◌};
ghost use Rattle.std.specs.Option.{option_copied};
ghost use Rattle.plugin_registry.specs.Needs as tests;

use crate::ask::{Form, Need, Opt};
use cni_addr::read_addr;
use net_conf::is_interface_name;

/// The value of the first option of this key. Linear in the options.
pub fn value_of<'a>(key: &str, options: &'a [Opt]) -> Option<&'a str>
    ensures { option_copied result ≡ tests.value_of key.now options.now }
{
    options
        .iter()
        .find(|option| option.key.as_str() == key)
        .map(|option| option.value.as_str())
}

/// Whether the text is the decimal numeral of a number within these bounds.
fn is_number(least: u32, most: u32, text: &str) -> bool
    ensures { result ≡ tests.is_number least most text.now }
{
    // `parse` takes a sign and leading zeros too.
    if !begins_plainly(text.as_bytes()) {
        return false;
    }
    match text.parse::<u32>() {
        Ok(number) => least <= number && number <= most,
        Err(_) => false,
    }
}

fn begins_plainly(digits: &[u8]) -> bool
    ensures { result ≡ tests.begins_plainly digits.now }
{
    matches!(digits, [b'0'] | [b'1'..=b'9', ..])
}

fn has_form(form: Form, text: &str) -> bool
    ensures { result ≡ tests.has_form form text.now }
{
    match form {
        Form::Any => true,
        Form::IfName => is_interface_name(text),
        Form::Number { least, most } => is_number(least, most, text),
        Form::Address => read_addr(text.as_bytes()).is_some(),
    }
}

fn is_met(need: &Need, options: &[Opt]) -> bool
    ensures { result ≡ tests.is_met options.now need.now }
{
    match value_of(need.key.as_str(), options) {
        None => !need.must,
        Some(value) => has_form(need.form, value),
    }
}

/// The first need that the options don't meet: an option that must be there isn't, or its value hasn't the form. Takes
/// no memory; for each need it looks through the options.
pub fn first_unmet<'a>(needs: &'a [Need], options: &[Opt]) -> Option<&'a Need>
    ensures { option_copied result ≡ tests.first_unmet needs.now options.now }
{
    needs.iter().find(|need| !is_met(need, options))
}
