//! What a check asks of one object.

ghost use Rattle.std.specs.Prelude.{◌≡◌, IfOk};
ghost use Rattle.cni_errors.specs.ObjectQuestions as asked;

use crate::answer::{Cause, Missed, Question};
use cni_addr::{Duplicate, NoMemory, RefCounted};
use kernel_types::{AddrObj, Call, Lease, Link, Object, Probe, RouteObj, Rule, Setting};
use std::alloc::Global;

/// An object that a check asks for by itself.
pub trait Checked: Drop {
    ghost use Rattle.std.specs.Prelude.{◌≡◌, IfOk};
    ghost use Rattle.cni_errors.specs.declared.answer.Question.{Question};

    ghost question: { Self → Question };

    /// Whether it is there as it is, and what is missed otherwise.
    fn ask(self, alloc: Global) -> Result<Question, NoMemory>
        ensures { IfOk result (λ q. q ≡ question self) };
}

/// The question whether this object is there as it is, and what is missed otherwise.
pub fn asks_for(alloc: Global, object: Object, missed: Missed) -> Result<Question, NoMemory>
    ensures { IfOk result (λ q. q ≡ asked.asks_for object missed) }
{
    let probe = Probe::Whole(object);
    Ok(Question {
        call: RefCounted::of(alloc, Call::HasObj { probe })?,
        lack: Cause::Missing(missed),
    })
}

impl Checked for Link {
    ghost use Rattle.cni_errors.specs.ObjectQuestions.{link_question};

    ghost question = { link_question };

    fn ask(self, alloc: Global) -> Result<Question, NoMemory> {
        let link = RefCounted::of(alloc, self)?;
        let missed = Missed::Link(link.copy()?);
        asks_for(alloc, Object::Link(link), missed)
    }
}

impl Checked for RefCounted<AddrObj> {
    ghost use Rattle.cni_errors.specs.ObjectQuestions.{address_question};

    ghost question = { address_question };

    fn ask(self, alloc: Global) -> Result<Question, NoMemory> {
        let missed = Missed::Address(self.copy()?);
        asks_for(alloc, Object::Address(self), missed)
    }
}

impl Checked for RefCounted<RouteObj> {
    ghost use Rattle.cni_errors.specs.ObjectQuestions.{route_question};

    ghost question = { route_question };

    fn ask(self, alloc: Global) -> Result<Question, NoMemory> {
        let missed = Missed::Route(self.copy()?);
        asks_for(alloc, Object::Route(self), missed)
    }
}

impl Checked for RefCounted<Setting> {
    ghost use Rattle.cni_errors.specs.ObjectQuestions.{setting_question};

    ghost question = { setting_question };

    fn ask(self, alloc: Global) -> Result<Question, NoMemory> {
        let missed = Missed::Setting(self.copy()?);
        asks_for(alloc, Object::Setting(self), missed)
    }
}

impl Checked for RefCounted<Lease> {
    ghost use Rattle.cni_errors.specs.ObjectQuestions.{lease_question};

    ghost question = { lease_question };

    fn ask(self, alloc: Global) -> Result<Question, NoMemory> {
        let missed = Missed::Lease(self.copy()?);
        asks_for(alloc, Object::Lease(self), missed)
    }
}

/// The question whether this rule is there, which has no name and is missed by its number, from 1.
pub fn rule_question(
    alloc: Global,
    rule: &RefCounted<Rule>,
    number: u64,
) -> Result<Question, NoMemory>
    ensures { IfOk result (λ q. q ≡ asked.rule_question number rule.now) }
{
    let missed = Missed::Rule {
        rule: rule.copy()?,
        number,
    };
    asks_for(alloc, Object::Rule(rule.copy()?), missed)
}
