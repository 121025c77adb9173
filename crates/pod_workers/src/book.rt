//! The book: a plan, the kernel that it is carried out on, what was done, and who is answered.

ghost use Rattle.std.specs.Prelude.{◌≡◌, ◌+◌, ◌<◌, ◌^◌, ℕ, Some, slice_get, length, nat_le, All, IfOk, IsTrue, OnErr};
ghost use Rattle.std.specs.Prelude.{MatchBool};
ghost use Rattle.std.specs.Option.{option_copied};
ghost use Rattle.pod_workers.specs.Extends.{Appends, Extends, Rounds};
ghost use Rattle.pod_workers.specs.Index.{is_cut_by, is_entry_in};
ghost use Rattle.pod_workers.specs.Legal.{Legal};
ghost use Rattle.pod_workers.specs.Order.{AppendsInFileOrder, EarlierAreAnswered, IsEntryBy, IsInFileOrder};
ghost use Rattle.pod_workers.specs.Plans.{IsWellFormed};
ghost use Rattle.pod_workers.specs.Slots.{AreNumbersOf};
ghost use Rattle.pod_workers.specs.World.{IsReadyNumber, IsRoundOver, RunsOut, StepsTo, answer_for, at_number, begun};
ghost use Rattle.pod_workers.specs.World.{host_of, is_of_round, next_round};

use crate::index::{Place, command_at, index_of, may_step, place_at, round_at};
use crate::plan::{Entry, Plan, StepEnd};
use crate::slots::{blanks, put_at, take_at};
use crate::step::{Stepped, step_command};
use crate::task::Task;
use cni_addr::NoMemory;
use cni_errors::Answer;
use kernel_model::Kernel;
use kernel_types::Host;
use pod_file::Command;
use std::alloc::Global;
use std::marker::Model;

/// A plan, the kernel that it is carried out on, and all that was done so far.
#[derive(Drop)]
pub struct Book<K: Kernel> {
    plan: Plan,
    kernel: K,
    history: Vec<Entry>,
    answers: Vec<Option<Answer>>,
    // The task of each command that has begun and has no answer.
    slots: Vec<Option<Task>>,
    places: Vec<Place>,
    // How many commands the rounds before the current one have.
    before: usize,
    round: u32,
}

impl<K: Kernel> Model for Book<K> {
    ghost use Rattle.pod_workers.specs.World.{World};

    ghost Value = { World };

    ghost use Rattle.pod_workers.specs.Slots.{IsKept};

    ghost view = { λ b. record {
      plan = b.plan;
      history = b.history.items;
      answers = b.answers.items;
      round = b.round;
    } };

    ghost invariant = { λ b. IsKept (K.host b.kernel) b.slots.items b.places.items b.before (record {
      plan = b.plan;
      history = b.history.items;
      answers = b.answers.items;
      round = b.round;
    }) };
}

impl<K: Kernel + Drop> Book<K> {
    /// A book of the plan, with nothing done yet. It makes room for every command's answer and looks up where each
    /// command stands; where memory is refused for that, plan and kernel are let go.
    pub fn begin(alloc: Global, plan: Plan, kernel: K) -> Result<Book<K>, NoMemory>
        requires well_formed { IsWellFormed plan }
        requires opening { K.host kernel ≡ plan.pods.opening }
        ensures begun { IfOk result (λ book. book ≡ begun plan) }
        ensures order { IfOk result IsInFileOrder }
    {
        let places = index_of(alloc, plan.pods.rounds.as_slice())?;
        let answers = blanks(alloc, places.len())?;
        let slots = blanks(alloc, places.len())?;
        Ok(Book {
            plan,
            kernel,
            history: Vec::new(alloc),
            answers,
            slots,
            places,
            before: 0,
            round: 0,
        })
    }

    /// The plan that is carried out.
    pub fn plan(&self) -> &Plan
        ensures { result.now ≡ self.now.plan }
    {
        &self.plan
    }

    /// The commands of the current round, in file order. Takes no memory.
    pub fn current_round(&self) -> &[Command]
        requires { self.now.round < length self.now.plan.pods.rounds }
        ensures { slice_get self.now.plan.pods.rounds self.now.round ≡ Some result.now }
    {
        round_at(self.plan.pods.rounds.as_slice(), self.round)
    }

    /// The calls that were made and their replies, oldest first.
    pub fn history(&self) -> &[Entry]
        ensures { result.now ≡ self.now.history }
    {
        self.history.as_slice()
    }

    /// The answer of the command of this number, from 1, where it has one.
    pub fn answer(&self, number: u32) -> Option<&Answer>
        ensures { option_copied result ≡ answer_for self.now number }
    {
        match at_number(self.answers.as_slice(), number) {
            None => None,
            Some(answer) => answer.as_ref(),
        }
    }

    /// The answers of all commands, in file order.
    pub fn answers(&self) -> &[Option<Answer>]
        ensures { result.now ≡ self.now.answers }
    {
        self.answers.as_slice()
    }

    /// A copy of the host.
    pub fn host(&self) -> Result<Host, NoMemory>
        ensures { IfOk result (λ host. host ≡ host_of self.now) }
    {
        self.kernel.host(*self.history.allocator())
    }

    /// The current round, from 0.
    pub fn round(&self) -> u32
        ensures { result ≡ self.now.round }
    {
        self.round
    }

    /// Whether the entry is of a command of the current round. Takes no memory.
    pub fn is_of_round(&self, entry: &Entry) -> bool
        ensures { result ≡ is_of_round self.now.plan self.now.round entry.now }
    {
        is_entry_in(self.places.as_slice(), self.round, entry)
    }

    /// No round is left.
    pub fn ended(&self) -> bool
        ensures { result ≡ nat_le (length self.now.plan.pods.rounds) self.now.round }
    {
        self.plan.pods.rounds.as_slice().len() <= self.round as usize
    }

    /// Whether the command of this number, from 1, may step: it is of the current round and has no answer, and the
    /// command before it of its container in the round has one. A number that is no command's may not.
    pub fn ready(&self, number: u32) -> bool
        ensures { MatchBool result (IsReadyNumber self.now number) (IsReadyNumber self.now number → ⊥) }
    {
        match at_number(self.places.as_slice(), number) {
            None => false,
            Some(place) => {
                let n = (number - 1) as usize;
                may_step(*place, self.answers.as_slice(), self.round, n)
            }
        }
    }

    /// One step of the command of this number: a call, or its answer. Where memory is refused, host and history stay as
    /// they were, and the command is answered so.
    pub fn step(&mut self, number: u32) -> Result<StepEnd, NoMemory>
        requires { IsReadyNumber self.old number }
        ensures ok { IfOk result (StepsTo self.old self.new number) }
        ensures err { OnErr result (RunsOut self.old self.new number) }
    {
        let n = (number - 1) as usize;
        let place = place_at(self.places.as_slice(), n);
        let cut = is_cut(
            self.plan.stop_at,
            self.history.as_slice(),
            self.places.as_slice(),
            self.round,
        );
        let task = take_at(&mut self.slots, n);
        let wanted = command_at(self.plan.pods.rounds.as_slice(), place);
        match step_command(
            &mut self.kernel,
            &mut self.history,
            self.plan.lists.as_slice(),
            wanted,
            cut,
            task,
        ) {
            Err(NoMemory) => {
                put_at(&mut self.answers, n, Answer::OutOfMemory);
                Err(NoMemory)
            }
            Ok(stepped) => match stepped {
                Stepped::Called(task) => {
                    put_at(&mut self.slots, n, task);
                    Ok(StepEnd::Went)
                }
                Stepped::Answered(answer) => {
                    put_at(&mut self.answers, n, answer);
                    Ok(StepEnd::Over)
                }
            },
        }
    }

    /// Steps each command of the current round to its answer, in file order, and makes the next round current. It ends,
    /// since a step gives an answer or enters a call, and each run has a bounded number of calls (`each_run_is_bounded`
    /// of `pod_laws`, and the laws beside it).
    pub fn round_alone(&mut self)
        requires { self.old.round < length self.old.plan.pods.rounds }
        ensures rounds { Rounds self.old self.new }
        ensures appends { AppendsInFileOrder self.old self.new }
        ensures order { IsInFileOrder self.old → IsInFileOrder self.new }
    {
        let (first, end) = self.numbers();
        for number in first..end {
            self.finish(number);
            self.is_legal();
        }
        self.is_legal();
        self.next_round();
    }

    /// Steps the command of this number until it may step no more.
    fn finish(&mut self, number: u32)
        ensures extends { Extends self.old self.new }
        ensures over { IsReadyNumber self.new number → ⊥ }
        ensures own { Appends self.old.history self.new.history (All (IsEntryBy number)) }
        ensures order { ((n : ℕ) → number ≡ n + 1 → EarlierAreAnswered self.old n)
            → IsInFileOrder self.old → IsInFileOrder self.new }
    {
        while self.ready(number) {
            self.is_legal();
            let _ = self.step(number);
        }
    }

    /// The numbers of the current round's commands: the first, and one more than the last.
    fn numbers(&self) -> (u32, u32)
        requires { self.now.round < length self.now.plan.pods.rounds }
        ensures { AreNumbersOf self.now result.0 result.1 }
    {
        let commands = self.current_round();
        let first = self.before as u32 + 1;
        (first, first + commands.len() as u32)
    }

    /// Makes the next round current.
    fn next_round(&mut self)
        requires left { self.old.round < length self.old.plan.pods.rounds }
        requires over { IsRoundOver self.old }
        ensures { self.new ≡ next_round self.old }
    {
        self.before += self.current_round().len();
        self.round += 1;
    }

    /// What every book is: it does nothing, and opens the fact to a caller's proof.
    pub fn is_legal(&self)
        ensures { Legal self.now }
    {
        let _legal = &self.plan;
    }
}

/// What stands at this number, from 1.
fn at_number<T>(items: &[T], number: u32) -> Option<&T>
    ensures { option_copied result ≡ at_number items.now number }
{
    if number == 0 {
        return None;
    }
    items.get((number - 1) as usize)
}

/// Whether the plan stops the round here: its last allowed entry is the last of the history, and of this round.
fn is_cut(stop_at: Option<u32>, history: &[Entry], places: &[Place], round: u32) -> bool
    ensures cut { result ≡ is_cut_by stop_at history.now places.now round }
    ensures small { IsTrue result → length history.now < 2 ^ 32 }
{
    match stop_at {
        None => false,
        Some(number) => match history.last() {
            None => false,
            Some(entry) => history.len() == number as usize && is_entry_in(places, round, entry),
        },
    }
}

/// Whether the entry is of this round.
fn is_entry_in(places: &[Place], round: u32, entry: &Entry) -> bool
    ensures { result ≡ is_entry_in places.now round entry.now }
{
    match at_number(places, entry.command) {
        None => false,
        Some(place) => place.round == round,
    }
}
