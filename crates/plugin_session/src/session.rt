//! A session: its tasks one after another, and what contracts see of it.

ghost use Rattle.std.specs.Prelude.{◌≡◌, ◌<◌, ◌^◌, ◌++◌, [], IfOk, Contains, length, map, nat_le, slice_get};
ghost use Rattle.std.specs.Prelude.{vec_capacity};
ghost use Rattle.std.specs.Option.{option_and_then, option_copied, option_map, unwrap_or};
ghost use Rattle.std.specs.Result.{ForOk};
ghost use Rattle.plugin_registry.specs.Promised.{Keeps};
ghost use Rattle.session_laws.specs.Holds.{Grows, TaskHolds};
ghost use Rattle.session_file.specs.WellFormed.{IsSessionConf};
ghost use Rattle.session_laws.specs.Steps.{if_any, places_after};
ghost use Rattle.session_laws.specs.Views.{answer_of, begun, finish};

use crate::attachments::number_attachments;
use crate::run::{Hand, TaskRun, run_task};
use cni_addr::{Addr, Items, NoMemory};
use cni_result::AddResult;
use kernel_model::Kernel;
use kernel_types::{Call, Host};
use plugin_registry::{Ask, Calls, Promise, Registry, Results};
use session_file::SessionConf;
use session_laws::{Entry, Row, TaskAnswer};
use session_verbs::{Begun, Journal};
use std::alloc::Global;
use std::marker::Model;

/// A network, the kernel that it is on, and all that its tasks did so far.
#[derive(Drop)]
pub struct Session<K: Kernel> {
    alloc: Global,
    conf: SessionConf,
    journal: Journal<K>,
    rows: Vec<Row>,
    // What each row's task was leased, in order.
    leased: Vec<Items<Addr>>,
    // The number of each task's attachment.
    attachments: Vec<u32>,
    // The place of each attachment's last row.
    last_rows: Vec<Option<u32>>,
    answers: Vec<TaskAnswer>,
}

impl<K: Kernel> Model for Session<K> {
    ghost use Rattle.std.specs.Prelude.{◌≤◌, length, vec_capacity};
    ghost use Rattle.plugin_session.specs.Kept.{IsKept};
    ghost use Rattle.session_laws.specs.Views.{SessionView};

    ghost Value = { SessionView };

    ghost view = { λ s. record {
      conf = s.conf;
      history = s.journal.history;
      rows = s.rows.items;
      answers = s.answers.items;
    } };

    ghost invariant = { λ s. IsKept s.journal s.leased.items s.attachments.items s.last_rows.items (record {
      conf = s.conf;
      history = s.journal.history;
      rows = s.rows.items;
      answers = s.answers.items;
    }) × (length s.conf.tasks ≤ vec_capacity s.rows) × (length s.conf.tasks ≤ vec_capacity s.leased)
        × (length s.conf.tasks ≤ vec_capacity s.answers) };
}

impl<K: Kernel + Drop> Session<K> {
    /// A session before its first task. It makes room for every task's answer and row, and looks up which tasks speak
    /// of one attachment; where memory is refused for that, both are let go.
    pub fn begin(alloc: Global, conf: SessionConf, kernel: K) -> Result<Session<K>, NoMemory>
        requires conf { IsSessionConf conf }
        requires opening { K.host kernel ≡ conf.opening }
        ensures { IfOk result (λ s. s ≡ begun conf) }
    {
        let tasks = conf.tasks.as_slice();
        let count = tasks.len();
        let numbered = number_attachments(alloc, tasks)?;
        Ok(Session {
            alloc,
            journal: Journal::new(alloc, kernel)?,
            rows: Vec::with_capacity(alloc, count)?,
            leased: Vec::with_capacity(alloc, count)?,
            attachments: numbered.numbers,
            last_rows: numbered.last_rows,
            answers: Vec::with_capacity(alloc, count)?,
            conf,
        })
    }

    /// Runs the next task to its answer. Out of memory is an answer too.
    pub fn task<P: Promise>(&mut self, registry: &Registry<P>)
        requires left { length self.old.answers < length self.old.conf.tasks }
        requires promised { (plugin : _) → Contains registry.now.plugins.items plugin
            → Keeps (λ ask. ask.now) (λ r f. ForOk r f) plugin.needs
            (⟦<Calls as Fn(Global, &Ask) -> Result<Items<Call>, NoMemory>>⟧.post plugin.calls)
            (P.may_call plugin.name)
            × Keeps (λ ask. ask.now) (λ r f. ForOk r f) plugin.needs
            (⟦<Results as Fn(Global, &Ask) -> Result<AddResult, NoMemory>>⟧.post plugin.result)
            (P.may_result plugin.name) }
        ensures grows { Grows self.old self.new }
        ensures holds { TaskHolds (record {
          plugins = map (λ p. record { name = p.name; needs = p.needs; kinds = p.kinds }) registry.now.plugins.items;
          may_call = P.may_call;
          may_result = P.may_result;
        }) self.new }
    {
        let number = self.answers.len();
        let attachment = self.attachments[number] as usize;
        let place = self.last_rows[attachment];
        let conf = &self.conf;
        let hand = Hand {
            alloc: self.alloc,
            conf,
            number: number as u32 + 1,
            task: &conf.tasks.as_slice()[number],
            row: row_at(self.rows.as_slice(), place),
            leased: leased_at(self.leased.as_slice(), place),
        };
        let TaskRun { answer, begun } = run_task(&mut self.journal, &hand, registry);
        keep(
            &mut self.rows,
            &mut self.leased,
            &mut self.last_rows,
            attachment,
            begun,
        );
        self.answers.push_reserved(answer);
    }

    /// No task is left.
    pub fn ended(&self) -> bool
        ensures { result ≡ nat_le (length self.now.conf.tasks) (length self.now.answers) }
    {
        self.conf.tasks.as_slice().len() <= self.answers.len()
    }

    /// What the session is to do.
    pub fn conf(&self) -> &SessionConf
        ensures { result.now ≡ self.now.conf }
    {
        &self.conf
    }

    /// The calls that were made and their replies, oldest first.
    pub fn history(&self) -> &[Entry]
        ensures { result.now ≡ self.now.history }
    {
        self.journal.history()
    }

    /// Every row that a task made, in the order of the tasks.
    pub fn rows(&self) -> &[Row]
        ensures { result.now ≡ self.now.rows }
    {
        self.rows.as_slice()
    }

    /// The answers of the tasks that were run, in order.
    pub fn answers(&self) -> &[TaskAnswer]
        ensures { result.now ≡ self.now.answers }
    {
        self.answers.as_slice()
    }

    /// The answer of the task of this number, from 1, where it has one.
    pub fn answer(&self, task: u64) -> Option<&TaskAnswer>
        ensures { option_copied result ≡ answer_of self.now task }
    {
        if task == 0 {
            return None;
        }
        self.answers.get(task as usize - 1)
    }

    /// A copy of the host.
    pub fn host(&self) -> Result<Host, NoMemory>
        ensures { IfOk result (λ host. host ≡ finish self.now) }
    {
        self.journal.host()
    }
}

/// The row at this place, where it is one.
fn row_at(rows: &[Row], place: Option<u32>) -> Option<&Row>
    ensures { option_copied result ≡ option_and_then (slice_get rows.now) place }
{
    rows.get(place? as usize)
}

/// What the task of the row at this place was leased.
fn leased_at(leased: &[Items<Addr>], place: Option<u32>) -> &[Addr]
    ensures { result.now ≡ unwrap_or (option_and_then (slice_get leased.now) place) [] }
{
    if let Some(at) = place
        && let Some(addrs) = leased.get(at as usize)
    {
        return addrs.as_slice();
    }
    &[]
}

/// Keeps the row that a task made, where it made one, with what it was leased, as the last of its attachment.
fn keep(
    rows: &mut Vec<Row>,
    leased: &mut Vec<Items<Addr>>,
    last_rows: &mut Vec<Option<u32>>,
    attachment: usize,
    begun: Option<Begun>,
)
    requires few { length rows.old.items < 2 ^ 32 }
    requires room_for_row { length rows.old.items < vec_capacity rows.old }
    requires room_for_leased { length leased.old.items < vec_capacity leased.old }
    requires attachment { attachment < length last_rows.old.items }
    ensures rows { rows.new.items ≡ rows.old.items ++ if_any (option_map (λ b. b.row) begun) }
    ensures leased { leased.new.items ≡ leased.old.items ++ if_any (option_map (λ b. b.given.items) begun) }
    ensures last_rows { last_rows.new.items ≡ places_after rows.old.items attachment (option_map (λ b. b.row) begun)
        last_rows.old.items }
    ensures row_room { vec_capacity rows.new ≡ vec_capacity rows.old }
    ensures leased_room { vec_capacity leased.new ≡ vec_capacity leased.old }
{
    if let Some(made) = begun {
        last_rows[attachment] = Some(rows.len() as u32);
        rows.push_reserved(made.row);
        leased.push_reserved(Items::of_vec(made.given));
    }
}
