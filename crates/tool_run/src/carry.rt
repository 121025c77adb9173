//! Carries out a plan, one round after another, and makes its text.

ghost use Rattle.std.specs.Prelude.{◌≡◌, ◌≤◌, IfOk};
ghost use Rattle.pod_text.specs.Lines.{text_of};
ghost use Rattle.pod_workers.specs.Legal.{Legal};
ghost use Rattle.pod_workers.specs.Order.{IsInFileOrder};
ghost use Rattle.pod_workers.specs.Plans.{IsWellFormed};
ghost use Rattle.tool_run.specs.Reports.{CarriesOut};

use crate::kernel::{FromHost, begin};
use crate::rounds::make_round;
use cni_addr::NoMemory;
use host_tables::TableKey;
use kernel_model::Kernel;
use pod_text::{Asked, text};
use pod_threads::Gate;
use pod_workers::Book;
use std::alloc::Global;
use std::sync::Wait;
use std::thread::Threads;
use tool_plan::DuePlan;

/// A plan that was carried out: its book, and the whole text of it.
#[derive(Drop)]
pub(crate) struct CarriedOut<K: Kernel + Drop> {
    pub(crate) book: Book<K>,
    pub(crate) text: Vec<u8>,
}

/// Carries out the plan, each round by at most as many threads as are due.
#[tactic(auto, using(crate::proofs::Carried::carries_out, crate::proofs::Carried::in_order))]
pub(crate) fn carry_out<K: FromHost + Send + Drop, R: Threads + Wait + Sync, G: Gate>(
    rt: &R,
    alloc: Global,
    due: DuePlan,
    gate: &G,
) -> Result<CarriedOut<K>, NoMemory>
    requires well_formed { IsWellFormed due.plan }
    requires some { 1 ≤ due.threads }
    ensures made { IfOk result (CarriesOut due) }
    ensures order { due.threads ≡ 1 → IfOk result (λ made. IsInFileOrder made.book) }
{
    let DuePlan {
        threads,
        plan,
        asked,
        digest,
    } = due;
    let mut book: Book<K> = begin(alloc, &TableKey { digest }, plan)?;
    while !book.ended() {
        book = make_round(rt, alloc, book, threads, gate);
    }
    print(alloc, book, &asked)
}

/// Carries out the plan on the calling thread.
#[tactic(auto, using(crate::proofs::Carried::carries_out, crate::proofs::Carried::in_order))]
pub(crate) fn carry_out_alone<K: FromHost + Drop>(
    alloc: Global,
    due: DuePlan,
) -> Result<CarriedOut<K>, NoMemory>
    requires well_formed { IsWellFormed due.plan }
    ensures made { IfOk result (CarriesOut due) }
    ensures order { IfOk result (λ made. IsInFileOrder made.book) }
{
    let DuePlan {
        threads: _,
        plan,
        asked,
        digest,
    } = due;
    let mut book: Book<K> = begin(alloc, &TableKey { digest }, plan)?;
    while !book.ended() {
        book.round_alone();
    }
    print(alloc, book, &asked)
}

/// The book with its text.
fn print<K: Kernel + Drop>(
    alloc: Global,
    book: Book<K>,
    asked: &Asked,
) -> Result<CarriedOut<K>, NoMemory>
    ensures book { IfOk result (λ made. made.book ≡ book) }
    ensures legal { Legal book }
    ensures text { IfOk result (λ made. made.text.items ≡ text_of book asked.now) }
{
    book.is_legal();
    let text = text(alloc, &book, asked)?;
    Ok(CarriedOut { book, text })
}
