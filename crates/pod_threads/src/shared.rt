//! What lies under the lock, and what holds whenever the lock is free.

ghost use Rattle.std.specs.Prelude.{◌≡◌, ◌+◌, ◌<◌, ◌^◌, length};
ghost use Rattle.pod_workers.specs.Extends.{Extends};
ghost use Rattle.pod_workers.specs.World.{IsReadyNumber};
ghost use Rattle.pod_workers.specs.declared.plan.StepEnd.TheVariants.{Over};
ghost use Rattle.pod_threads.specs.Guarded.{entries_by, Guarded, MakesStep};

use cni_addr::NoMemory;
use kernel_model::Kernel;
use pod_workers::{Book, StepEnd};
use std::marker::{Brand, Model, PhantomData};
use std::sync::ledger;
use std::sync::ledger::{Ledger, Share};

/// Names the world of the book that went in. Each round picks its own.
pub(crate) trait Origin {
    ghost use Rattle.pod_workers.specs.World.{World};

    ghost from: { World };
}

impl Origin for Brand {
    ghost use Rattle.pod_threads.specs.Nowhere.{nowhere};

    ghost from = { nowhere };
}

/// The book and a ledger of the entries made since it went in. Its invariant is what holds whenever the lock is free,
/// since whoever takes the lock finds it and has to leave it: the book is one that the one that went in comes to by
/// allowed steps of commands of the round (`Extends`; that its history is legal is the book's own invariant), and the
/// ledger's total is the number of entries that came to its history.
#[derive(Drop)]
pub(crate) struct Shared<J: Origin, L: Ledger, K: Kernel + Drop> {
    book: Book<K>,
    made: ledger::Book<L>,
    of: PhantomData<J>,
}

impl<J: Origin, L: Ledger, K: Kernel + Drop> Model for Shared<J, L, K> {
    ghost use Rattle.std.specs.Prelude.{◌≡◌, ◌+◌, length};
    ghost use Rattle.pod_workers.specs.Extends.{Extends};
    ghost use Rattle.pod_threads.specs.Guarded.{Guarded};

    ghost Value = { Guarded };

    ghost view = { λ s. record { world = s.book; total = s.made.total } };

    ghost invariant = { λ s. Extends J.from s.book × (length s.book.history ≡ length J.from.history + s.made.total) };
}

impl<J: Origin, L: Ledger, K: Kernel + Drop> Shared<J, L, K> {
    /// Nothing is counted yet.
    pub(crate) fn new(book: Book<K>, made: ledger::Book<L>) -> Shared<J, L, K>
        requires from { book ≡ J.from }
        requires none { made.total ≡ 0 }
        ensures { result ≡ record { world = book; total = 0 } }
    {
        Shared {
            book,
            made,
            of: PhantomData,
        }
    }

    /// Steps a command if it is ready, and says whether a call was made, which counts for this part of the ledger.
    pub(crate) fn step(&mut self, command: u32, mine: &mut Share<L>) -> StepEnd
        requires { 0 < mine.old.parts }
        ensures ready { IsReadyNumber self.old.world command → MakesStep self.old.world self.new.world command result }
        ensures waits { (IsReadyNumber self.old.world command → ⊥)
            → (self.new.world ≡ self.old.world) × (result ≡ Over) }
        ensures total { self.new.total ≡ self.old.total + entries_by result }
        ensures parts { mine.new.parts ≡ mine.old.parts }
        ensures amount { mine.new.amount ≡ mine.old.amount + entries_by result }
        ensures fits { mine.new.amount < 2 ^ 64 }
    {
        let end = if self.book.ready(command) {
            self.enter(command, mine)
        } else {
            StepEnd::Over
        };
        self.tell(mine);
        end
    }

    /// Changes nothing, and tells that the amount of a part of the ledger fits.
    fn tell(&mut self, mine: &mut Share<L>)
        ensures same { self.new ≡ self.old }
        ensures parts { mine.new.parts ≡ mine.old.parts }
        ensures amount { mine.new.amount ≡ mine.old.amount }
        ensures fits { mine.old.amount < 2 ^ 64 }
    {
        let _length = self.book.history().len();
        self.made.audit(mine);
    }

    /// Steps a ready command. One that is refused memory is answered so, and over.
    fn enter(&mut self, command: u32, mine: &mut Share<L>) -> StepEnd
        requires parts { 0 < mine.old.parts }
        requires ready { IsReadyNumber self.old.world command }
        ensures step { MakesStep self.old.world self.new.world command result }
        ensures total { self.new.total ≡ self.old.total + entries_by result }
        ensures parts { mine.new.parts ≡ mine.old.parts }
        ensures amount { mine.new.amount ≡ mine.old.amount + entries_by result }
    {
        match self.book.step(command) {
            Ok(StepEnd::Went) => {
                self.made.add(mine, 1);
                StepEnd::Went
            }
            Ok(StepEnd::Over) => StepEnd::Over,
            Err(NoMemory) => StepEnd::Over,
        }
    }

    /// The book, once all parts of the ledger are in one.
    pub(crate) fn into_book(self, all: &mut Share<L>) -> Book<K>
        requires { all.old.parts ≡ L.parts }
        ensures parts { all.new.parts ≡ all.old.parts }
        ensures amount { all.new.amount ≡ all.old.amount }
        ensures book { result ≡ self.world }
        ensures extends { Extends J.from result }
        ensures entries { length result.history ≡ length J.from.history + all.old.amount }
    {
        let Shared {
            book,
            mut made,
            of: _,
        } = self;
        made.audit(all);
        book
    }
}
