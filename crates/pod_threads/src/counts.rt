//! How many entries a round has.

ghost use Rattle.std.specs.Prelude.{◌≡◌, ◌+◌, ◌<◌, ◌≤◌, ◌^◌, length, sum, slice_index, slice_set};
ghost use Rattle.pod_threads.specs.Counted.{entries_of_round, is_current};

use kernel_model::Kernel;
use pod_workers::Book;

/// How many entries of the history are of commands of the current round. Those stand last, so it reads one more at
/// most.
pub(crate) fn entries_of_current<K: Kernel + Drop>(book: &Book<K>) -> usize
    ensures { result ≡ entries_of_round book.now.plan book.now.round book.now.history }
{
    book.is_legal();
    let mut before = book.history().len();
    while is_current(book, before) {
        before -= 1;
    }
    book.history().len() - before
}

/// Whether the entry of this number, from 1, is of the current round. There is none of number 0.
fn is_current<K: Kernel + Drop>(book: &Book<K>, number: usize) -> bool
    requires { number ≤ length book.now.history }
    ensures { result ≡ is_current book.now number }
{
    if number == 0 {
        return false;
    }
    book.is_of_round(&book.history()[number - 1])
}

/// Adds to the first count, and to no other.
pub(crate) fn add_first(counts: &mut Vec<u64>, more: u64)
    requires some { 0 < length counts.old.items }
    requires fits { sum counts.old.items + more < 2 ^ 64 }
    ensures first { counts.new.items ≡ slice_set counts.old.items 0 (slice_index counts.old.items 0 + more) }
    ensures sum { sum counts.new.items ≡ sum counts.old.items + more }
    ensures long { length counts.new.items ≡ length counts.old.items }
{
    counts[0] += more;
}
