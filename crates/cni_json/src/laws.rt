//! What is true of the definitions, without any call.

ghost use Rattle.cni_json.specs.Laws.{LinesAreReadAgain, LineFeedsAreSpace, ReadKeysAscend};

/// What a line was written for is what it is read as: `json_of (line_of d)` is `Ok d`.
///
/// It asks that each number of `d` be a `u64` or an `i64`, that each text and key be UTF-8, that
/// the keys of each object ascend, and that at most 127 lists and objects nest.
pub fn a_line_is_read_again()
    ensures { LinesAreReadAgain }
{}

/// A line feed behind any bytes changes nothing of what they are read as.
pub fn a_line_feed_is_space()
    ensures { LineFeedsAreSpace }
{}

/// The keys of each object that is read ascend in byte order, at any depth, and so `line` writes
/// them in that order.
pub fn keys_ascend()
    ensures { ReadKeysAscend }
{}
