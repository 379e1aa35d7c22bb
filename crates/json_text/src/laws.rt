// The laws.
ghost use Rattle.json_text.specs.Laws.{PlainReadsBack, CompactIsOneLine, ReadIsSorted};

/// A law: the compact text of a value that has no float, whole numbers in their range and members
/// in order, and that nests at most 127 deep, reads as that value.
pub fn plain_reads_back()
    ensures { PlainReadsBack }
{}

/// A law: compact text has no line feed.
pub fn compact_is_one_line()
    ensures { CompactIsOneLine }
{}

/// A law: a value that was read has the members of each object in byte order, each name once.
pub fn read_is_sorted()
    ensures { ReadIsSorted }
{}
