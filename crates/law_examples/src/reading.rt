//! What statements read and write, what they are under other names, and what they weigh.

ghost use Rattle.law_examples.specs.Reading.{ReadByTerms, ReadByStatements, ReadByCalls, ReadByRuntime, Written, HandedBack, Within, Renamed, Padded};

/// What statements read.
pub fn read_cases()
    ensures terms { ReadByTerms }
    ensures statements { ReadByStatements }
    ensures calls { ReadByCalls }
    ensures runtime { ReadByRuntime }
{}

/// What statements write.
pub fn written_cases()
    ensures written { Written }
{}

/// Which of their dummies units read and write, through calls.
pub fn dummy_cases()
    ensures handed_back { HandedBack }
    ensures within { Within }
{}

/// Statements under other names, and with statements before them that do nothing.
pub fn renamed_cases()
    ensures renamed { Renamed }
    ensures padded { Padded }
{}
