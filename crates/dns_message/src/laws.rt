//! The laws of the messages.

ghost use Rattle.dns_message.specs.ReadBack.{QueriesAreReadBack, RecordsAreSpelled};
ghost use Rattle.dns_message.specs.ConstantValues.{ConstantValues};

/// A query is read back as the question that was asked.
pub fn queries_are_read_back()
    ensures { QueriesAreReadBack }
{}

/// The records by which an answer is defined are those that the bytes represent.
pub fn records_are_spelled()
    ensures { RecordsAreSpelled }
{}

/// The numbers that the definitions name by the code's constants.
pub fn constant_values()
    ensures { ConstantValues }
{}
