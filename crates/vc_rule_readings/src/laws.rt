//! Laws of readings in full, each the contract of a function that does nothing.

ghost use Rattle.vc_rule_readings.specs.Laws.{FullValues, ValidSumsFit};

/// The value of a term in full is that of a net: neither has sums over parts.
pub fn full_values()
    ensures { FullValues }
{}

/// In a valid plan sums over parts can be computed.
pub fn valid_sums_fit()
    ensures { ValidSumsFit }
{}
