//! Counts of readings that stop where a rule has too many, so that none wraps, however long the rule.

ghost use Rattle.std.specs.Prelude.{◌≡◌, ◌*◌};
ghost use Rattle.ps_readings.specs.Counted.{counted};

use ps_model::RULE_READINGS_LIMIT;

/// A count, or one more than the most readings of a rule, where it is over that.
pub fn counted(count: u64) -> u32
    ensures { result ≡ counted count }
{
    if count > u64::from(RULE_READINGS_LIMIT) {
        return RULE_READINGS_LIMIT + 1;
    }
    count as u32
}

/// The product of two counts, counted in the same way.
pub fn times(first: u32, second: u32) -> u32
    ensures { result ≡ counted (first * second) }
{
    counted(u64::from(first) * u64::from(second))
}
