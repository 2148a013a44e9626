//! How often something was done, in the time that it took.
use crate::fault::Fault;
use std::time::Duration;

/// How often it was done in each of so many nanoseconds, where it was done `count` times in all. In 1,000,000 of them
/// it is thousands a second.
pub fn times_in(nanos: u64, count: u32, took: Duration) -> u128 {
    u128::from(nanos) * u128::from(count) / took.as_nanos().max(1)
}

/// Prints how many million messages a second a part does, which the rate counts by hundredths.
pub fn print_messages<R: Print>(rt: &R, part: &str, rate: u128) -> Result<(), Fault> {
    println!(rt; "{part}.project: {}.{:02} Mmsg/s", rate / 100, rate % 100)?;
    Ok(())
}
