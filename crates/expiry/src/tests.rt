// What each call answers.
use crate::{is_expired, until_of};
use cache_model::{Lifespan, Until};
use std::test::Fail;

/// A moment, a lifespan in units or none, and the end of an entry that is put then.
const ENDS: [(u32, Option<u32>, Until); 5] = [
    (0, None, Until::Never),
    (1000, None, Until::Never),
    (1000, Some(0), Until::At(1000)),
    (0, Some(7), Until::At(7)),
    (1000, Some(60), Until::At(1060)),
];

/// An end, a moment, and whether an entry that ends so is expired then.
const EXPIRED: [(Until, u64, bool); 7] = [
    (Until::Never, 0, false),
    (Until::Never, u64::MAX, false),
    (Until::At(1000), 999, false),
    (Until::At(1000), 1000, true),
    (Until::At(1000), 1001, true),
    (Until::At(0), 0, true),
    (Until::At(1), 0, false),
];

#[test]
fn ends(rt: HostRuntime) -> Result<(), Fail> {
    for (moment, units, end) in ENDS {
        let moment = u64::from(moment);
        let until = match units {
            Some(units) => until_of(moment, Lifespan::Of(u64::from(units))),
            None => until_of(moment, Lifespan::Endless),
        };
        assert_eq!(rt; until, end);
    }
    Ok(())
}

#[test]
fn expired(rt: HostRuntime) -> Result<(), Fail> {
    for (end, moment, expired) in EXPIRED {
        assert_eq!(rt; is_expired(end, moment), expired);
    }
    Ok(())
}
