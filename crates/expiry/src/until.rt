// From lifespans to moments, and from moments to what is expired.
ghost use Rattle.std.specs.Prelude.{◌≡◌, ◌<◌, ◌^◌, not};
ghost use Rattle.cache_model.specs.Commands.{IsLifespan};
ghost use Rattle.cache_model.specs.Items.{IsUntil};
ghost use Rattle.cache_model.specs.Plain.{is_visible, until_of};

use cache_model::{Lifespan, Until};

/// The moment from which an entry is expired that is put at a moment.
pub fn until_of(moment: u64, lifespan: Lifespan) -> Until
    requires moment { moment < 2 ^ 61 }
    requires lifespan { IsLifespan lifespan }
    ensures until { result ≡ until_of moment lifespan }
    ensures within { IsUntil result }
{
    match lifespan {
        Lifespan::Endless => Until::Never,
        Lifespan::Of(units) => Until::At(moment + units),
    }
}

/// Whether an entry that ends so is expired at a moment: it is from its end on.
pub fn is_expired(until: Until, moment: u64) -> bool
    ensures { result ≡ not (is_visible until moment) }
{
    match until {
        Until::Never => false,
        Until::At(end) => moment >= end,
    }
}
