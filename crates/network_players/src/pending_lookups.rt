//! The lookups of the whole program that have not ended. Their number is limited, because a resolver may take a long time to answer, and
//! the lookups must leave descriptors for the matches.
ghost use Rattle.std.specs.Prelude.{◌≡◌, ◌≤◌, IfOk, IfSome, length, string_bytes};
ghost use Rattle.std.specs.Arc.{arc_value};
ghost use Rattle.network_players.specs.Lookups.{lookup_descriptors};

use crate::lookup::HostQuery;
use match_plans::Shortage;
use std::alloc::Global;
use std::sync::Arc;

/// The most descriptors that a lookup takes: a socket for each of three name servers, and a connection to one of them.
const EACH: u64 = 4;

/// The largest number of lookups at once, however many descriptors there are.
const MOST: u64 = 1_024;

/// The number of descriptors if the limit is unknown.
const USUAL_DESCRIPTORS: u64 = 1_024;

/// The number of descriptors that are reserved for lookups: a quarter of all, but enough for at least one lookup and at most 1,024.
pub fn lookup_descriptors(descriptors: u64) -> u64
    ensures { result ≡ lookup_descriptors descriptors }
{
    EACH * (descriptors / (4 * EACH)).clamp(1, MOST)
}

/// The lookups that have not ended: at most one for each host, and a second one if the first seems to have no end.
#[derive(Drop)]
pub struct PendingLookups {
    queries: Vec<Arc<HostQuery>>,
    /// The largest number of lookups at once.
    most: usize,
    ghost bound: { length queries.items ≤ most },
}

impl PendingLookups {
    /// No lookups yet, for a program that may have this many descriptors. `None` means that the limit is unknown.
    pub fn within(alloc: Global, descriptors: Option<u64>) -> PendingLookups {
        let descriptors = descriptors.unwrap_or(USUAL_DESCRIPTORS);
        PendingLookups {
            queries: Vec::new(alloc),
            most: (lookup_descriptors(descriptors) / EACH) as usize,
        }
    }

    /// A lookup of the same host that has not ended, if there is one. Otherwise this adds the query, which the caller must start. If the
    /// lookup began long ago, a second one begins, unless the limit is reached. The error is what the referee lacks for another lookup.
    pub(crate) fn join(
        &mut self,
        query: &Arc<HostQuery>,
    ) -> Result<Option<Arc<HostQuery>>, Shortage>
        ensures same { IfOk result (λ joined. IfSome joined (λ other. string_bytes (arc_value other).host ≡ string_bytes (arc_value query.now).host)) }
    {
        self.queries.retain(|other| other.found().is_none());
        let is_full = self.queries.len() >= self.most;
        let mut joins_any = is_full;
        for other in &self.queries {
            if other.is_of(query) {
                if joins_any || !other.is_long_before(query) {
                    return match Arc::try_clone(other) {
                        Ok(other) => Ok(Some(other)),
                        Err(_) => Err(Shortage::Memory),
                    };
                }
                joins_any = true;
            }
        }
        if is_full {
            return Err(Shortage::Descriptors);
        }
        let Ok(added) = Arc::try_clone(query) else {
            return Err(Shortage::Memory);
        };
        match self.queries.push(added) {
            Ok(()) => Ok(None),
            Err(_) => Err(Shortage::Memory),
        }
    }
}
