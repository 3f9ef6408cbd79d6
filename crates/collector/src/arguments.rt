//! Which collection the arguments of a command ask for.

ghost use Rattle.std.specs.Prelude.{◌≡◌, ◌≢◌, ◌≤◌, IfNone, IfSome, IsTrue};
ghost use Rattle.trace_types.specs.Collections.{are_allowed, greatest_power};
ghost use Rattle.collect_model.specs.Worlds.{arguments_of};
ghost use Rattle.collector.specs.Collected.{arguments_in};

use territory::Targets;
use trace_types::CollectArgs;

/// The static generation.
const STATIC: u8 = 8;

/// Whether a heap of this version, whose oldest collected generation this is, may be collected so: a generation below
/// the oldest goes at most one further, the oldest stays or, in version 2, becomes static.
fn are_allowed(targets: &Targets, version: u8, oldest: u8) -> bool
    requires { oldest ≤ 7 }
    ensures { result ≡ are_allowed version oldest (arguments_of targets.now) }
{
    let Targets { cg, min, max } = *targets;
    (cg < oldest && cg <= min && min <= max && max <= cg + 1)
        || (cg == oldest && min == oldest && max == oldest)
        || (version == 2 && cg == oldest && min == STATIC && max == STATIC)
}

/// The greatest number m, at most `oldest`, for which 4 to the power of m divides `number`.
fn greatest_power(number: u64, oldest: u8) -> u8
    requires { oldest ≤ 7 }
    ensures value { result ≡ greatest_power number oldest }
    ensures range { result ≤ oldest }
{
    let mut m = oldest;
    while m > 0 {
        if number % 4u64.pow(u32::from(m)) == 0 {
            return m;
        }
        m -= 1;
    }
    0
}

/// The targets that the arguments ask for: a plain collection, the one of this number, collects the greatest generation
/// m for which 4^m divides the number, as in Chez Scheme. None where version and oldest generation do not allow them.
pub(crate) fn targets_of(args: CollectArgs, number: u64, version: u8, oldest: u8) -> Option<Targets>
    requires { (1 ≤ oldest) × (oldest ≤ 7) }
    ensures some { IfSome result (λ t. (arguments_of t ≡ arguments_in oldest number args)
        × IsTrue (are_allowed version oldest (arguments_of t))) }
    ensures none { IfNone result ((IsTrue (are_allowed version oldest (arguments_in oldest number args)) → ⊥)
        × (args ≢ CollectArgs.Plain)) }
{
    let targets = match args {
        CollectArgs::Plain => {
            let cg = greatest_power(number, oldest);
            let next = oldest.min(cg + 1);
            Targets {
                cg,
                min: next,
                max: next,
            }
        }
        CollectArgs::Explicit { cg, min, max } => Targets { cg, min, max },
    };
    if are_allowed(&targets, version, oldest) {
        Some(targets)
    } else {
        None
    }
}
